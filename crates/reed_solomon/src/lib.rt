// Reed-Solomon codes over any field.

#![tactic(auto)]

mod evaluation;
mod gathering;
mod laws;
mod listing;
mod recovering;

pub use evaluation::ReedSolomon;
pub use laws::{lists_are_few, reed_solomon_stands};
