// Generator codes: a word is the sum of message letter times row of a table.

#![tactic(auto)]

mod laws;
mod listing;
mod making;
mod table;
mod trying;
mod words;

pub use laws::generator_stands;
pub use table::Generator;
