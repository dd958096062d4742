// Concatenated codes: an outer code above an inner code, each of any kind. The trade calls one a pile.

#![tactic(auto)]

mod coding;
mod joining;
mod lifting;
mod places;
mod theorems;
mod words;

pub use code::MAX_PLACES;
pub use joining::Concatenated;
pub use theorems::concatenations_stand;
