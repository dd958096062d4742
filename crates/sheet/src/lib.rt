// Sheets: a set of letters for each place.

#![tactic(auto)]

mod marks;

pub use marks::{Marks, load};
