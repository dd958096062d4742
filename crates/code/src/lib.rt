// What a code is, and what listing by it means.

#![tactic(auto)]

mod messages;
mod score;
mod sheets;
mod theorems;
mod traits;

// The most places of a code, and letters of a message.
pub const MAX_PLACES: usize = 240;

pub const MAX_DIMENSION: usize = 16;

pub use messages::{is_row, number_of, spell};
pub use score::hits;
pub use sheets::is_sheet;
pub use theorems::lists_rise;
pub use traits::Code;
