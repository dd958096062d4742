// The record of the letters heard, over any code, and whole sequences of its calls.

#![tactic(auto)]

mod calls;
mod marking;
mod recording;
mod replaying;

pub use calls::{Answer, Call};
pub use recording::Record;
pub use replaying::replay;
