// Hearings files: what was heard, struck and asked for, as bytes, and the text that answers it.

#![tactic(auto)]

mod choices;
#[cfg(test)]
mod example;
mod items;
mod lines;
mod messages;
mod readers;
mod reading;
mod records;
mod writing;

pub use reading::report;
