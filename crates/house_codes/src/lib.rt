// The codes of the house: those in which the probes send their records. None of the makings can fail.

#![tactic(auto)]

mod binary;
mod brine;
mod header;
mod slab;

pub use brine::{BrineCode, brine_code};
pub use header::{HeaderCode, header_code};
pub use slab::{SlabCode, slab_code, slab_inner_code};
