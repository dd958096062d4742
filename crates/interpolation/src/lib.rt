// List recovery by interpolation: a curve through all pairs, and a walk that finds the polynomials on it. In fixed memory.

#![tactic(auto)]

mod curve;
mod fitting;
mod koetter;
mod led;
mod pairs;
mod plan;
mod region;
mod rows;
mod steps;
mod taking;
mod walk;
mod weights;

pub use curve::Curve;
pub use fitting::{Closed, Gathering};
pub use plan::Plan;
pub use taking::open;
