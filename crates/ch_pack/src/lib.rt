//! Planned programs packed into one, which a selector word selects.
#![tactic(auto)]

mod error;
mod laws;
mod needs;
mod ops;
mod packing;
mod program;
mod stages;

pub use error::PackError;
pub use laws::{plans_are_made, worked};
pub use packing::{Packed, pack};
