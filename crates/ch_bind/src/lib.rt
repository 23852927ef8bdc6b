//! Queries bound to their tables: each name stands for one column, or the first of nine checks tells what is wrong. And
//! the check that no summed cell is negative.
#![tactic(auto)]

mod binding;
mod carried;
mod checks;
mod error;
mod filter;
mod items;
mod kinds;
mod names;
mod printed;
mod references;
mod scope;
mod shape;
mod sums;
mod worked;

pub use binding::bind;
pub use error::{BindError, SumError};
pub use shape::{TableShape, shapes_of};
pub use sums::check_sums;
