//! The places of a query's columns in the rows that workers send, and its different key columns.
#![tactic(auto)]

mod different;
mod place;

pub use different::{count_different, count_printed, different_places, printed_cols};
pub use place::place_of;
