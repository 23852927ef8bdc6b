//! Which part of which table each worker of a query scans.
#![tactic(auto)]

mod listing;
mod sides;

pub use listing::new_parts;
