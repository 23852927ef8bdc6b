//! The operator of GROUP BY with MAX or MIN: of each hash row some keys with their best values.
#![tactic(auto)]

mod columns;
mod emit;
mod group;
mod laws;

pub use group::Group;
pub use laws::worked_verdicts;
