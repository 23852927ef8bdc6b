//! The limits on a query: the places read exactly what the grammar derives within them, and refuse
//! with the one refusal that holds.
#![tactic(auto)]

mod laws;
mod refusals;
mod worked;

pub use laws::{derived_within_limits_is_read, refused_exceeds_or_is_not_derived};
pub use refusals::{parse_refusals_are_exact, refused_or_read};
pub use worked::{depths_are_counted, limits_are_kept, refusals_are_worked};
