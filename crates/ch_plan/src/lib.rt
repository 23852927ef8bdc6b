//! Plans: the operator of a query within the limits of a profile, and its checked program.
#![tactic(auto)]

mod error;
mod kind;
mod kinds;
mod laws;
mod needs;
mod places;
mod planned;

pub use error::PlanError;
pub use kind::PlanKind;
pub use laws::{
    planned_programs_pass, plans_hold, policies_know_no_filter, profiles_are_ranged,
    sound_queries_are_plannable, worked,
};
pub use planned::{Planned, plan};
