//! The operator of SKYLINE OF: it prunes a row whose point a stored one dominates.
#![tactic(auto)]

mod emitting;
mod laws;
mod place;
mod program;
mod sizes;
mod skyline;

pub use laws::worked;
pub use sizes::Sizes;
pub use skyline::Skyline;
