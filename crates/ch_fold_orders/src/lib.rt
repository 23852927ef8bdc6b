//! The master's folds of the kinds that go by an order: the first rows of an order, and the rows that none dominates.
#![tactic(auto)]

mod firsts;
mod front;
mod skyline;
mod top;

pub use front::Axis;
pub use skyline::SkylineFold;
pub use top::TopFold;
