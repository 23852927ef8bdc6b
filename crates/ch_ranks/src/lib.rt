//! Texts as numbers: different texts are ranked in their order, so that a greater text has a greater rank.
#![tactic(auto)]

mod builder;
mod ranks;

pub use builder::RanksBuilder;
pub use ranks::{Ranks, ranks_are_a_bijection};
