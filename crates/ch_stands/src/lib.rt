//! Which states of the protocol the parties of a run stand for, each by itself; and what is told to all workers at once.
#![tactic(auto)]

mod team;

pub use team::{begin_all, first_open, new_team, restart_all};
