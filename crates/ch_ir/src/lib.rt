//! Profiles, register programs and their meaning.
#![tactic(auto)]

mod hash;
mod part;
mod profile;
mod program;
mod read;
mod rules;
mod setting;

pub use hash::{hash_more, hash_start, hash_words};
pub use part::{cells_of, entries_of, to_of};
pub use profile::{Profile, default_profile};
pub use program::{Access, Array, Binary, Op, Operand, Program, Stage, Test, Update};
pub use read::{ProfileError, ProfileWhy, read_profile};
pub use rules::{Interval, LimitName, Refused, Sizes};
