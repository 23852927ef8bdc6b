//! The grammar of queries and the places that its tokens come to: both give the same queries, each
//! place can be completed, and each refusal is named at its first token.
#![tactic(auto)]

mod laws;

pub use laws::{
    derived_trees_are_equal, every_place_is_completed, places_give_what_is_derived,
    refusals_are_first,
};
