//! Generated inputs are taken: what the parties of a run read of them, as contracts of functions that do nothing.
#![tactic(auto)]

mod laws;

pub use laws::{
    generated_files_are_small, generated_queries_are_bound, generated_queries_are_planned,
    generated_queries_are_spelled, generated_schedules_are_read, generated_tables_are_read,
    requests_are_in_range,
};
