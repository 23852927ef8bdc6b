//! The pipeline: a checked program with its registers, row by row.
#![tactic(auto)]

mod access;
mod cells;
mod ops;
mod pipe;
mod registers;
mod stage;
mod step;

pub use pipe::Pipe;
