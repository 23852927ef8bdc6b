//! The lines of a trace: a run written down event by event, each with the bytes of its packet and with what became of it.
#![tactic(auto)]

mod cut;
mod fates;
mod field;
mod laws;
mod line;
mod read;
mod write;

pub use cut::cut_line;
pub use laws::{
    lines_have_no_line_feed, read_lines_are_spelled, spelled_lines_are_read, traces_are_spelled,
};
pub use line::{Ending, Line, LineError, Noted};
pub use read::read_line;
pub use write::{push_ending, push_noted};
