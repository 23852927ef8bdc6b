//! What a program is given from outside: files to read, and streams to write to.
#![tactic(auto)]

mod disk_shelf;
mod fault_plan;
mod map_shelf;
mod shelf;
mod sink;
mod std_sink;
mod vec_sink;

pub use disk_shelf::DiskShelf;
pub use map_shelf::MapShelf;
pub use shelf::{Shelf, ShelfError};
pub use sink::{Sink, SinkError};
pub use std_sink::StdSink;
pub use vec_sink::VecSink;
