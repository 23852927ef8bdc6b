use ch_cells::Counts;
use ch_ends::{Master, Worker};
use ch_finish::Fold;
use ch_links::Link;
use ch_parts::Parts;
use ch_pred::Bound;
use ch_ranks::Ranks;
use ch_switch::Switch;
use std::alloc::Global;

/// The fields of a run.
#[derive(Drop)]
pub struct Engine<'a> {
    pub alloc: Global,
    pub parts: Parts<'a>,
    pub bound: &'a Bound,
    pub ranks: &'a Ranks,
    pub two_passes: bool,
    pub pass: u8,
    pub workers: Vec<Worker>,
    /// The first worker whose end isn't acknowledged in this pass, or their number.
    pub first_open: usize,
    pub switch: Switch,
    pub master: Master,
    pub up: Link,
    pub down: Link,
    pub back: Link,
    pub fold: Fold,
    /// The words of a row that is sent.
    pub sending: Vec<i64>,
    /// The words of a row that arrives, with room for the most that a packet has.
    pub arriving: Vec<i64>,
    pub counts: Counts,
}
