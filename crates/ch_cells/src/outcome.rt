use crate::listed::Listed;
use crate::row::{Header, Row};

/// What a run counts. A count that has reached `u64::MAX` stays there.
#[derive(Clone, Copy)]
pub struct Counts {
    /// The rows of all workers.
    pub rows: u64,
    /// The packets that the workers sent.
    pub sends: u64,
    /// The rows that the switch pruned, each time that it did.
    pub pruned: u64,
    /// The packets that the switch sent on to the master.
    pub forwarded: u64,
    /// The steps of the schedule, and the events of its `drain`.
    pub steps: u64,
}

/// A worker whose end isn't acknowledged in the current pass.
#[derive(Drop)]
pub struct OpenFlow {
    pub pass: u8,
    pub worker: u16,
    /// How many of its numbers are acknowledged.
    pub acknowledged: u32,
    /// How many numbers it has: its rows and its end.
    pub of: u32,
    /// The numbers that it sent and that aren't acknowledged, ascending.
    pub unacknowledged: Listed<u32>,
}

/// The answer of a query.
#[derive(Drop)]
pub struct Answer {
    pub header: Header,
    /// Each with as many cells as the header has names.
    pub rows: Listed<Row>,
}
