use ch_cells::Listed;

/// A row that the master received, with the worker that sent it and its number.
#[derive(Drop)]
pub struct Arrived {
    pub worker: u16,
    pub side: u8,
    pub number: u32,
    pub words: Listed<i64>,
}

/// Rows in the order in which they arrived.
pub type Received = Listed<Arrived>;
