use thiserror::Error;

/// The numbers of a profile that a program must keep to.
#[derive(Clone, Copy, Debug, PartialEq, Eq)]
pub enum LimitName {
    Width,
    Cells,
    Words,
    Stages,
    Ops,
}

/// What a program needs of each limit.
#[derive(Clone, Copy, Debug)]
pub struct Sizes {
    pub width: u32,
    /// The greatest number of cells of an array.
    pub cells: u64,
    /// One more than the greatest word number, and at least the width.
    pub words: u64,
    pub stages: u32,
    /// The greatest number of ops in a stage.
    pub ops: u32,
}

/// The least and the greatest value that a word can have.
#[derive(Clone, Copy)]
pub struct Interval {
    pub low: i64,
    pub high: i64,
}

/// Why a program is refused. Stages count from 0.
#[derive(Clone, Copy, Debug, PartialEq, Eq, Error)]
pub enum Refused {
    #[error("a limit is exceeded: the program needs {need} and the profile has {have}")]
    Limit {
        which: LimitName,
        need: u64,
        have: u64,
    },
    #[error("stage {stage} reads word {word}, which has no value there")]
    Word {
        stage: u32,
        word: u32,
    },
    #[error("stage {stage} assigns word {word}, which has a value there")]
    AssignedTwice {
        stage: u32,
        word: u32,
    },
    #[error("stage {stage} has a second access, or one to an array of an earlier stage")]
    TwoAccesses {
        stage: u32,
    },
    #[error("stage {stage} has an op or an access out of shape")]
    Shape {
        stage: u32,
    },
    #[error("stage {stage} has an index from {low} to {high} into {len} entries")]
    IndexRange {
        stage: u32,
        low: i64,
        high: i64,
        len: u32,
    },
    #[error("out of memory")]
    Memory,
}
