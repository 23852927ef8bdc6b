use ch_cells::Listed;

/// A word of the row or of an earlier op or access, or a constant.
#[derive(Clone, Copy, Debug)]
pub enum Operand {
    Word(u32),
    Const(i64),
}

/// What an op of two operands computes.
#[derive(Clone, Copy, Debug, PartialEq, Eq)]
pub enum Binary {
    /// The sum, saturating at the ends of `i64`.
    Add,
    /// The difference, saturating at the ends of `i64`.
    Sub,
    Lt,
    Le,
    Eq,
    Ne,
    /// 1 where neither operand is 0.
    And,
    /// 1 where an operand isn't 0.
    Or,
    /// Bitwise and.
    Mask,
}

/// Assigns the word that its first number names.
#[derive(Debug, Drop)]
pub enum Op {
    Set(u32, Operand),
    Two(u32, Binary, Operand, Operand),
    /// 2 to the power of the operand, from 0 to 61, else 0.
    Bit(u32, Operand),
    /// The second operand where the first isn't 0, else the third.
    Pick(u32, Operand, Operand, Operand),
    /// The hash by the seed, modulo the third number, of the listed words.
    Hash(u32, u64, u32, Listed<u32>),
}

/// What an access asks of the entry. Cell 0 is the mark where a test uses one, and an entry with mark 0 is free.
#[derive(Clone, Copy, Debug)]
pub enum Test {
    Always,
    /// The mark isn't 0, and the cells 1 to n equal the key.
    KeyEq(u32),
    /// The mark is 0, or the cells 1 to n equal the key.
    KeyEqOrFree(u32),
    /// The mark is 0, or the cell is less than the key's one word.
    Less(u32),
}

/// What becomes of a cell.
#[derive(Clone, Copy, Debug)]
pub enum Update {
    Keep,
    Put(Operand),
    /// The sum, saturating at the ends of `i64`.
    AddSat(Operand),
    Min(Operand),
    Max(Operand),
    /// Bitwise or.
    Or(Operand),
}

/// Reads and updates one entry of one array.
#[derive(Debug, Drop)]
pub struct Access {
    pub array: u32,
    pub index: Operand,
    /// Where it is 0 nothing changes, and the old words and hit are 0.
    pub guard: Operand,
    pub test: Test,
    pub key: Listed<Operand>,
    /// One update per cell, made where the test holds.
    pub yes: Listed<Update>,
    /// One update per cell, made where the test doesn't hold.
    pub no: Listed<Update>,
    /// The first of the words that get the cells as they were.
    pub old: u32,
    /// The word that gets 1 where the test holds, else 0.
    pub hit: u32,
}

/// An array of registers: its number of entries, and the cells of each.
#[derive(Clone, Copy, Debug)]
pub struct Array {
    pub entries: u32,
    pub cells: u32,
}

/// Ops in order, then an access.
#[derive(Debug, Drop)]
pub struct Stage {
    pub ops: Listed<Op>,
    pub accesses: Listed<Access>,
}

/// A register program. The first `width` words are given: the pass, the side, the bit, and then the words of the row. The
/// others have no value until they are assigned.
#[derive(Debug, Drop)]
pub struct Program {
    pub width: u32,
    pub arrays: Listed<Array>,
    pub stages: Listed<Stage>,
    /// The word that is not 0 exactly where the row is pruned.
    pub verdict: u32,
}
