use ch_cells::Bytes;

/// A sign of a query text.
#[derive(Clone, Copy, Debug, PartialEq, Eq)]
pub enum Symbol {
    Eq,
    Ne,
    Lt,
    Le,
    Gt,
    Ge,
    LeftParen,
    RightParen,
    Comma,
    Dot,
    Star,
    Semicolon,
}

/// A token of a query text. A quoted name and a text stand without their quotes, and each quote
/// that was doubled in them stands once.
#[derive(Drop)]
pub enum Token {
    Word(Bytes),
    Quoted(Bytes),
    Number(i64),
    Text(Bytes),
    Symbol(Symbol),
}
