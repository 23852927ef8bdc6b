ghost use Rattle.std.specs.Prelude.{◌≡◌};
ghost use Rattle.ch_sql_grammar.specs.declared.terminal.Terminal.TheVariants as terminal;
ghost use Rattle.ch_sql_text.specs.Layout.{is_spaced, last_mark};

use ch_sql_grammar::Mark;

/// What kind of token stands last.
#[derive(Clone, Copy, PartialEq, Eq)]
pub enum Last {
    /// None, `(` or `.`.
    Open,
    /// MAX, MIN, SUM or COUNT.
    Call,
    Other,
}

pub fn last_after(mark: Mark) -> Last
    ensures { result ≡ last_mark mark }
{
    match mark {
        Mark::LeftParen | Mark::Dot => Last::Open,
        Mark::Max | Mark::Min | Mark::Sum | Mark::Count => Last::Call,
        _ => Last::Other,
    }
}

/// Whether a space stands before the mark.
pub fn is_mark_spaced(last: Last, mark: Mark) -> bool
    ensures { result ≡ is_spaced last (terminal.Mark mark) }
{
    match mark {
        Mark::Comma | Mark::RightParen | Mark::Dot => false,
        Mark::LeftParen => last == Last::Other,
        _ => last != Last::Open,
    }
}
