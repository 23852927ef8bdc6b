ghost use Rattle.std.specs.Prelude.{◌≡◌, List, OnOk, map};
ghost use Rattle.ch_sql_grammar.specs.declared.terminal.Mark.TheVariants as mark;
ghost use Rattle.ch_sql_grammar.specs.declared.terminal.Terminal.{Terminal};
ghost use Rattle.ch_sql_grammar.specs.Grammar.{col_tokens, extreme_tokens, item_tokens, dim_tokens};
ghost use Rattle.ch_sql_text.specs.Printed.{joined, literal_tokens};
ghost use Rattle.ch_sql_text.specs.Writing.{puts};

use crate::writer::Writer;
use ch_cells::Memory;
use ch_pred::Literal;
use ch_sql_grammar::{ColumnRef, Item, Mark, SkyDim};

/// A part of a query that stands in a list.
pub trait Phrase {
    /// Its tokens.
    ghost tokens: { Self → List Terminal };

    fn write(&self, writer: &mut Writer) -> Result<(), Memory>
        ensures { OnOk result (writer.new ≡ puts writer.old (tokens self.now)) };
}

#[tactic(auto, using(crate::proofs::Puts::put_rules))]
impl Phrase for ColumnRef {
    ghost tokens = { col_tokens };

    fn write(&self, writer: &mut Writer) -> Result<(), Memory> {
        match &self.table {
            Some(table) => {
                writer.name(table)?;
                writer.mark(Mark::Dot)?;
                writer.name(&self.name)
            }
            None => writer.name(&self.name),
        }
    }
}

impl Phrase for Literal {
    ghost tokens = { literal_tokens };

    fn write(&self, writer: &mut Writer) -> Result<(), Memory> {
        match self {
            Literal::Number(n) => writer.number(*n),
            Literal::Text(text) => writer.text(text),
        }
    }
}

impl Phrase for Item {
    ghost tokens = { item_tokens };

    fn write(&self, writer: &mut Writer) -> Result<(), Memory> {
        match self {
            Item::Star => writer.mark(Mark::Star),
            Item::Column(col) => col.write(writer),
            Item::Max(col) => write_call(writer, Mark::Max, col),
            Item::Min(col) => write_call(writer, Mark::Min, col),
        }
    }
}

#[tactic(auto, using(crate::proofs::Puts::put_rules))]
impl Phrase for SkyDim {
    ghost tokens = { dim_tokens };

    fn write(&self, writer: &mut Writer) -> Result<(), Memory> {
        self.col.write(writer)?;
        if self.max {
            writer.mark(Mark::Max)
        } else {
            writer.mark(Mark::Min)
        }
    }
}

/// A function of one column.
#[tactic(auto, using(crate::proofs::Puts::put_rules))]
pub fn write_call(writer: &mut Writer, function: Mark, col: &ColumnRef) -> Result<(), Memory>
    ensures { OnOk result (writer.new ≡ puts writer.old (extreme_tokens function col.now)) }
{
    writer.mark(function)?;
    writer.mark(Mark::LeftParen)?;
    col.write(writer)?;
    writer.mark(Mark::RightParen)
}

/// All, with commas between them.
#[tactic(auto, using(crate::proofs::Puts::put_rules))]
pub fn write_list<P: Phrase>(writer: &mut Writer, phrases: &[P]) -> Result<(), Memory>
    ensures { OnOk result
        (writer.new ≡ puts writer.old (joined mark.Comma (map P.tokens phrases.now))) }
{
    let mut behind_one = false;
    for phrase in phrases {
        writer.mark_if(behind_one, Mark::Comma)?;
        phrase.write(writer)?;
        behind_one = true;
    }
    Ok(())
}
