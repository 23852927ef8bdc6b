ghost use Rattle.std.specs.Prelude.{◌≡◌, OnOk, map};
ghost use Rattle.ch_sql_grammar.specs.declared.terminal.Mark.TheVariants as mark;
ghost use Rattle.ch_sql_grammar.specs.Grammar.{cmp_mark, side_tokens};
ghost use Rattle.ch_sql_grammar.specs.Tree.{plain_of, plains, Compare, Between, Within, Like};
ghost use Rattle.ch_sql_text.specs.Printed.{and_members, filter_tokens, is_and_or, is_or, joined, or_members};
ghost use Rattle.ch_sql_text.specs.Writing.{puts};

use crate::phrase::{Phrase, write_list};
use crate::writer::Writer;
use ch_cells::{Bytes, Memory};
use ch_pred::{Cmp, Literal};
use ch_sql_grammar::{ColumnRef, Mark, Pred, Side};

pub fn is_or_pred(pred: &Pred) -> bool
    ensures { result ≡ is_or (plain_of pred.now) }
{
    matches!(pred, Pred::Or(_))
}

fn is_and_or_pred(pred: &Pred) -> bool
    ensures { result ≡ is_and_or (plain_of pred.now) }
{
    matches!(pred, Pred::And(_) | Pred::Or(_))
}

#[cycle(filter)]
#[tactic(auto, using(crate::proofs::Puts::put_rules))]
pub fn write_pred(writer: &mut Writer, pred: &Pred) -> Result<(), Memory>
    ensures { OnOk result (writer.new ≡ puts writer.old (filter_tokens (plain_of pred.now))) }
{
    match pred {
        Pred::Compare(col, cmp, side) => write_comparison(writer, col, *cmp, side),
        Pred::Between(col, low, high) => write_between(writer, col, low, high),
        Pred::Within(col, literals) => write_within(writer, col, literals.as_slice()),
        Pred::Like(col, prefix) => write_like(writer, col, prefix),
        Pred::And(members) => write_and(writer, members.as_slice()),
        Pred::Or(members) => write_or(writer, members.as_slice()),
        Pred::Not(inner) => {
            let in_parens = is_and_or_pred(inner);
            writer.mark(Mark::Not)?;
            writer.mark_if(in_parens, Mark::LeftParen)?;
            write_pred(writer, inner)?;
            writer.mark_if(in_parens, Mark::RightParen)
        }
    }
}

#[cycle(filter)]
#[tactic(auto, using(crate::proofs::Puts::put_rules))]
fn write_and(writer: &mut Writer, members: &[Pred]) -> Result<(), Memory>
    ensures { let parts = and_members (plains (map plain_of members.now))
        in OnOk result (writer.new ≡ puts writer.old (joined mark.And parts)) }
{
    let mut behind_one = false;
    for member in members {
        let in_parens = is_and_or_pred(member);
        writer.mark_if(behind_one, Mark::And)?;
        writer.mark_if(in_parens, Mark::LeftParen)?;
        write_pred(writer, member)?;
        writer.mark_if(in_parens, Mark::RightParen)?;
        behind_one = true;
    }
    Ok(())
}

#[cycle(filter)]
#[tactic(auto, using(crate::proofs::Puts::put_rules))]
fn write_or(writer: &mut Writer, members: &[Pred]) -> Result<(), Memory>
    ensures { let parts = or_members (plains (map plain_of members.now))
        in OnOk result (writer.new ≡ puts writer.old (joined mark.Or parts)) }
{
    let mut behind_one = false;
    for member in members {
        let in_parens = is_or_pred(member);
        writer.mark_if(behind_one, Mark::Or)?;
        writer.mark_if(in_parens, Mark::LeftParen)?;
        write_pred(writer, member)?;
        writer.mark_if(in_parens, Mark::RightParen)?;
        behind_one = true;
    }
    Ok(())
}

fn mark_of_cmp(cmp: Cmp) -> Mark
    ensures { result ≡ cmp_mark cmp }
{
    match cmp {
        Cmp::Eq => Mark::Eq,
        Cmp::Ne => Mark::Ne,
        Cmp::Lt => Mark::Lt,
        Cmp::Le => Mark::Le,
        Cmp::Gt => Mark::Gt,
        Cmp::Ge => Mark::Ge,
    }
}

fn write_side(writer: &mut Writer, side: &Side) -> Result<(), Memory>
    ensures { OnOk result (writer.new ≡ puts writer.old (side_tokens side.now)) }
{
    match side {
        Side::Column(col) => col.write(writer),
        Side::Value(literal) => literal.write(writer),
    }
}

#[tactic(auto, using(crate::proofs::Puts::put_rules))]
fn write_comparison(
    writer: &mut Writer,
    col: &ColumnRef,
    cmp: Cmp,
    side: &Side,
) -> Result<(), Memory>
    ensures { OnOk result
        (writer.new ≡ puts writer.old (filter_tokens (Compare col.now cmp side.now))) }
{
    col.write(writer)?;
    writer.mark(mark_of_cmp(cmp))?;
    write_side(writer, side)
}

#[tactic(auto, using(crate::proofs::Puts::put_rules))]
fn write_between(
    writer: &mut Writer,
    col: &ColumnRef,
    low: &Literal,
    high: &Literal,
) -> Result<(), Memory>
    ensures { OnOk result
        (writer.new ≡ puts writer.old (filter_tokens (Between col.now low.now high.now))) }
{
    col.write(writer)?;
    writer.mark(Mark::Between)?;
    low.write(writer)?;
    writer.mark(Mark::And)?;
    high.write(writer)
}

#[tactic(auto, using(crate::proofs::Puts::put_rules))]
fn write_within(writer: &mut Writer, col: &ColumnRef, literals: &[Literal]) -> Result<(), Memory>
    ensures { OnOk result
        (writer.new ≡ puts writer.old (filter_tokens (Within col.now literals.now))) }
{
    col.write(writer)?;
    writer.mark(Mark::In)?;
    writer.mark(Mark::LeftParen)?;
    write_list(writer, literals)?;
    writer.mark(Mark::RightParen)
}

#[tactic(auto, using(crate::proofs::Puts::put_rules))]
fn write_like(writer: &mut Writer, col: &ColumnRef, prefix: &Bytes) -> Result<(), Memory>
    ensures { OnOk result (writer.new ≡ puts writer.old (filter_tokens (Like col.now prefix.now))) }
{
    col.write(writer)?;
    writer.mark(Mark::Like)?;
    writer.pattern(prefix)
}
