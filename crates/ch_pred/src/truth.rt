ghost use Rattle.std.specs.Prelude.{◌≡◌, ℕ, true, false};
ghost use Rattle.ch_cells.specs.declared.Cell.{Cell};
ghost use Rattle.ch_pred.specs.Values.{View};
ghost use Rattle.ch_pred.specs.Plain.{Plain};
ghost use Rattle.ch_pred.specs.Gate.{part_holds};
ghost use Rattle.ch_pred.specs.Part.{is_exact, part_of, weak_of};
ghost use Rattle.std.specs.List.{starts_with};
ghost use Rattle.ch_cells.specs.Cell.{cell_cmp};
ghost use Rattle.ch_cells.specs.CellRef.{cell_of};
ghost use Rattle.ch_pred.specs.Plain.{plain_of};
ghost use Rattle.ch_pred.specs.Holds.{holds_of, passes, arg_cell, literal_cell, is_between, is_within, is_like};
ghost use Rattle.ch_pred.specs.Names.{Names, NamesArg};

use crate::cells::Cells;
use crate::pred::{Arg, BoundPred, Cmp, Literal};
use ch_cells::{CellRef, cmp_lent};
use std::cmp::Ordering;

/// Whether the row, which has each column that the predicate names, passes it.
pub fn holds<R: Cells>(p: &BoundPred, row: &R) -> bool
    requires { Names (R.has row.now) (plain_of p.now) }
    ensures { result ≡ holds_of (R.cell_at row.now) (plain_of p.now) }
{
    match p {
        BoundPred::Truth => true,
        BoundPred::Compare(col, cmp, arg) => {
            let cell = row.cell(col.side, col.at);
            let other = arg_of(arg, row);
            does_pass(cmp_lent(cell, other), *cmp)
        }
        BoundPred::Between(col, low, high) => lies_between(row.cell(col.side, col.at), low, high),
        BoundPred::Within(col, literals) => is_among(row.cell(col.side, col.at), literals),
        BoundPred::Like(col, prefix) => begins_with(row.cell(col.side, col.at), prefix.as_slice()),
        BoundPred::And(members) => {
            for member in members {
                if !holds(member, row) {
                    return false;
                }
            }
            true
        }
        BoundPred::Or(members) => {
            for member in members {
                if holds(member, row) {
                    return true;
                }
            }
            false
        }
        BoundPred::Not(inner) => !holds(inner, row),
    }
}

/// The part of a side holds where the gate says so, and a predicate implies its parts and its weak filters. Where it names
/// columns of one side alone it is its part, and where no LIKE stands in it its weak filter too.
pub fn parts_follow()
    ensures gate { (row : View Cell) (p : Plain) (side : ℕ) → holds_of row (part_of p side) ≡ part_holds side false row p }
    ensures part { (row : View Cell) (p : Plain) (side : ℕ) → holds_of row p ≡ true → holds_of row (part_of p side) ≡ true }
    ensures weak { (row : View Cell) (p : Plain) (side : ℕ) → holds_of row p ≡ true → holds_of row (weak_of p side) ≡ true }
    ensures same_part { (row : View Cell) (p : Plain) (side : ℕ) → Names (λ s at. s ≡ side) p → holds_of row (part_of p side) ≡ holds_of row p }
    ensures same_weak { (row : View Cell) (p : Plain) (side : ℕ) → Names (λ s at. s ≡ side) p → is_exact p ≡ true → holds_of row (weak_of p side) ≡ holds_of row p }
{}

/// The cell that a column is compared with.
fn arg_of<'a, R: Cells>(arg: &'a Arg, row: &'a R) -> CellRef<'a>
    requires { NamesArg (R.has row.now) arg.now }
    ensures { cell_of result ≡ arg_cell (R.cell_at row.now) arg.now }
{
    match arg {
        Arg::Column(col) => row.cell(col.side, col.at),
        Arg::Value(literal) => lend_literal(literal),
    }
}

fn lend_literal(literal: &Literal) -> CellRef<'_>
    ensures { cell_of result ≡ literal_cell literal.now }
{
    match literal {
        Literal::Number(n) => CellRef::Number(*n),
        Literal::Text(text) => CellRef::Text(text.as_slice()),
    }
}

fn does_pass(order: Ordering, cmp: Cmp) -> bool
    ensures { result ≡ passes cmp order }
{
    match cmp {
        Cmp::Eq => order.is_eq(),
        Cmp::Ne => order.is_ne(),
        Cmp::Lt => order.is_lt(),
        Cmp::Le => order.is_le(),
        Cmp::Gt => order.is_gt(),
        Cmp::Ge => order.is_ge(),
    }
}

fn lies_between(cell: CellRef<'_>, low: &Literal, high: &Literal) -> bool
    ensures { result ≡ is_between (cell_of cell.entry) low.now high.now }
{
    cmp_lent(cell, lend_literal(low)).is_ge() && cmp_lent(cell, lend_literal(high)).is_le()
}

fn is_among(cell: CellRef<'_>, literals: &[Literal]) -> bool
    ensures { result ≡ is_within (cell_of cell.entry) literals.now }
{
    for literal in literals {
        if cmp_lent(cell, lend_literal(literal)).is_eq() {
            return true;
        }
    }
    false
}

fn begins_with(cell: CellRef<'_>, prefix: &[u8]) -> bool
    ensures { result ≡ is_like (cell_of cell.entry) prefix.now }
{
    match cell {
        CellRef::Number(_) => false,
        CellRef::Text(text) => text.starts_with(prefix),
    }
}
