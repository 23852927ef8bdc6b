ghost use Rattle.std.specs.Prelude.{◌≡◌, ◌++◌, ◌*◌, IfOk, OnOk};
ghost use Rattle.ch_generated.specs.Draws.{after};
ghost use Rattle.ch_generated.specs.TableText as spec;
ghost use Rattle.ch_generated.specs.TableText.{row_line, t_fields, t_part_text};

use crate::draws::draw;
use crate::text::push_number;
use ch_cells::{Bytes, Memory};
use rand_pcg::Lcg64Xsh32;
use std::alloc::Global;

/// A row of table `t`.
#[derive(Clone, Copy)]
pub struct TableRow {
    pub k: u32,
    pub v: u32,
    pub b: u32,
}

/// The rows of table `u`.
const U_ROWS: u32 = 100;

fn t_row(generator: &mut Lcg64Xsh32) -> TableRow
    ensures row { result ≡ spec.t_row generator.old }
    ensures after { generator.new ≡ after 3 generator.old }
{
    let k = draw(generator, 1000);
    let v = draw(generator, 1_000_000);
    let b = draw(generator, 1_000_000);
    TableRow { k, v, b }
}

#[tactic(auto, using(crate::proofs::DrawLemmas::t_rows_more, crate::proofs::DrawLemmas::after_row, crate::proofs::DrawLemmas::after_none))]
pub(crate) fn t_rows(
    alloc: Global,
    generator: &mut Lcg64Xsh32,
    rows: u32,
) -> Result<Vec<TableRow>, Memory>
    ensures drawn { IfOk result (λ drawn. drawn.items ≡ spec.t_rows rows generator.old) }
    ensures after { OnOk result (generator.new ≡ after (3 * rows) generator.old) }
{
    let mut drawn = Vec::new(alloc);
    for _row in 0..rows {
        drawn.push(t_row(generator))?;
    }
    Ok(drawn)
}

fn push_t_row(text: &mut Vec<u8>, row: &TableRow) -> Result<(), Memory>
    ensures { OnOk result (text.new.items ≡ text.old.items ++ row_line (t_fields row.now)) }
{
    push_number(text, row.k, b',')?;
    push_number(text, row.v, b',')?;
    push_number(text, row.b, b'\n')
}

/// The text of one of the four parts of table `t`.
pub(crate) fn t_part_text(alloc: Global, rows: &[TableRow], part: usize) -> Result<Bytes, Memory>
    ensures { IfOk result (λ text. text ≡ t_part_text part rows.now) }
{
    let mut text = Vec::from_slice(alloc, b"k,v,b\n")?;
    for (place, row) in rows.iter().enumerate() {
        if place % 4 == part {
            push_t_row(&mut text, row)?;
        }
    }
    Ok(Bytes::from_vec(text))
}

#[tactic(auto, using(crate::proofs::DrawLemmas::after_after), unfolding(crate::specs::TableText::u_row))]
fn push_u_row(text: &mut Vec<u8>, generator: &mut Lcg64Xsh32) -> Result<(), Memory>
    ensures line { OnOk result (text.new.items ≡ text.old.items ++ row_line (spec.u_row generator.old)) }
    ensures after { generator.new ≡ after 2 generator.old }
{
    let k = draw(generator, 1000);
    let y = draw(generator, 1_000_000);
    push_number(text, k, b',')?;
    push_number(text, y, b'\n')
}

/// The text of table `u`.
pub(crate) fn u_text(alloc: Global, generator: &mut Lcg64Xsh32) -> Result<Bytes, Memory>
    ensures text { IfOk result (λ text. text ≡ spec.u_text generator.old) }
    ensures after { OnOk result (generator.new ≡ after (2 * 100) generator.old) }
{
    let mut text = Vec::from_slice(alloc, b"k,y\n")?;
    for _row in 0..U_ROWS {
        push_u_row(&mut text, generator)?;
    }
    Ok(Bytes::from_vec(text))
}
