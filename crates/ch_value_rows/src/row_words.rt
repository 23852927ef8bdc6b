//! Rows of a table as words, and their bits.
ghost use Rattle.std.specs.Prelude.{◌≡◌, All, bytes_eq, codes, true, IfOk};
ghost use Rattle.std.specs.List.{list_any};
ghost use Rattle.ch_pred.specs.Plain.{Like, plain_of};
ghost use Rattle.ch_tables.specs.Texts.{texts_of};

use crate::reading::table_of;
use ch_cells::{Bytes, Memory};
use ch_pred::{BoundPred, Col, weak};
use ch_ranks::{Ranks, RanksBuilder};
use ch_table_words::{add_texts, own_part, push_words, row_bit, text_ranks};
use ch_tables::Table;
use std::alloc::Global;

/// The dictionary of a table's texts.
fn dictionary(alloc: Global, table: &Table) -> Result<Ranks, Memory>
    ensures { IfOk result (λ ranks. All (λ text. list_any (bytes_eq text) ranks ≡ true) (texts_of table.now)) }
{
    let _few = table.texts();
    let mut builder = RanksBuilder::new(alloc);
    add_texts(&mut builder, table)?;
    let ranks = builder.finish()?;
    Ok(ranks)
}

/// The words of the last of three rows.
fn last_words(alloc: Global, table: &Table) -> Result<Vec<i64>, Memory> {
    let ranks = dictionary(alloc, table)?;
    let places = text_ranks(alloc, table, &ranks)?;
    let mut words = Vec::new(alloc);
    if table.parts() == 1 && table.rows(0) == 3 && table.header().len() == 2 {
        push_words(&mut words, table, places.as_slice(), &ranks, &[0, 1], 0, 2)?;
    }
    Ok(words)
}

pub(crate) fn last(alloc: Global, said: &str) -> anyhow::Result<String> {
    let table = table_of(alloc, said)?;
    let words = last_words(alloc, &table)?;
    let line = format!(in alloc; "{:?}\n", words.as_slice())?;
    Ok(line)
}

/// `b LIKE 'x%'`
fn begins_with_x(alloc: Global) -> Result<BoundPred, Memory>
    ensures { IfOk result (λ p. plain_of p ≡ Like (record { side = 0; at = 1 }) (codes "x")) }
{
    let prefix = Bytes::from_slice(alloc, b"x")?;
    Ok(BoundPred::Like(Col { side: 0, at: 1 }, prefix))
}

/// The bits of a table's two rows by that filter, if it has two columns.
fn bits_of(table: &Table, own: &BoundPred) -> Option<(bool, bool)>
    requires { plain_of own.now ≡ Like (record { side = 0; at = 1 }) (codes "x") }
{
    if table.parts() == 1 && table.rows(0) == 2 && table.header().len() == 2 {
        Some((row_bit(own, table, 0, 0, 0), row_bit(own, table, 0, 0, 1)))
    } else {
        None
    }
}

/// The bits of two rows by the part that is told by the first table.
fn own_bits(alloc: Global, table: &Table) -> Result<Option<(bool, bool)>, Memory> {
    let filter = begins_with_x(alloc)?;
    let own = own_part(alloc, &filter, 0);
    drop(filter);
    Ok(bits_of(table, &own?))
}

fn weak_passes_all(alloc: Global) -> Result<bool, Memory> {
    let filter = begins_with_x(alloc)?;
    let weakened = weak(alloc, &filter, 0);
    drop(filter);
    Ok(weakened? == BoundPred::Truth)
}

pub(crate) fn bits(alloc: Global, said: &str) -> anyhow::Result<String> {
    let table = table_of(alloc, said)?;
    let bits = own_bits(alloc, &table)?;
    let all = weak_passes_all(alloc)?;
    let line = format!(in alloc; "{bits:?}, weak {all}\n")?;
    Ok(line)
}
