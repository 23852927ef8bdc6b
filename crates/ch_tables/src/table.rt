ghost use Rattle.std.specs.Prelude.{◌≡◌, ◌<◌, ◌^◌, ℕ, List, length, slice_get, slice_index_or, [], Some, None, pos, IfOk, bytes_eq};
ghost use Rattle.std.specs.List.{IsDistinct};
ghost use Rattle.ch_cells.specs.CellRef.{cell_of};
ghost use Rattle.ch_cells.specs.declared.cell.Cell.TheVariants as cell;
ghost use Rattle.ch_tables.specs.Draft.{IsDraftOf, all_rows};
ghost use Rattle.ch_tables.specs.Refusal.{repeated};
ghost use Rattle.ch_tables.specs.Table.{IsOfKind, kinds_of, table_with};
ghost use Rattle.ch_tables.specs.Texts.{IsWordOf, cell_at, texts_of};
ghost use Rattle.ch_tables.specs.Whole.{AreWide, IsWhole};

use crate::column::{Column, all_words, word_in};
use crate::draft::{Draft, Span};
use crate::texts::Texts;
use ch_cells::{Bytes, CellRef, Header, Kind, Memory};
use std::alloc::Global;
use std::marker::Model;

/// A table. Parts, rows and columns are counted from 0, the rows of each part anew.
#[derive(Drop)]
pub struct Table {
    name: Bytes,
    header: Header,
    spans: Vec<Span>,
    columns: Vec<Column>,
    texts: Texts,
    rows: u32,
}

impl Model for Table {
    ghost use Rattle.ch_tables.specs.TableValue.{TableValue};

    ghost Value = { TableValue };

    ghost use Rattle.ch_tables.specs.Columns.{IsTable, value_of};

    ghost view = { value_of };

    ghost invariant = { IsTable };
}

impl Table {
    pub fn name(&self) -> &[u8]
        ensures { result.now ≡ self.now.name }
    {
        self.name.as_slice()
    }

    /// The names of the columns.
    pub fn header(&self) -> &Header
        ensures value { result.now ≡ self.now.header }
        ensures different { repeated self.now.header ≡ None }
        ensures few { length self.now.header < 2 ^ 32 }
        ensures kinds { length self.now.kinds ≡ length self.now.header }
    {
        &self.header
    }

    /// The kind of a column.
    pub fn kind(&self, col: u32) -> Kind
        requires { col < length self.now.header }
        ensures { slice_get self.now.kinds col ≡ Some result }
    {
        match &self.columns[col as usize] {
            Column::Numbers(numbers) if numbers.is_empty() => Kind::Void,
            Column::Numbers(_) => Kind::Number,
            Column::Places(_) => Kind::Text,
        }
    }

    /// How many parts there are.
    pub fn parts(&self) -> u32
        ensures { result ≡ length self.now.parts }
    {
        self.spans.len() as u32
    }

    /// How many rows a part has.
    pub fn rows(&self, part: u32) -> u32
        requires { part < length self.now.parts }
        ensures { result ≡ length (slice_index_or self.now.parts part []) }
    {
        let span = self.spans[part as usize];
        span.to - span.from
    }

    pub fn cell(&self, part: u32, row: u32, col: u32) -> CellRef<'_>
        requires part { part < length self.now.parts }
        requires row { row < length (slice_index_or self.now.parts part []) }
        requires col { col < length self.now.header }
        ensures value { slice_get (slice_index_or (slice_index_or self.now.parts part []) row []) col ≡ Some (cell_of result) }
        ensures kind { IsOfKind (slice_index_or self.now.kinds col Kind.Void) (cell_of result) }
    {
        let at = self.spans[part as usize].from as usize + row as usize;
        match &self.columns[col as usize] {
            Column::Numbers(numbers) => lend_number(numbers.as_slice(), at),
            Column::Places(places) => CellRef::Text(self.texts.get(places[at] as usize)),
        }
    }

    /// How many different texts the cells have.
    pub fn texts(&self) -> u32
        ensures count { result ≡ length (texts_of self.now) }
        ensures different { IsDistinct bytes_eq (texts_of self.now) }
    {
        self.texts.len() as u32
    }

    /// The text at a place.
    pub fn text(&self, at: u32) -> &[u8]
        requires { at < length (texts_of self.now) }
        ensures { slice_get (texts_of self.now) at ≡ Some result.now }
    {
        self.texts.get(at as usize)
    }

    /// The word of a cell: in a column of numbers the number, in a column of texts the place of the text.
    pub fn word(&self, part: u32, row: u32, col: u32) -> i64
        requires part { part < length self.now.parts }
        requires row { row < length (slice_index_or self.now.parts part []) }
        requires col { col < length self.now.header }
        ensures { IsWordOf (texts_of self.now) (cell_at self.now part row col) result }
    {
        let at = self.spans[part as usize].from as usize + row as usize;
        word_in(&self.columns[col as usize], at)
    }
}

/// The number at a place, as a cell.
fn lend_number<'a>(numbers: &[i64], at: usize) -> CellRef<'a>
    requires { at < length numbers.now }
    ensures { cell_of result ≡ cell.Number (slice_index_or numbers.now at (pos 0)) }
{
    CellRef::Number(numbers[at])
}

/// The table of a draft whose parts are read.
pub(crate) fn table_of_draft(alloc: Global, name: &[u8], draft: Draft) -> Result<Table, Memory>
    requires whole { IsWhole draft }
    ensures { IfOk result (λ table. (header : List (List ℕ)) (bodies : List (List (List (List ℕ)))) → IsDraftOf draft header bodies → AreWide (length header) (all_rows bodies)
        → table ≡ table_with name.now header (kinds_of (length header) (all_rows bodies)) bodies) }
{
    let mut texts = Texts::new(alloc);
    let columns = all_words(alloc, draft.columns.as_slice(), &mut texts)?;
    Ok(Table {
        name: Bytes::from_slice(alloc, name)?,
        header: draft.header,
        spans: draft.spans,
        columns,
        texts,
        rows: draft.rows,
    })
}
