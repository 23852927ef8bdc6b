ghost use Rattle.std.specs.Prelude.{◌≡◌, ◌≢◌, ◌<◌, ◌≤◌, ◌+◌, ◌-◌, ◌^◌, [], ◌∷◌, All, slice_index_or, length, map, vec_len, IfOk, OnOk, MatchResult, None, Some};
ghost use Rattle.csv.specs.Records.{fields_of};
ghost use Rattle.ch_tables.specs.Draft.{AddsPart, AddsRows, IsDraftOf, IsWithin, with_row};
ghost use Rattle.ch_tables.specs.Reading.{AreShort, IsReading, records_left};
ghost use Rattle.ch_tables.specs.Records.{records_of};
ghost use Rattle.ch_tables.specs.Refusal.{body_of, first_refusal, header_of, part_refusal, refusal, rows_refusal};
ghost use Rattle.ch_tables.specs.declared.error.Room.{Room};

use crate::error::{Room, TableError};
use crate::field::field;
use crate::header::{copy_header, first_repeat, has_names};
use crate::records::{next_record, open_part};
use crate::text_column::TextColumn;
use ch_cells::{Bytes, Header, Memory};
use csv::{ByteRecord, Reader};
use std::alloc::Global;

/// The rows of a part: from the row `from` of the table on, up to the row `to`.
#[derive(Clone, Copy)]
pub(crate) struct Span {
    pub from: u32,
    pub to: u32,
}

/// A table that is read, with its cells still as texts.
#[derive(Drop)]
pub(crate) struct Draft {
    pub header: Header,
    /// A column for each name of the header.
    pub columns: Vec<TextColumn>,
    /// The parts that are read.
    pub spans: Vec<Span>,
    /// How many rows and cells are read.
    pub rows: u32,
    pub cells: u32,
}

/// Adds the fields of a row to the columns.
fn push_row(columns: &mut Vec<TextColumn>, fields: &ByteRecord) -> Result<(), Memory>
    requires { length (fields_of fields.now) ≡ vec_len columns.old }
    ensures { OnOk result (columns.new.items ≡ with_row columns.old.items (fields_of fields.now)) }
{
    for at in 0..columns.len() {
        columns[at].push(field(fields, at))?;
    }
    Ok(())
}

/// Reads the rows of a part, after its header, into the draft. `fields` is a buffer.
fn read_rows<'a>(
    draft: &mut Draft,
    reader: &mut Reader<&'a [u8]>,
    fields: &mut ByteRecord,
    part: u32,
    room: Room,
) -> Result<(), TableError>
    requires reading { IsReading reader.old }
    requires short { AreShort (records_left reader.old) }
    requires within { IsWithin room draft.old }
    ensures { MatchResult result
        (λ _. (rows_refusal room part (length draft.old.header) 0 draft.old.rows draft.old.cells (records_left reader.old) ≡ None)
        × AddsRows draft.old draft.new (records_left reader.old) × IsWithin room draft.new)
        (λ e. e ≢ TableError.Memory → rows_refusal room part (length draft.old.header) 0 draft.old.rows draft.old.cells (records_left reader.old) ≡ Some e) }
{
    let want = draft.header.len() as u32;
    let mut row: u32 = 0;
    while next_record(reader, fields)? {
        let have = fields.len() as u32;
        if have != want {
            return Err(TableError::Ragged {
                part,
                row,
                have,
                want,
            });
        }
        if draft.rows >= room.rows {
            return Err(TableError::TooManyRows { part, row });
        }
        if want > room.cells - draft.cells {
            return Err(TableError::TooManyCells { part, row });
        }
        push_row(&mut draft.columns, fields)?;
        draft.rows += 1;
        draft.cells += want;
        row += 1;
    }
    Ok(())
}

/// Reads a part after its header. `fields` is a buffer.
fn read_body<'a>(
    draft: &mut Draft,
    reader: &mut Reader<&'a [u8]>,
    fields: &mut ByteRecord,
    part: u32,
    room: Room,
) -> Result<(), TableError>
    requires reading { IsReading reader.old }
    requires short { AreShort (records_left reader.old) }
    requires within { IsWithin room draft.old }
    ensures { MatchResult result
        (λ _. (rows_refusal room part (length draft.old.header) 0 draft.old.rows draft.old.cells (records_left reader.old) ≡ None)
        × AddsPart draft.old draft.new (records_left reader.old) × IsWithin room draft.new)
        (λ e. e ≢ TableError.Memory → rows_refusal room part (length draft.old.header) 0 draft.old.rows draft.old.cells (records_left reader.old) ≡ Some e) }
{
    let from = draft.rows;
    read_rows(draft, reader, fields, part, room)?;
    draft.spans.push(Span {
        from,
        to: draft.rows,
    })?;
    Ok(())
}

/// A draft without rows.
fn new_draft(alloc: Global, fields: &ByteRecord) -> Result<Draft, Memory>
    requires { length (fields_of fields.now) < 2 ^ 32 }
    ensures empty { IfOk result (λ draft. IsDraftOf draft (fields_of fields.now) []) }
    ensures within { IfOk result (λ draft. (room : Room) → IsWithin room draft) }
{
    let header = copy_header(alloc, fields)?;
    let mut columns = Vec::new(alloc);
    for _name in header.as_slice() {
        columns.push(TextColumn::new(alloc))?;
    }
    Ok(Draft {
        header,
        columns,
        spans: Vec::new(alloc),
        rows: 0,
        cells: 0,
    })
}

/// Reads part 0. Its header names the columns.
fn read_first(alloc: Global, text: &[u8], room: Room) -> Result<Draft, TableError>
    requires { length text.now < 2 ^ 32 - 1 }
    ensures { MatchResult result
        (λ draft. (first_refusal room (records_of text.now) ≡ None)
        × IsDraftOf draft (header_of (records_of text.now)) (body_of (records_of text.now) ∷ []) × IsWithin room draft)
        (λ e. e ≢ TableError.Memory → first_refusal room (records_of text.now) ≡ Some e) }
{
    let mut reader = open_part(alloc, text);
    let mut fields = ByteRecord::new(alloc);
    if !next_record(&mut reader, &mut fields)? {
        return Err(TableError::NoHeader { part: 0 });
    }
    if let Some(at) = first_repeat(alloc, &fields)? {
        return Err(TableError::DuplicateColumn { at });
    }
    let mut draft = new_draft(alloc, &fields)?;
    read_body(&mut draft, &mut reader, &mut fields, 0, room)?;
    Ok(draft)
}

/// Reads a later part. Its header must be the table's.
fn read_later(
    alloc: Global,
    draft: &mut Draft,
    text: &[u8],
    part: u32,
    room: Room,
) -> Result<(), TableError>
    requires short { length text.now < 2 ^ 32 - 1 }
    requires within { IsWithin room draft.old }
    ensures { MatchResult result
        (λ _. (part_refusal room draft.old.header part draft.old.rows draft.old.cells (records_of text.now) ≡ None)
        × AddsPart draft.old draft.new (body_of (records_of text.now)) × IsWithin room draft.new)
        (λ e. e ≢ TableError.Memory → part_refusal room draft.old.header part draft.old.rows draft.old.cells (records_of text.now) ≡ Some e) }
{
    let mut reader = open_part(alloc, text);
    let mut fields = ByteRecord::new(alloc);
    if !next_record(&mut reader, &mut fields)? {
        return Err(TableError::NoHeader { part });
    }
    if !has_names(&fields, draft.header.as_slice()) {
        return Err(TableError::HeaderDiffers { part });
    }
    read_body(draft, &mut reader, &mut fields, part, room)
}

/// Reads all parts of a table, or up to the first refusal.
pub(crate) fn read_parts(alloc: Global, parts: &[Bytes], room: Room) -> Result<Draft, TableError>
    requires some { 0 < length parts.now }
    requires few { length parts.now < 2 ^ 32 - 1 }
    requires short { All (λ text. length text < 2 ^ 32 - 1) parts.now }
    ensures { let records = map records_of parts.now in MatchResult result
        (λ draft. (refusal room records ≡ None)
        × IsDraftOf draft (header_of (records_of (slice_index_or parts.now 0 []))) (map body_of records) × IsWithin room draft)
        (λ e. e ≢ TableError.Memory → refusal room records ≡ Some e) }
{
    let mut draft = read_first(alloc, parts[0].as_slice(), room)?;
    for part in 1..parts.len() {
        read_later(alloc, &mut draft, parts[part].as_slice(), part as u32, room)?;
    }
    Ok(draft)
}
