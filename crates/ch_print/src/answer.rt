ghost use Rattle.std.specs.Prelude.{◌≡◌, IfOk, OnOk, List, ℕ, ◌++◌, ◌∷◌, [], map};
ghost use Rattle.csv.specs.Writing.{default_writer, row_text};
ghost use Rattle.ch_cells.specs.CellRef.{cell_of};
ghost use Rattle.ch_print.specs.AnswerText.{cell_text, text_of};
ghost use Rattle.ch_print.specs.Written.{HasWritten};

use ch_cells::{Answer, Bytes, CellRef, Header, Memory, Row, lend_cell};
use csv::{ByteRecord, Writer, WriterBuilder};
use itoa::Buffer;
use std::alloc::Global;

/// The text of an answer as CSV, written cell by cell: no row of it is kept. A call that fails leaves nothing to go on with.
#[derive(Drop)]
pub struct AnswerText {
    writer: Writer<Vec<u8>>,
    /// The cells of the next line.
    line: ByteRecord,
}

impl AnswerText {
    /// The header's line.
    pub fn new(alloc: Global, header: &Header) -> Result<AnswerText, Memory>
        ensures { IfOk result (λ text. HasWritten text (row_text default_writer header.now) []) }
    {
        let mut text = AnswerText {
            writer: WriterBuilder::new().from_writer(Vec::new(alloc)),
            line: ByteRecord::new(alloc),
        };
        for name in header.as_slice() {
            text.line.push_field(name.as_slice())?;
        }
        text.end_row()?;
        Ok(text)
    }

    /// Adds a cell to the next line.
    pub fn push(&mut self, cell: CellRef<'_>) -> Result<(), Memory>
        ensures { (text : List ℕ) (line : List (List ℕ)) → HasWritten self.old text line → OnOk result (HasWritten self.new text (line ++ cell_text (cell_of cell.entry) ∷ [])) }
    {
        match cell {
            CellRef::Number(n) => {
                let mut digits = Buffer::new();
                self.line.push_field(digits.format(n).as_bytes())?;
            }
            CellRef::Text(text) => self.line.push_field(text)?,
        }
        Ok(())
    }

    /// Ends the line. One whose length isn't the header's can't be written, and the call then answers `Memory`.
    pub fn end_row(&mut self) -> Result<(), Memory>
        ensures { (text : List ℕ) (line : List (List ℕ)) → HasWritten self.old text line → OnOk result (HasWritten self.new (text ++ row_text default_writer line) []) }
    {
        match self.writer.write_byte_record(&self.line) {
            Ok(()) => {}
            Err(_) => return Err(Memory),
        }
        self.line.clear();
        Ok(())
    }

    /// What was written up to the end of the last line.
    pub fn into_text(self) -> Result<Bytes, Memory>
        ensures { (text : List ℕ) (line : List (List ℕ)) → HasWritten self text line → IfOk result (λ bytes. bytes ≡ text) }
    {
        let AnswerText { writer, line } = self;
        drop(line);
        match writer.into_inner() {
            Ok(text) => Ok(Bytes::from_vec(text)),
            Err(_) => Err(Memory),
        }
    }
}

/// The answer as CSV: a line for the header and one for each row, in their order. A row whose length isn't the header's
/// can't be written, and the call then answers `Memory`.
pub fn answer_text(alloc: Global, answer: &Answer) -> Result<Bytes, Memory>
    ensures { IfOk result (λ text. text ≡ text_of answer.now) }
{
    let mut text = AnswerText::new(alloc, &answer.header)?;
    for row in answer.rows.as_slice() {
        push_row(&mut text, row)?;
    }
    text.into_text()
}

fn push_row(text: &mut AnswerText, row: &Row) -> Result<(), Memory>
    ensures { (written : List ℕ) → HasWritten text.old written [] → OnOk result (HasWritten text.new (written ++ row_text default_writer (map cell_text row.now)) []) }
{
    for cell in row.as_slice() {
        text.push(lend_cell(cell))?;
    }
    text.end_row()
}
