ghost use Rattle.std.specs.Prelude.{◌≡◌, ◌<◌, ◌-◌, ◌^◌, length, IfOk};
ghost use Rattle.csv.specs.Records.{fields_of};
ghost use Rattle.ch_tables.specs.Reading.{AreShort, IsReading, Takes, records_left};
ghost use Rattle.ch_tables.specs.Records.{records_of};

use ch_cells::Memory;
use csv::{ByteRecord, Reader, ReaderBuilder};
use std::alloc::Global;

/// A reader of a part's records, the header among them.
pub(crate) fn open_part<'a>(alloc: Global, text: &'a [u8]) -> Reader<&'a [u8]>
    requires { length text.now < 2 ^ 32 - 1 }
    ensures reading { IsReading result }
    ensures all { records_left result ≡ records_of text.entry.now }
    ensures short { AreShort (records_left result) }
{
    ReaderBuilder::new()
        .has_headers(false)
        .flexible(true)
        .from_reader(alloc, text)
}

/// Reads the next record, if there is one.
pub(crate) fn next_record<'a>(
    reader: &mut Reader<&'a [u8]>,
    fields: &mut ByteRecord,
) -> Result<bool, Memory>
    requires { IsReading reader.old }
    ensures { IfOk result (λ found. Takes (records_left reader.old) found (fields_of fields.new) reader.new) }
{
    if let Ok(found) = reader.read_byte_record(fields) {
        return Ok(found);
    }
    Err(Memory)
}
