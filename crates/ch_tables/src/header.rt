ghost use Rattle.std.specs.Prelude.{◌≡◌, ◌<◌, ◌^◌, length, IfOk, bytes_eq};
ghost use Rattle.std.specs.Cmp.Lexicographic.{pointwise};
ghost use Rattle.csv.specs.Records.{fields_of};
ghost use Rattle.ch_tables.specs.Refusal.{repeated};

use crate::field::field;
use crate::texts::Texts;
use ch_cells::{Bytes, Header, Listed, Memory};
use csv::ByteRecord;
use std::alloc::Global;

/// The first name that stands earlier.
pub(crate) fn first_repeat(alloc: Global, fields: &ByteRecord) -> Result<Option<u32>, Memory>
    requires { length (fields_of fields.now) < 2 ^ 32 }
    ensures { IfOk result (λ at. at ≡ repeated (fields_of fields.now)) }
{
    let mut names = Texts::new(alloc);
    for at in 0..fields.len() {
        names.place(alloc, field(fields, at))?;
        if names.len() == at {
            return Ok(Some(at as u32));
        }
    }
    Ok(None)
}

/// The names of a header.
pub(crate) fn copy_header(alloc: Global, fields: &ByteRecord) -> Result<Header, Memory>
    ensures { IfOk result (λ header. header ≡ fields_of fields.now) }
{
    let mut header = Listed::new(alloc);
    for at in 0..fields.len() {
        header.push(Bytes::from_slice(alloc, field(fields, at))?)?;
    }
    Ok(header)
}

/// Whether the names of a header are these.
pub(crate) fn has_names(fields: &ByteRecord, names: &[Bytes]) -> bool
    ensures { result ≡ pointwise bytes_eq (fields_of fields.now) names.now }
{
    if fields.len() != names.len() {
        return false;
    }
    for at in 0..fields.len() {
        if field(fields, at) != names[at].as_slice() {
            return false;
        }
    }
    true
}
