ghost use Rattle.std.specs.Prelude.{◌≡◌, ◌<◌, length, slice_index_or, []};
ghost use Rattle.csv.specs.Records.{fields_of};

use csv::ByteRecord;

/// The field at a place.
pub(crate) fn field(fields: &ByteRecord, at: usize) -> &[u8]
    requires { at < length (fields_of fields.now) }
    ensures { result.now ≡ slice_index_or (fields_of fields.now) at [] }
{
    fields.get(at).unwrap()
}
