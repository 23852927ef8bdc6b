ghost use Rattle.std.specs.Prelude.{◌≡◌, ◌<◌, ◌++◌, ◌∷◌, [], length, slice_index_or, OnOk};

use crate::field::field;
use ch_cells::Memory;
use csv::ByteRecord;
use std::alloc::Global;
use std::marker::Model;

/// The texts of a column as they are read: one after another, without an allocation for each.
#[derive(Drop)]
pub(crate) struct TextColumn {
    fields: ByteRecord,
}

impl Model for TextColumn {
    ghost use Rattle.std.specs.Prelude.{List, ℕ, ◌≡◌, []};
    ghost use Rattle.csv.specs.Records.{fields_of, partial_of};

    ghost Value = { List (List ℕ) };

    ghost view = { λ c. fields_of c.fields };

    ghost invariant = { λ c. partial_of c.fields ≡ [] };
}

impl TextColumn {
    pub(crate) fn new(alloc: Global) -> TextColumn
        ensures { result ≡ [] }
    {
        TextColumn {
            fields: ByteRecord::new(alloc),
        }
    }

    pub(crate) fn len(&self) -> usize
        ensures { result ≡ length self.now }
    {
        self.fields.len()
    }

    pub(crate) fn get(&self, at: usize) -> &[u8]
        requires { at < length self.now }
        ensures { result.now ≡ slice_index_or self.now at [] }
    {
        field(&self.fields, at)
    }

    /// A column that ran out of memory is empty.
    pub(crate) fn push(&mut self, text: &[u8]) -> Result<(), Memory>
        ensures { OnOk result (self.new ≡ self.old ++ text.now ∷ []) }
    {
        match self.fields.push_field(text) {
            Ok(()) => Ok(()),
            Err(_) => {
                self.fields.clear();
                Err(Memory)
            }
        }
    }
}
