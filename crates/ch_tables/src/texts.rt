ghost use Rattle.std.specs.Prelude.{◌≡◌, ◌<◌, [], length, IfOk, OnOk, slice_get, slice_index_or, Some};
ghost use Rattle.ch_tables.specs.Texts.{with_text};

use ch_cells::Memory;
use indexmap::IndexSet;
use std::alloc::Global;
use std::marker::Model;

/// Different texts, each with its place.
#[derive(Drop)]
pub(crate) struct Texts {
    set: IndexSet<Vec<u8>>,
}

impl Model for Texts {
    ghost use Rattle.std.specs.Prelude.{List, ℕ, map};

    ghost Value = { List (List ℕ) };

    ghost view = { λ t. map (λ v. v.items) t.set.keys };
}

impl Texts {
    pub(crate) fn new(alloc: Global) -> Texts
        ensures { result ≡ [] }
    {
        Texts {
            set: IndexSet::new(alloc),
        }
    }

    pub(crate) fn len(&self) -> usize
        ensures { result ≡ length self.now }
    {
        self.set.len()
    }

    /// The place of a text, which is added if it isn't there.
    pub(crate) fn place(&mut self, alloc: Global, text: &[u8]) -> Result<usize, Memory>
        ensures added { OnOk result (self.new ≡ with_text self.old text.now) }
        ensures at { IfOk result (λ at. slice_get self.new at ≡ Some text.now) }
    {
        match self.set.get_index_of(text) {
            Some(at) => Ok(at),
            None => {
                let at = self.set.len();
                self.set.insert(Vec::from_slice(alloc, text)?)?;
                Ok(at)
            }
        }
    }

    /// The text at a place.
    pub(crate) fn get(&self, at: usize) -> &[u8]
        requires { at < length self.now }
        ensures { result.now ≡ slice_index_or self.now at [] }
    {
        self.set.get_index(at).unwrap().as_slice()
    }
}
