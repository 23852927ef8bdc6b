ghost use Rattle.std.specs.Prelude.{◌≡◌, ◌<◌, ◌^◌, ◌+◌, ◌++◌, ◌∷◌, [], bytes_eq, None, false, length, IfOk, IfSome, OnOk, slice_index_or};
ghost use Rattle.std.specs.List.{list_any};
ghost use Rattle.ch_tables.specs.Refusal.{repeated};
ghost use Rattle.ch_bind.specs.First.{first};

use ch_cells::{Header, Memory};
use indexmap::IndexSet;
use std::alloc::Global;
use std::marker::Model;

/// The names of a table's columns, none of which stands there twice.
#[derive(Drop)]
pub(crate) struct Names {
    names: IndexSet<Vec<u8>>,
}

impl Model for Names {
    ghost use Rattle.std.specs.Prelude.{List, ℕ, length, map, ◌<◌, ◌^◌};

    ghost Value = { List (List ℕ) };

    ghost view = { λ n. map (λ v. v.items) n.names.keys };

    ghost invariant = { λ n. length n.names.keys < 2 ^ 32 };
}

impl Names {
    pub(crate) fn new(alloc: Global) -> Names
        ensures { result ≡ [] }
    {
        Names {
            names: IndexSet::new(alloc),
        }
    }

    /// How many there are.
    pub(crate) fn len(&self) -> u32
        ensures { result ≡ length self.now }
    {
        self.names.len() as u32
    }

    /// Adds a name that isn't there.
    fn add(&mut self, name: &[u8]) -> Result<(), Memory>
        requires room { length self.old + 1 < 2 ^ 32 }
        requires other { list_any (bytes_eq name.now) self.old ≡ false }
        ensures { OnOk result (self.new ≡ self.old ++ name.now ∷ []) }
    {
        let own = Vec::from_slice(*self.names.allocator(), name)?;
        self.names.insert(own)?;
        Ok(())
    }

    /// The place of a name.
    pub(crate) fn place(&self, name: &[u8]) -> Option<u32>
        ensures place { result ≡ first (bytes_eq name.now) self.now }
        ensures within { IfSome result (λ at. at < length self.now) }
    {
        match self.names.get_index_of(name) {
            Some(at) => Some(at as u32),
            None => None,
        }
    }

    /// The name at a place; none is empty.
    pub(crate) fn name(&self, at: u32) -> &[u8]
        requires { at < length self.now }
        ensures { result.now ≡ slice_index_or self.now at [] }
    {
        match self.names.get_index(at as usize) {
            Some(name) => name.as_slice(),
            None => b"",
        }
    }
}

/// The names of a header.
pub(crate) fn names_of(alloc: Global, header: &Header) -> Result<Names, Memory>
    requires different { repeated header.now ≡ None }
    requires few { length header.now < 2 ^ 32 }
    ensures { IfOk result (λ names. names ≡ header.now) }
{
    let mut names = Names::new(alloc);
    for name in header.as_slice() {
        names.add(name.as_slice())?;
    }
    Ok(names)
}
