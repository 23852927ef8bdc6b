ghost use Rattle.std.specs.Prelude.{◌≡◌, ◌↔◌, ◌<◌, ◌^◌, ℕ, List, Some, bytes_eq, length, map, option_map, slice_get, IfOk};
ghost use Rattle.std.specs.List.{list_any};
ghost use Rattle.std.specs.Ordering.{nat_cmp};
ghost use Rattle.ch_lists.specs.Ordered.{ordered};
ghost use Rattle.ch_ranks.specs.Dictionary.{Ascends, rank_of, text_cmp};

use ch_cells::Memory;
use indexmap::IndexSet;
use std::marker::Model;

/// Different texts in their order: the rank of a text is the number of smaller ones.
#[derive(Drop)]
pub struct Ranks {
    texts: IndexSet<Vec<u8>>,
}

impl Model for Ranks {
    ghost use Rattle.std.specs.Prelude.{List, ℕ, length, map, ◌<◌, ◌^◌};
    ghost use Rattle.ch_ranks.specs.Dictionary.{Ascends};

    ghost Value = { List (List ℕ) };

    ghost view = { λ r. map (λ v. v.items) r.texts.keys };

    ghost invariant = { λ r. Ascends (map (λ v. v.items) r.texts.keys) × (length r.texts.keys < 2 ^ 32) };
}

/// The texts in their order.
pub(crate) fn sorted(texts: IndexSet<Vec<u8>>) -> Result<Ranks, Memory>
    requires { length texts.keys < 2 ^ 32 }
    ensures sorted { IfOk result (λ ranks. ranks ≡ ordered text_cmp (map (λ v. v.items) texts.keys)) }
    ensures ascends { IfOk result (λ ranks. Ascends ranks) }
    ensures same { IfOk result (λ ranks. (text : List ℕ) → list_any (bytes_eq text) ranks ≡ list_any (bytes_eq text) (map (λ v. v.items) texts.keys)) }
{
    let mut texts = texts;
    texts.sort()?;
    Ok(Ranks { texts })
}

impl Ranks {
    /// How many texts there are.
    pub fn size(&self) -> u32
        ensures { result ≡ length self.now }
    {
        self.texts.len() as u32
    }

    /// The rank of a text, if it is there.
    pub fn rank(&self, text: &[u8]) -> Option<u32>
        ensures { result ≡ rank_of self.now text.now }
    {
        match self.texts.get_index_of(text) {
            Some(at) => Some(at as u32),
            None => None,
        }
    }

    /// The text of a rank below `size`.
    pub fn text(&self, rank: u32) -> Option<&[u8]>
        ensures { option_map (λ text. text.now) result ≡ slice_get self.now rank }
    {
        match self.texts.get_index(rank as usize) {
            Some(text) => Some(text.as_slice()),
            None => None,
        }
    }
}

/// Where each text is below the next one, ranks and texts belong to each other one by one, and a greater text has a greater
/// rank.
pub fn ranks_are_a_bijection()
    ensures inverse { (texts : List (List ℕ)) → Ascends texts → (text : List ℕ) (rank : ℕ) → (rank_of texts text ≡ Some rank) ↔ (slice_get texts rank ≡ Some text) }
    ensures rises { (texts : List (List ℕ)) → Ascends texts → (a b : List ℕ) (rank_a rank_b : ℕ) → rank_of texts a ≡ Some rank_a → rank_of texts b ≡ Some rank_b
        → text_cmp a b ≡ nat_cmp rank_a rank_b }
{}
