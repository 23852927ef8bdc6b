ghost use Rattle.std.specs.Prelude.{◌≡◌, ◌<◌, ◌^◌, ◌++◌, ◌∷◌, [], ℤ, List, IfOk, OnOk, OnErr, length};
ghost use Rattle.ch_lists.specs.Members.{Each};
ghost use Rattle.ch_pred.specs.Meaning.{total};
ghost use Rattle.ch_fold_groups.specs.Kept.{IsWord, KeepsGroups};
ghost use Rattle.ch_fold_groups.specs.Lines.{key_lines, keys_above};

use crate::lines::push_line;
use ch_cells::Memory;
use ch_flat::Rows;
use ch_keys::Keys;
use std::alloc::Global;
use std::marker::Model;

/// Different keys, each with the sum of its values.
#[derive(Drop)]
pub struct Sums {
    keys: Keys,
    /// The sum of each key, by the key's number.
    sums: Vec<i128>,
}

impl Model for Sums {
    ghost use Rattle.std.specs.Prelude.{◌≡◌, ℤ, length};
    ghost use Rattle.ch_fold_groups.specs.Kept.{Valued};

    ghost Value = { Valued ℤ };

    ghost view = { λ g. record { keys = g.keys; values = g.sums.items } };

    ghost invariant = { λ g. length g.sums.items ≡ length g.keys };
}

impl Sums {
    /// No keys yet.
    pub fn new(alloc: Global) -> Sums
        ensures { result ≡ record { keys = []; values = [] } }
    {
        Sums {
            keys: Keys::new(alloc),
            sums: Vec::new(alloc),
        }
    }

    /// How many keys there are.
    pub fn len(&self) -> usize
        ensures { result ≡ length self.now.keys }
    {
        self.keys.len()
    }

    /// Takes in a value of a key. No sum of so few words is too great.
    pub fn add(&mut self, key: Vec<i64>, value: i64) -> Result<(), Memory>
        requires room { (groups : List (List ℤ × ℤ)) × KeepsGroups total groups self.old × Each (λ g. IsWord g.1) groups × (length groups < 2 ^ 63) }
        ensures ok { (groups : List (List ℤ × ℤ)) → KeepsGroups total groups self.old → OnOk result (KeepsGroups total (groups ++ (key.items, value) ∷ []) self.new) }
        ensures err { OnErr result (self.new ≡ self.old) }
    {
        match self.keys.find(key.as_slice()) {
            Some(number) => {
                self.sums[number] += i128::from(value);
                Ok(())
            }
            None => {
                self.sums.reserve(1)?;
                self.keys.add(key)?;
                self.sums.push_reserved(i128::from(value));
                Ok(())
            }
        }
    }

    /// The words at some places of each key whose sum is above a number, with 0 behind it.
    pub fn lines_above(&self, alloc: Global, above: i64, places: &[usize]) -> Result<Rows, Memory>
        ensures { IfOk result (λ lines. lines ≡ record { width = length places.now; rows = key_lines places.now (keys_above above self.now.keys self.now.values) }) }
    {
        let mut lines = Rows::new(alloc, places.len());
        for (number, sum) in self.sums.iter().enumerate() {
            if *sum > i128::from(above) {
                let key = self.keys.key(number).unwrap();
                push_line(alloc, &mut lines, key, 0, places)?;
            }
        }
        Ok(lines)
    }
}
