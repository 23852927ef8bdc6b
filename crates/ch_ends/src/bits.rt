ghost use Rattle.std.specs.Prelude.{◌≡◌, ◌<◌, true, false, length, replicate, slice_set, IfOk};
ghost use Rattle.ch_ends.specs.Bits.{has_bit};

use ch_cells::Memory;
use std::alloc::Global;
use std::marker::Model;

/// A list of bits of fixed length, 64 to a word.
#[derive(Drop)]
pub struct Bits {
    len: usize,
    words: Vec<u64>,
}

impl Model for Bits {
    ghost use Rattle.std.specs.Prelude.{List, Bool, ◌*◌, ◌≤◌, length};
    ghost use Rattle.ch_ends.specs.Bits.{unpacked};

    ghost Value = { List Bool };

    ghost view = { λ b. unpacked b.len b.words.items };

    ghost invariant = { λ b. b.len ≤ 64 * length b.words.items };
}

impl Bits {
    /// So many bits, none of them set.
    pub fn new(alloc: Global, len: usize) -> Result<Bits, Memory>
        ensures { IfOk result (λ b. b ≡ replicate len false) }
    {
        let words = vec![in alloc; 0u64; len.div_ceil(64)]?;
        Ok(Bits { len, words })
    }

    pub fn get(&self, at: usize) -> bool
        requires { at < length self.now }
        ensures { result ≡ has_bit self.now at }
    {
        (self.words[at / 64] >> (at % 64)) & 1 == 1
    }

    pub fn set(&mut self, at: usize)
        requires { at < length self.old }
        ensures { self.new ≡ slice_set self.old at true }
    {
        self.words[at / 64] |= 1 << (at % 64);
    }

    pub fn unset(&mut self, at: usize)
        requires { at < length self.old }
        ensures { self.new ≡ slice_set self.old at false }
    {
        self.words[at / 64] &= !(1 << (at % 64));
    }

    /// No bit is set any more.
    pub fn clear(&mut self)
        ensures { self.new ≡ replicate (length self.old) false }
    {
        self.words.fill(0);
    }
}
