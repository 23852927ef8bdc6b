ghost use Rattle.std.specs.Prelude.{◌≡◌, ◌<◌, ◌≤◌, ◌++◌, ◌∷◌, [], if◌then◌else◌, remove, length, slice_index_or, OnErr, OnOk, IfOk};

use ch_cells::{Bytes, Memory};
use std::alloc::Global;
use std::collections::VecDeque;
use std::marker::Model;

/// A link: the bytes of the packets on it, the oldest first.
#[derive(Drop)]
pub struct Link {
    packets: VecDeque<Bytes>,
}

impl Model for Link {
    ghost use Rattle.std.specs.Prelude.{◌-◌};
    ghost use Rattle.std.specs.VecDeque.{deque_len, deque_capacity};
    ghost use Rattle.ch_links.specs.Held.{Held};

    ghost Value = { Held };

    ghost view = { λ l. record { packets = l.packets.items; room = deque_capacity l.packets - deque_len l.packets } };
}

impl Link {
    pub fn new(alloc: Global) -> Link
        ensures { result.packets ≡ [] }
    {
        Link {
            packets: VecDeque::new(alloc),
        }
    }

    pub fn len(&self) -> usize
        ensures { result ≡ length self.now.packets }
    {
        self.packets.len()
    }

    /// Takes memory for one more packet.
    pub fn make_room(&mut self) -> Result<(), Memory>
        ensures ok { OnOk result (0 < self.new.room) }
        ensures packets { self.new.packets ≡ self.old.packets }
    {
        self.packets.reserve(1)?;
        Ok(())
    }

    /// A packet goes on at the end. Takes no memory.
    pub fn put(&mut self, packet: Bytes)
        requires { 0 < self.old.room }
        ensures { self.new.packets ≡ self.old.packets ++ packet ∷ [] }
    {
        self.packets.push_back_reserved(packet);
    }

    pub fn at(&self, place: usize) -> &[u8]
        requires { place < length self.now.packets }
        ensures { result.now ≡ slice_index_or self.now.packets place result.now }
    {
        self.packets[place].as_slice()
    }

    /// The packet at a place, which stays there or is removed.
    pub fn lift(&mut self, alloc: Global, place: usize, stays: bool) -> Result<Bytes, Memory>
        requires { place < length self.old.packets }
        ensures packet { IfOk result (λ bytes. bytes ≡ slice_index_or self.old.packets place bytes) }
        ensures link { OnOk result (self.new.packets ≡ (if stays then self.old.packets else remove self.old.packets place)) }
        ensures err { OnErr result (self.new.packets ≡ self.old.packets) }
    {
        if stays {
            return Bytes::from_slice(alloc, self.packets[place].as_slice());
        }
        match self.packets.remove(place) {
            Some(bytes) => Ok(bytes),
            None => Err(Memory),
        }
    }

    /// The packet at a place is removed. At the front it takes the same time whatever the length.
    pub fn lose(&mut self, place: usize)
        requires { place < length self.old.packets }
        ensures { self.new.packets ≡ remove self.old.packets place }
    {
        let _ = self.packets.remove(place);
    }

    /// The packet at a place stays there or is removed.
    pub fn settle(&mut self, place: usize, stays: bool)
        requires { place < length self.old.packets }
        ensures { self.new.packets ≡ (if stays then self.old.packets else remove self.old.packets place) }
    {
        if !stays {
            self.lose(place);
        }
    }
}
