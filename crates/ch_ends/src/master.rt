ghost use Rattle.std.specs.Prelude.{◌≡◌, ◌≢◌, ◌<◌, List, [], not, length, slice_index_or, IfOk};
ghost use Rattle.ch_protocol.specs.Packets.{Name};
ghost use Rattle.ch_protocol.specs.Receiver.{collect};
ghost use Rattle.ch_packet.specs.declared.packet.PacketKind.TheVariants.{Ack};
ghost use Rattle.ch_ends.specs.Bits.{has_bit};
ghost use Rattle.ch_ends.specs.Master.{no_bits, with_bit};

use crate::bits::Bits;
use ch_cells::{Listed, Memory};
use ch_packet::PacketView;
use std::alloc::Global;
use std::marker::Model;

/// The master's half of the protocol: which rows and Fins it has received, a bit for each.
#[derive(Drop)]
pub struct Master {
    first: Vec<Bits>,
    second: Vec<Bits>,
}

impl Model for Master {
    ghost use Rattle.ch_ends.specs.Master.{Receipts};

    ghost Value = { Receipts };

    ghost view = { λ m. record { first = m.first.items; second = m.second.items } };
}

impl Master {
    ghost use Rattle.ch_ends.specs.Master.{Stands, IsThere, HaveSameNumbers, holds, name_of, no_receipts, with_name};

    /// A master for workers with so many rows, and two passes. Takes all the memory that it needs.
    pub fn new(alloc: Global, rows: &Listed<u32>) -> Result<Master, Memory>
        ensures { IfOk result (λ m. m ≡ no_receipts rows.now) }
    {
        let first = no_bits(alloc, rows.as_slice())?;
        let second = no_bits(alloc, rows.as_slice())?;
        Ok(Master { first, second })
    }

    /// Whether the row or Fin was received.
    pub fn has(&self, pass: u8, worker: u16, number: u32) -> bool
        requires { IsThere self.now (record { pass = pass; worker = worker; number = number }) }
        ensures { result ≡ holds self.now (record { pass = pass; worker = worker; number = number }) }
    {
        let flows = if pass == 1 { &self.first } else { &self.second };
        flows[worker as usize].get(number as usize)
    }

    /// Takes a row or a Fin. Answers whether it is new.
    pub fn take(&mut self, packet: &PacketView) -> bool
        requires kind { packet.now.kind ≢ Ack }
        requires there { IsThere self.old (name_of packet.now) }
        ensures fresh { result ≡ not (holds self.old (name_of packet.now)) }
        ensures after { self.new ≡ with_name self.old (name_of packet.now) }

        // Where it stood for a list of received names, it stands for the list that the protocol has after the delivery.
        ensures stands { (received : List Name) → Stands self.old received → Stands self.new (collect received (name_of packet.now)) }
        ensures numbers { HaveSameNumbers self.old self.new }
    {
        let worker = packet.worker as usize;
        let number = packet.number as usize;
        if packet.pass == 1 {
            set_bit(&mut self.first, worker, number)
        } else {
            set_bit(&mut self.second, worker, number)
        }
    }
}

// Bits for the rows and the Fin of each worker, none of them set.
fn no_bits(alloc: Global, rows: &[u32]) -> Result<Vec<Bits>, Memory>
    ensures { IfOk result (λ v. v.items ≡ no_bits rows.now) }
{
    let mut flows = Vec::with_capacity(alloc, rows.len())?;
    for count in rows {
        flows.push(Bits::new(alloc, *count as usize + 1)?)?;
    }
    Ok(flows)
}

// Sets a bit of a flow, and answers whether it wasn't set.
fn set_bit(flows: &mut Vec<Bits>, worker: usize, number: usize) -> bool
    requires worker { worker < length flows.old.items }
    requires number { number < length (slice_index_or flows.old.items worker []) }
    ensures fresh { result ≡ not (has_bit (slice_index_or flows.old.items worker []) number) }
    ensures after { flows.new.items ≡ with_bit flows.old.items worker number }
{
    let bits = &mut flows[worker];
    let is_new = !bits.get(number);
    bits.set(number);
    is_new
}
