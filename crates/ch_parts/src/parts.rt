ghost use Rattle.std.specs.Prelude.{◌≡◌, ◌<◌, ◌≤◌, length, map, slice_index_or, IfOk};
ghost use Rattle.ch_packet.specs.Packet.{IsPacket};
ghost use Rattle.ch_protocol.specs.Machine.{Config};
ghost use Rattle.ch_ends.specs.Packets.{no_part, packet_bytes, packet_for, sent};
ghost use Rattle.ch_stands.specs.Team.{sizes_of};
ghost use Rattle.ch_parts.specs.Tidy.{IsTidy, source_part};

use crate::row::{Head, Source, read_row, write_with};
use crate::side::Side;
use ch_cells::{Bytes, Listed, Memory};
use ch_packet::PacketKind;
use ch_pred::Bound;
use ch_ranks::Ranks;
use ch_tables::Table;
use std::alloc::Global;
use std::marker::Model;

/// The workers' parts of a query's tables.
#[derive(Drop)]
pub struct Parts<'a> {
    tables: &'a [Table],
    bound: &'a Bound,
    ranks: &'a Ranks,
    sides: Vec<Side>,
    sources: Vec<Source>,
}

impl<'a> Model for Parts<'a> {
    ghost use Rattle.std.specs.Prelude.{List, map};
    ghost use Rattle.ch_protocol.specs.Packets.{Part};
    ghost use Rattle.ch_parts.specs.Tidy.{IsTidy, source_part};

    ghost Value = { List Part };

    ghost view = { λ p. map (source_part p.ranks.now p.bound.now p.tables.now) p.sources.items };

    ghost invariant = { λ p. IsTidy p.ranks.now p.bound.now p.tables.now p.sides.items p.sources.items };
}

impl<'a> Parts<'a> {
    /// The parts that these sources name.
    pub fn over(
        tables: &'a [Table],
        bound: &'a Bound,
        ranks: &'a Ranks,
        sides: Vec<Side>,
        sources: Vec<Source>,
    ) -> Parts<'a>
        requires { IsTidy ranks.now bound.now tables.now sides.items sources.items }
        ensures { result ≡ map (source_part ranks.now bound.now tables.now) sources.items }
    {
        Parts {
            tables,
            bound,
            ranks,
            sides,
            sources,
        }
    }

    /// How many workers there are.
    pub fn workers(&self) -> usize
        ensures { result ≡ length self.now }
    {
        self.sources.len()
    }

    /// How many rows a worker has.
    pub fn rows(&self, worker: usize) -> u32
        requires { worker < length self.now }
        ensures { result ≡ length (slice_index_or self.now worker no_part).tuples }
    {
        self.sources[worker].rows
    }

    /// How many rows each worker has.
    pub fn sizes(&self, alloc: Global) -> Result<Listed<u32>, Memory>
        ensures { IfOk result (λ rows. rows ≡ sizes_of self.now) }
    {
        let mut rows = Vec::with_capacity(alloc, self.sources.len())?;
        for source in self.sources.as_slice() {
            rows.push(source.rows)?;
        }
        Ok(Listed::from_vec(rows))
    }

    /// The bytes of a worker's row, or of its Fin. It takes no memory but for them, once the buffer is as wide as a row.
    pub fn packet(
        &self,
        alloc: Global,
        words: &mut Vec<i64>,
        pass: u8,
        worker: u16,
        number: u32,
        epoch: u32,
    ) -> Result<Bytes, Memory>
        requires worker { worker < length self.now }
        requires number { number ≤ length (slice_index_or self.now worker no_part).tuples }
        requires spelled { (c : Config) → c.parts ≡ self.now → IsPacket (packet_for c (sent pass worker number epoch)) }
        ensures { (c : Config) → c.parts ≡ self.now → IfOk result (λ b. b ≡ packet_bytes c (sent pass worker number epoch)) }
    {
        let source = self.sources[worker as usize];
        if number < source.rows {
            let side = &self.sides[source.side as usize];
            let bit = read_row(
                words,
                self.tables,
                self.bound,
                self.ranks,
                side,
                source,
                number,
            )?;
            let head = Head {
                kind: PacketKind::Row,
                pass,
                worker,
                side: source.side,
                number,
                epoch,
                bit,
            };
            return write_with(alloc, words, head);
        }
        words.clear();
        let head = Head {
            kind: PacketKind::Fin,
            pass,
            worker,
            side: source.side,
            number,
            epoch,
            bit: false,
        };
        write_with(alloc, words, head)
    }
}
