ghost use Rattle.std.specs.Prelude.{◌≡◌, ◌<◌, [], All, length, slice_index_or, IfOk};
ghost use Rattle.ch_packet.specs.Packet.{IsWritable};
ghost use Rattle.ch_packet.specs.Spelling.{spelling};
ghost use Rattle.ch_parts.specs.Scanned.{AreTables, side_table, tuple_of};
ghost use Rattle.ch_parts.specs.Tidy.{IsSideOf, IsSource, packet_with};

use crate::side::Side;
use ch_cells::{Bytes, Listed, Memory};
use ch_packet::{Packet, PacketKind, write_packet};
use ch_pred::Bound;
use ch_ranks::Ranks;
use ch_table_words::{push_words, row_bit};
use ch_tables::Table;
use std::alloc::Global;
use std::mem;

/// Which part of a side's table is a worker's, and how many rows it has.
#[derive(Clone, Copy)]
pub struct Source {
    pub side: u8,
    pub part: u32,
    pub rows: u32,
}

/// A packet without its words.
#[derive(Clone, Copy)]
pub(crate) struct Head {
    pub kind: PacketKind,
    pub pass: u8,
    pub worker: u16,
    pub side: u8,
    pub number: u32,
    pub epoch: u32,
    pub bit: bool,
}

/// The bytes of a packet with these words, which are lent to it meanwhile.
pub(crate) fn write_with(alloc: Global, words: &mut Vec<i64>, head: Head) -> Result<Bytes, Memory>
    requires { IsWritable (packet_with head words.old.items) }
    ensures { IfOk result (λ bytes. bytes ≡ spelling (packet_with head words.old.items)) }
{
    let packet = Packet {
        kind: head.kind,
        pass: head.pass,
        worker: head.worker,
        side: head.side,
        number: head.number,
        epoch: head.epoch,
        bit: head.bit,
        words: Listed::from_vec(mem::replace(words, Vec::new(alloc))),
    };
    let bytes = write_packet(alloc, &packet);
    *words = packet.words.into_vec();
    bytes
}

/// The table of a side.
pub fn table_of<'a>(tables: &'a [Table], bound: &Bound, side: usize) -> &'a Table
    requires side { side < length bound.now.tables }
    requires there { All (λ number. number < length tables.now) bound.now.tables }
    ensures { result.now ≡ side_table bound.now tables.now side }
{
    &tables[bound.tables.as_slice()[side] as usize]
}

/// Reads a row into the buffer: its words, and its bit.
pub(crate) fn read_row(
    words: &mut Vec<i64>,
    tables: &[Table],
    bound: &Bound,
    ranks: &Ranks,
    side: &Side,
    source: Source,
    number: u32,
) -> Result<bool, Memory>
    requires tables_are { AreTables ranks.now bound.now tables.now }
    requires source { IsSource bound.now tables.now source }
    requires side { IsSideOf ranks.now bound.now tables.now source.side side.now }
    requires number { number < source.rows }
    ensures bit { let row = slice_index_or (slice_index_or (side_table bound.now tables.now source.side).parts source.part []) number [] in
        IfOk result (λ bit. bit ≡ (tuple_of ranks.now bound.now source.side row).bit) }
    ensures words { let row = slice_index_or (slice_index_or (side_table bound.now tables.now source.side).parts source.part []) number [] in
        IfOk result (λ _. words.new.items ≡ (tuple_of ranks.now bound.now source.side row).words) }
{
    let at = source.side as usize;
    let table = table_of(tables, bound, at);
    let carried = bound.carried.as_slice()[at].as_slice();
    words.clear();
    push_words(
        words,
        table,
        side.places.as_slice(),
        ranks,
        carried,
        source.part,
        number,
    )?;
    Ok(row_bit(&side.own, table, source.side, source.part, number))
}
