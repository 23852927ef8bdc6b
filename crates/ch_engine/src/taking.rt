ghost use Rattle.std.specs.Prelude.{◌≡◌, ◌<◌, ◌≤◌, ◌^◌, ◌&&◌, ◌++◌, ◌∷◌, [], List, true, not, length, vec_capacity, if◌then◌else◌, IfOk, OnOk, OnErr};
ghost use Rattle.ch_cover.specs.Rows.{Row};
ghost use Rattle.ch_ends.specs.Master.{HaveSameNumbers, holds};
ghost use Rattle.ch_finish.specs.Fold.{StandsFor};
ghost use Rattle.ch_fold_lines.specs.Rows.{RowFits};
ghost use Rattle.ch_links.specs.Spelled.{IsSpelled, Collects, MayTake, is_row_of, name_in};
ghost use Rattle.ch_packet.specs.Packet.{IsPacket};
ghost use Rattle.ch_packet.specs.Spelling.{spelling};
ghost use Rattle.ch_packet.specs.declared.packet.Packet.{Packet};
ghost use Rattle.ch_pred.specs.Sound.{IsSound};

use ch_cells::Memory;
use ch_ends::Master;
use ch_finish::Fold;
use ch_links::{arrival, take};
use ch_pred::Bound;
use ch_ranks::Ranks;

/// The master takes a packet. A new row of the last pass goes into the fold before the master has it.
pub(crate) fn take_in(
    master: &mut Master,
    fold: &mut Fold,
    arriving: &mut Vec<i64>,
    bound: &Bound,
    ranks: &Ranks,
    last: u8,
    bytes: &[u8],
) -> Result<bool, Memory>
    requires spelled { IsSpelled bytes.now }
    requires may { (p : Packet) → IsPacket p → bytes.now ≡ spelling p → MayTake master.old p }
    requires room { 16 ≤ vec_capacity arriving.old }
    requires sound { IsSound bound.now }
    requires fits { (p : Packet) → IsPacket p → bytes.now ≡ spelling p → is_row_of last p ≡ true → RowFits ranks.now bound.now p.side p.words }
    requires few { (rows : List Row) × StandsFor ranks.now bound.now fold.old rows × (length rows < 2 ^ 63) }
    ensures fresh { (p : Packet) → IsPacket p → bytes.now ≡ spelling p → IfOk result (λ is_new. is_new ≡ not (holds master.old (name_in p))) }
    ensures master { (p : Packet) → IsPacket p → bytes.now ≡ spelling p → OnOk result (Collects master.old master.new (name_in p)) }
    ensures fold { (p : Packet) → IsPacket p → bytes.now ≡ spelling p → (rows : List Row) (r : Row) → StandsFor ranks.now bound.now fold.old rows → r.side ≡ p.side → r.words ≡ p.words
        → OnOk result (StandsFor ranks.now bound.now fold.new (if is_row_of last p && not (holds master.old (name_in p)) then rows ++ r ∷ [] else rows)) }
    ensures numbers { HaveSameNumbers master.old master.new }
    ensures room { vec_capacity arriving.new ≡ vec_capacity arriving.old }
    ensures err_master { OnErr result (master.new ≡ master.old) }
    ensures err_fold { OnErr result (fold.new ≡ fold.old) }
{
    if let Some(side) = arrival(master, arriving, last, bytes) {
        fold.add(bound, ranks, side, arriving.as_slice())?;
    }
    Ok(take(master, bytes))
}
