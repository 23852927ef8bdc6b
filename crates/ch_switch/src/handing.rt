ghost use Rattle.std.specs.Prelude.{◌≡◌, ◌≤◌, ◌+◌, ℕ, length, vec_capacity, vec_len, Some};
ghost use Rattle.ch_packet.specs.View.{IsView, packet_of};
ghost use Rattle.ch_verdicts.specs.Handed.{front, handed, slotted, HasPlaces, IsSlot};
ghost use Rattle.ch_switch.specs.Switching.{row_of};

use ch_packet::PacketView;
use ch_verdicts::Slot;

/// Writes the pass, the side, the bit and the words.
fn hand_front(row: &mut Vec<i64>, packet: &PacketView)
    requires view { IsView packet.now }
    requires room { 3 + length (packet_of packet.now).words ≤ vec_capacity row.old }
    ensures row { row.new.items ≡ front packet.now.pass (row_of (packet_of packet.now)) }
    ensures room { vec_capacity row.new ≡ vec_capacity row.old }
{
    row.clear();
    row.push_reserved(i64::from(packet.pass));
    row.push_reserved(i64::from(packet.side));
    row.push_reserved(i64::from(packet.bit));
    packet.append_words(row);
}

/// Writes 0 up to the slot, and there the program's number.
fn hand_slot(row: &mut Vec<i64>, slot: Slot)
    requires place { vec_len row.old ≤ slot.place }
    requires room { slot.place + 1 ≤ vec_capacity row.old }
    ensures row { row.new.items ≡ slotted (Some slot) row.old.items }
    ensures room { vec_capacity row.new ≡ vec_capacity row.old }
{
    let free = slot.place as usize - row.len();
    for _zero in 0..free {
        row.push_reserved(0);
    }
    row.push_reserved(i64::from(slot.program));
}

/// Writes the words that the program is run on, where the row has room for them. Takes no memory.
pub fn hand(row: &mut Vec<i64>, slot: Option<Slot>, packet: &PacketView)
    requires view { IsView packet.now }
    requires slot { IsSlot slot (vec_capacity row.old) }
    requires places { HasPlaces slot (vec_capacity row.old) (length (packet_of packet.now).words) }
    ensures row { row.new.items ≡ handed slot packet.now.pass (row_of (packet_of packet.now)) }
    ensures many { (width : ℕ) → IsSlot slot width → HasPlaces slot width (length (packet_of packet.now).words) → length row.new.items ≤ width }
    ensures room { vec_capacity row.new ≡ vec_capacity row.old }
{
    hand_front(row, packet);
    if let Some(slot) = slot {
        hand_slot(row, slot);
    }
}
