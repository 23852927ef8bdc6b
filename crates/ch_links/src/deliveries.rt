ghost use Rattle.std.specs.Prelude.{◌≡◌, ◌<◌, ◌≤◌, ◌&&◌, ℕ, not, length, vec_capacity, if◌then◌else◌, Some, None, IfSome};
ghost use Rattle.ch_packet.specs.Packet.{IsPacket};
ghost use Rattle.ch_packet.specs.Spelling.{spelling};
ghost use Rattle.ch_packet.specs.View.{IsView, packet_of};
ghost use Rattle.ch_packet.specs.declared.packet.Packet.{Packet};
ghost use Rattle.ch_protocol.specs.Forwarder.{fate_of, expect_after};
ghost use Rattle.ch_protocol.specs.Sender.{is_current};
ghost use Rattle.ch_switch.specs.Switching.{Expects, MayMeet, Stays, expected_at, is_pruned, registers_after};
ghost use Rattle.ch_ends.specs.Master.{HaveSameNumbers, holds};
ghost use Rattle.ch_links.specs.Spelled.{IsSpelled, Collects, Learns, MayTake, is_row_of, name_in};

use ch_ends::{Master, Worker};
use ch_packet::{PacketKind, PacketView, view};
use ch_switch::{Fate, Switch};

/// A packet meets the switch. Takes no memory.
pub fn meet(switch: &mut Switch, bytes: &[u8]) -> Fate
    requires spelled { IsSpelled bytes.now }
    requires may { (p : Packet) → IsPacket p → bytes.now ≡ spelling p → MayMeet switch.old p }
    ensures fate { (p : Packet) → IsPacket p → bytes.now ≡ spelling p → result ≡ fate_of (expected_at switch.old p.pass p.worker) p.number (is_pruned switch.old p) }
    ensures expected { (p : Packet) → IsPacket p → bytes.now ≡ spelling p → (e : ℕ → ℕ → ℕ) → Expects switch.old e → Expects switch.new (expect_after result p.pass p.worker e) }
    ensures registers { (p : Packet) → IsPacket p → bytes.now ≡ spelling p → switch.new.registers ≡ registers_after switch.old result p }
    ensures stays { Stays switch.old switch.new }
{
    match view(bytes) {
        Ok(packet) => switch.meet(&packet),
        Err(_) => Fate::Dropped,
    }
}

/// The words of a packet.
fn read_words(words: &mut Vec<i64>, packet: &PacketView)
    requires view { IsView packet.now }
    requires room { 16 ≤ vec_capacity words.old }
    ensures words { words.new.items ≡ (packet_of packet.now).words }
    ensures room { vec_capacity words.new ≡ vec_capacity words.old }
{
    words.clear();
    packet.append_words(words);
}

/// The side of a packet that is a row of this pass and new to the master, and its words. Takes no memory.
pub fn arrival(master: &Master, words: &mut Vec<i64>, pass: u8, bytes: &[u8]) -> Option<u8>
    requires spelled { IsSpelled bytes.now }
    requires may { (p : Packet) → IsPacket p → bytes.now ≡ spelling p → MayTake master.now p }
    requires room { 16 ≤ vec_capacity words.old }
    ensures side { (p : Packet) → IsPacket p → bytes.now ≡ spelling p → result ≡ (if is_row_of pass p && not (holds master.now (name_in p)) then Some p.side else None) }
    ensures words { (p : Packet) → IsPacket p → bytes.now ≡ spelling p → IfSome result (λ _. words.new.items ≡ p.words) }
    ensures room { vec_capacity words.new ≡ vec_capacity words.old }
{
    match view(bytes) {
        Ok(packet) => {
            if packet.kind == PacketKind::Row
                && packet.pass == pass
                && !master.has(packet.pass, packet.worker, packet.number)
            {
                read_words(words, &packet);
                return Some(packet.side);
            }
            None
        }
        Err(_) => None,
    }
}

/// The master takes a row or a Fin. Answers whether it is new. Takes no memory.
pub fn take(master: &mut Master, bytes: &[u8]) -> bool
    requires spelled { IsSpelled bytes.now }
    requires may { (p : Packet) → IsPacket p → bytes.now ≡ spelling p → MayTake master.old p }
    ensures fresh { (p : Packet) → IsPacket p → bytes.now ≡ spelling p → result ≡ not (holds master.old (name_in p)) }
    ensures master { (p : Packet) → IsPacket p → bytes.now ≡ spelling p → Collects master.old master.new (name_in p) }
    ensures numbers { HaveSameNumbers master.old master.new }
{
    match view(bytes) {
        Ok(packet) => master.take(&packet),
        Err(_) => false,
    }
}

/// A worker learns of an acknowledgement. Answers whether it is of this pass and epoch. Takes no memory.
pub fn learn(workers: &mut Vec<Worker>, pass: u8, epoch: u32, bytes: &[u8]) -> bool
    requires spelled { IsSpelled bytes.now }
    requires may { (p : Packet) → IsPacket p → bytes.now ≡ spelling p → p.worker < length workers.old.items }
    ensures taken { (p : Packet) → IsPacket p → bytes.now ≡ spelling p → result ≡ is_current pass epoch p.pass p.epoch }
    ensures workers { (p : Packet) → IsPacket p → bytes.now ≡ spelling p → Learns workers.old.items workers.new.items p }
{
    match view(bytes) {
        Ok(packet) => {
            workers[usize::from(packet.worker)].on_ack(packet.pass, packet.epoch, packet.number);
            packet.pass == pass && packet.epoch == epoch
        }
        Err(_) => false,
    }
}
