ghost use Rattle.std.specs.Prelude.{◌≡◌, ◌≢◌, ◌<◌, ◌≤◌, ◌+◌, ◌^◌, ◌&&◌, ◌||◌, ℕ, suc, not, if◌then◌else◌, None, Some, Option, length, slice_index, slice_index_or, vec_capacity, vec_len, IfOk};
ghost use Rattle.ch_ir.specs.Machine.{cleared, machine, Outcome};
ghost use Rattle.ch_packet.specs.View.{IsView, packet_of};
ghost use Rattle.ch_packet.specs.declared.packet.PacketKind.TheVariants.{Ack};
ghost use Rattle.ch_protocol.specs.Forwarder.{none_expected, fate_of, is_accepted, expect_after, expect_from, keeps_after};
ghost use Rattle.ch_verdicts.specs.Handed.{IsPass, IsSlot, HasPlaces, handed, leaves};
ghost use Rattle.ch_switch.specs.Switching.{place_of, row_of, is_row, is_told};

use crate::handing::hand;
use ch_cells::Memory;
use ch_packet::{PacketKind, PacketView};
use ch_pipe::Pipe;
use ch_protocol::Fate;
use ch_verdicts::Slot;
use ch_verify::Checked;
use std::alloc::Global;
use std::marker::Model;

/// The switch's half of the protocol, with the program that prunes.
#[derive(Drop)]
pub struct Switch {
    pipe: Pipe,
    row: Vec<i64>,
    slot: Option<Slot>,
    workers: u32,
    epoch: u32,
    keeps: bool,
    expected: Vec<u32>,
}

impl Model for Switch {
    ghost use Rattle.std.specs.Prelude.{vec_capacity};
    ghost use Rattle.ch_switch.specs.Switching.{Switching, IsTidy};

    ghost Value = { Switching };

    ghost view = { λ s. record { program = s.pipe.program; registers = s.pipe.registers; slot = s.slot; workers = s.workers; epoch = s.epoch; keeps = s.keeps; expected = s.expected.items } };

    ghost invariant = { λ s. IsTidy s.pipe.program.width s.slot s.workers s.expected.items (vec_capacity s.row) };
}

impl Switch {
    ghost use Rattle.ch_switch.specs.Switching.{Expects, MayMeet, IsSameSwitch, Stays, expected_at, fresh, is_pruned, registers_after};

    /// A switch whose registers are cleared. Takes all the memory that it needs.
    pub fn new(alloc: Global, checked: Checked, workers: u32) -> Result<Switch, Memory>
        requires width { 3 ≤ checked.width }
        requires workers { workers ≤ 65536 }
        ensures fresh { IfOk result (λ s. s ≡ fresh checked (cleared checked.arrays) None workers) }
        ensures expected { IfOk result (λ s. Expects s none_expected) }
    {
        let pipe = Pipe::install(alloc, checked)?;
        let row = Vec::with_capacity(alloc, pipe.program().width as usize)?;
        let expected = vec![in alloc; 0u32; 2 * workers as usize]?;
        Ok(Switch {
            pipe,
            row,
            slot: None,
            workers,
            epoch: 0,
            keeps: false,
            expected,
        })
    }

    /// A switch over a pipe as it stands, whose packets belong to one program of a packed one.
    pub fn over(
        alloc: Global,
        pipe: Pipe,
        selector: u32,
        program: u32,
        workers: u32,
    ) -> Result<Switch, Memory>
        requires first { 3 ≤ selector }
        requires selector { selector < pipe.program.width }
        requires workers { workers ≤ 65536 }
        ensures fresh { IfOk result (λ s. s ≡ fresh pipe.program pipe.registers (Some (record { place = selector; program = program })) workers) }
        ensures expected { IfOk result (λ s. Expects s none_expected) }
    {
        let row = Vec::with_capacity(alloc, pipe.program().width as usize)?;
        let expected = vec![in alloc; 0u32; 2 * workers as usize]?;
        Ok(Switch {
            pipe,
            row,
            slot: Some(Slot {
                place: selector,
                program,
            }),
            workers,
            epoch: 0,
            keeps: false,
            expected,
        })
    }

    /// The pipe as it stands.
    pub fn into_pipe(self) -> Pipe
        ensures { result ≡ record { program = self.program; registers = self.registers } }
    {
        self.pipe
    }

    /// A Row or a Fin meets the switch. Takes no memory.
    pub fn meet(&mut self, packet: &PacketView) -> Fate
        requires view { IsView packet.now }
        requires may { MayMeet self.old (packet_of packet.now) }
        ensures fate { result ≡ fate_of (expected_at self.old packet.now.pass packet.now.worker) packet.now.number (is_pruned self.old (packet_of packet.now)) }
        ensures expected { (e : ℕ → ℕ → ℕ) → Expects self.old e → Expects self.new (expect_after result packet.now.pass packet.now.worker e) }
        ensures registers { self.new.registers ≡ registers_after self.old result (packet_of packet.now) }
        ensures stays { Stays self.old self.new }
    {
        let at = place_of(self.workers, packet.pass, packet.worker);
        meet_at(
            &mut self.expected[at],
            &mut self.pipe,
            &mut self.row,
            self.slot,
            self.keeps,
            packet,
        )
    }

    /// The number that is expected of a flow.
    pub fn expected(&self, pass: u8, worker: u16) -> u32
        requires pass { IsPass pass }
        requires worker { worker < self.now.workers }
        ensures { result ≡ expected_at self.now pass worker }
    {
        self.expected[place_of(self.workers, pass, worker)]
    }

    /// The switch restarts: its registers are cleared, and in this pass it expects these numbers of the workers. From the
    /// first `forward_all` on it keeps each row.
    pub fn restart(&mut self, pass: u8, expected: &[u32], forward_all: bool)
        requires pass { IsPass pass }
        requires workers { length expected.now ≡ self.old.workers }
        requires epoch { self.old.epoch + 1 < 2 ^ 32 }
        ensures registers { self.new.registers ≡ cleared self.old.program.arrays }
        ensures epoch { self.new.epoch ≡ suc self.old.epoch }
        ensures keeps { self.new.keeps ≡ keeps_after self.old.keeps forward_all }
        ensures expected { (e : ℕ → ℕ → ℕ) → Expects self.old e → Expects self.new (expect_from self.old.workers pass (slice_index expected.now) e) }
        ensures same { IsSameSwitch self.old self.new }
    {
        self.pipe.clear();
        self.epoch += 1;
        self.keeps = self.keeps || forward_all;
        let from = place_of(self.workers, pass, 0);
        write_from(self.expected.as_mut_slice(), from, expected);
    }

    pub fn epoch(&self) -> u32
        ensures { result ≡ self.now.epoch }
    {
        self.epoch
    }
}

// Where the number of a flow stands.
fn place_of(workers: u32, pass: u8, worker: u16) -> usize
    ensures { result ≡ place_of workers pass worker }
{
    if pass == 1 {
        usize::from(worker)
    } else {
        workers as usize + usize::from(worker)
    }
}

// These numbers are written from a place on.
fn write_from(numbers: &mut [u32], from: usize, told: &[u32])
    requires { from + length told.now ≤ length numbers.old }
    ensures whole { length numbers.new ≡ length numbers.old }
    ensures told { (k : ℕ) → k < length told.now → slice_index numbers.new (from + k) ≡ slice_index told.now k }
    ensures below { (k : ℕ) → k < from → slice_index numbers.new k ≡ slice_index numbers.old k }
    ensures above { (k : ℕ) → from + length told.now ≤ k → slice_index numbers.new k ≡ slice_index numbers.old k }
{
    for at in 0..told.len() {
        numbers[from + at] = told[at];
    }
}

// The program's verdict on a row.
#[tactic(auto, using(crate::proofs::Places::wider_slot, crate::proofs::Places::wider_places))]
fn judge(pipe: &mut Pipe, row: &mut Vec<i64>, slot: Option<Slot>, packet: &PacketView) -> bool
    requires view { IsView packet.now }
    requires slot { IsSlot slot pipe.old.program.width }
    requires places { HasPlaces slot pipe.old.program.width (length (packet_of packet.now).words) }
    requires room { pipe.old.program.width ≤ vec_capacity row.old }
    ensures value { machine pipe.old.program pipe.old.registers (handed slot packet.now.pass (row_of (packet_of packet.now))) ≡ Some (record { prune = result; registers = pipe.new.registers }) }
    ensures program { pipe.new.program ≡ pipe.old.program }
    ensures room { vec_capacity row.new ≡ vec_capacity row.old }
{
    hand(row, slot, packet);
    pipe.step(row.as_slice())
}

// A packet meets the switch where this number of its flow is expected.
fn meet_at(
    expected: &mut u32,
    pipe: &mut Pipe,
    row: &mut Vec<i64>,
    slot: Option<Slot>,
    keeps: bool,
    packet: &PacketView,
) -> Fate
    requires view { IsView packet.now }
    requires kind { packet.now.kind ≢ Ack }
    requires number { packet.now.number + 1 < 2 ^ 32 }
    requires slot { IsSlot slot pipe.old.program.width }
    requires places { HasPlaces slot pipe.old.program.width (length (packet_of packet.now).words) }
    requires room { pipe.old.program.width ≤ vec_capacity row.old }
    ensures fate { let o = machine pipe.old.program pipe.old.registers (handed slot packet.now.pass (row_of (packet_of packet.now))) in
        result ≡ fate_of expected.old packet.now.number (is_told packet.now.kind keeps o) }
    ensures expected { expected.new ≡ (if is_accepted result then suc expected.old else expected.old) }
    ensures registers { let o = machine pipe.old.program pipe.old.registers (handed slot packet.now.pass (row_of (packet_of packet.now))) in
        pipe.new.registers ≡ (if is_accepted result && (is_row packet.now.kind && not keeps) then leaves o else pipe.old.registers) }
    ensures program { pipe.new.program ≡ pipe.old.program }
    ensures room { vec_capacity row.new ≡ vec_capacity row.old }
{
    if packet.number > *expected {
        return Fate::Dropped;
    }
    if packet.number < *expected {
        return Fate::Passed;
    }
    *expected += 1;
    if packet.kind == PacketKind::Row && !keeps && judge(pipe, row, slot, packet) {
        return Fate::Pruned;
    }
    Fate::Forwarded
}
