ghost use Rattle.std.specs.Prelude.{◌≡◌, ◌<◌, ◌≤◌, ◌+◌, ◌^◌, ℕ, true, false, length, slice_index, slice_index_or, IfOk, OnOk, OnErr};
ghost use Rattle.ch_ends.specs.Worker.{Progress, IsAt, acked_of};
ghost use Rattle.ch_protocol.specs.Sender.{least_open, first_number, none_acked};
ghost use Rattle.ch_stands.specs.Team.{HasRestarted, HasBegun, is_over};

use ch_cells::Memory;
use ch_ends::Worker;
use std::alloc::Global;

/// A worker for each number of rows. Takes all the memory that they need.
pub fn new_team(alloc: Global, rows: &[u32], window: u32) -> Result<Vec<Worker>, Memory>
    requires window { 1 ≤ window }
    requires small { (w : ℕ) → w < length rows.now → slice_index rows.now w + 1 < 2 ^ 32 }
    ensures many { IfOk result (λ ws. length ws.items ≡ length rows.now) }
    ensures each { IfOk result (λ ws. (w : ℕ) (d : Progress) → w < length rows.now → IsAt (slice_index_or ws.items w d) (slice_index rows.now w) window 1 0 first_number none_acked) }
{
    let mut workers = Vec::with_capacity(alloc, rows.len())?;
    for worker in 0..rows.len() {
        workers.push(Worker::new(alloc, rows[worker], window)?)?;
    }
    Ok(workers)
}

/// The first worker from here on whose end is not acknowledged, or the number of workers.
pub fn first_open(workers: &[Worker], from: usize) -> usize
    requires within { from ≤ length workers.now }
    ensures above { from ≤ result }
    ensures most { result ≤ length workers.now }
    ensures over { (w : ℕ) (d : Progress) → from ≤ w → w < result → is_over (slice_index_or workers.now w d) ≡ true }
    ensures here { (d : Progress) → result < length workers.now → is_over (slice_index_or workers.now result d) ≡ false }
{
    for worker in from..workers.len() {
        if !workers[worker].confirmed() {
            return worker;
        }
    }
    workers.len()
}

/// Each worker is told that the switch restarted. Answers what they expect to be sent next.
pub fn restart_all(alloc: Global, workers: &mut Vec<Worker>, epoch: u32) -> Result<Vec<u32>, Memory>
    ensures told { IfOk result (λ told. length told.items ≡ length workers.old.items) }
    ensures many { length workers.new.items ≡ length workers.old.items }
    ensures each { OnOk result ((w : ℕ) (d : Progress) → w < length workers.old.items → HasRestarted epoch (slice_index_or workers.old.items w d) (slice_index_or workers.new.items w d)) }
    ensures least { IfOk result (λ told. (w : ℕ) (d : Progress) → w < length workers.old.items →
        let x = slice_index_or workers.old.items w d in slice_index told.items w ≡ least_open x.rows (acked_of x)) }
    ensures err { OnErr result (workers.new.items ≡ workers.old.items) }
{
    let mut told = Vec::with_capacity(alloc, workers.len())?;
    for worker in 0..workers.len() {
        let least = workers[worker].restart(epoch);
        told.push_reserved(least);
    }
    Ok(told)
}

/// Each worker begins a pass.
pub fn begin_all(workers: &mut Vec<Worker>, pass: u8)
    ensures many { length workers.new.items ≡ length workers.old.items }
    ensures each { (w : ℕ) (d : Progress) → w < length workers.old.items → HasBegun pass (slice_index_or workers.old.items w d) (slice_index_or workers.new.items w d) }
{
    for worker in 0..workers.len() {
        workers[worker].begin(pass);
    }
}
