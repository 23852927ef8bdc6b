ghost use Rattle.std.specs.Prelude.{◌≡◌, ℕ, suc, ◌+◌, ◌<◌, ◌≤◌, ◌^◌, ◌&&◌, nat_lt, true, false, if◌then◌else◌, length, IfOk};
ghost use Rattle.ch_protocol.specs.Sender.{least_open, may_send, next_number, open_at, open_numbers, acknowledge, is_current, cut_to_least, acknowledged, is_done, first_number, none_acked};
ghost use Rattle.ch_ends.specs.Bits.{has_bit};

use crate::bits::Bits;
use ch_cells::Memory;
use std::alloc::Global;
use std::marker::Model;

/// A worker's half of the protocol: which of its numbers it may send, and which are acknowledged to it.
///
/// With n rows its numbers are 0 to n, and n is its Fin.
#[derive(Drop)]
pub struct Worker {
    rows: u32,
    window: u32,
    pass: u8,
    epoch: u32,
    next: u32,
    least: u32,
    acked: Bits,
}

impl Model for Worker {
    ghost use Rattle.ch_ends.specs.Worker.{Progress, IsTidy};

    ghost Value = { Progress };

    ghost view = { λ w. record { rows = w.rows; window = w.window; pass = w.pass; epoch = w.epoch; next = w.next; bits = w.acked } };

    ghost invariant = { λ w. IsTidy w.rows w.window w.next w.least w.acked };
}

impl Worker {
    ghost use Rattle.ch_ends.specs.Worker.{IsAt, acked_of};

    /// A worker in pass 1 and epoch 0. Takes all the memory that it needs.
    pub fn new(alloc: Global, rows: u32, window: u32) -> Result<Worker, Memory>
        requires rows { rows + 1 < 2 ^ 32 }
        requires window { 1 ≤ window }
        ensures { IfOk result (λ w. IsAt w rows window 1 0 first_number none_acked) }
    {
        let acked = Bits::new(alloc, rows as usize + 1)?;
        Ok(Worker {
            rows,
            window,
            pass: 1,
            epoch: 0,
            next: 0,
            least: 0,
            acked,
        })
    }

    /// Begins a pass: nothing of it is sent or acknowledged. The epoch stays.
    pub fn begin(&mut self, pass: u8)
        ensures { IsAt self.new self.old.rows self.old.window pass self.old.epoch first_number none_acked }
    {
        self.pass = pass;
        self.next = 0;
        self.least = 0;
        self.acked.clear();
    }

    /// The number to send, if one may be sent. From then on it is sent.
    pub fn next(&mut self) -> Option<u32>
        ensures number { result ≡ next_number self.old.rows self.old.window self.old.next (acked_of self.old) }
        ensures after { let sent = may_send self.old.rows self.old.window self.old.next (acked_of self.old) in
            IsAt self.new self.old.rows self.old.window self.old.pass self.old.epoch (if sent then suc self.old.next else self.old.next) (acked_of self.old) }
    {
        if self.may_send() {
            let number = self.next;
            self.next += 1;
            return Some(number);
        }
        None
    }

    /// The number that `next` would give.
    pub fn peek(&self) -> Option<u32>
        ensures { result ≡ next_number self.now.rows self.now.window self.now.next (acked_of self.now) }
    {
        if self.may_send() {
            return Some(self.next);
        }
        None
    }

    // Whether the next number may be sent: a row's within the window, or the Fin's after all rows.
    fn may_send(&self) -> bool
        ensures { result ≡ may_send self.now.rows self.now.window self.now.next (acked_of self.now) }
    {
        if self.next < self.rows {
            return self.next - self.least < self.window;
        }
        self.next == self.rows && self.least == self.rows
    }

    /// The k-th sent number that isn't acknowledged, from 0 on and ascending. Costs no more than the window.
    pub fn again(&self, k: u32) -> Option<u32>
        ensures { result ≡ open_at self.now.next (acked_of self.now) k }
    {
        let mut left = k;
        for number in self.least..self.next {
            if !self.acked.get(number as usize) {
                if left == 0 {
                    return Some(number);
                }
                left -= 1;
            }
        }
        None
    }

    /// An acknowledgement of a pass, an epoch and a number. One of another pass or epoch, or of a number that wasn't sent,
    /// changes nothing. Costs no more than the window.
    pub fn on_ack(&mut self, pass: u8, epoch: u32, number: u32)
        ensures { let counts = is_current self.old.pass self.old.epoch pass epoch && nat_lt number self.old.next in
            IsAt self.new self.old.rows self.old.window self.old.pass self.old.epoch self.old.next
            (if counts then acknowledge number (acked_of self.old) else acked_of self.old) }
    {
        if pass == self.pass && epoch == self.epoch && number < self.next {
            self.acked.set(number as usize);
            self.least = least_unset(&self.acked, self.least, self.next);
        }
    }

    /// The switch has restarted into this epoch. Answers the least number that isn't acknowledged, and keeps of the
    /// acknowledged numbers those below it.
    pub fn restart(&mut self, epoch: u32) -> u32
        ensures least { result ≡ least_open self.old.rows (acked_of self.old) }
        ensures after { IsAt self.new self.old.rows self.old.window self.old.pass epoch self.old.next (cut_to_least self.old.rows (acked_of self.old)) }
    {
        self.epoch = epoch;
        unset_between(&mut self.acked, self.least, self.next);
        self.least
    }

    /// Whether the Fin is acknowledged.
    pub fn confirmed(&self) -> bool
        ensures { result ≡ is_done self.now.rows (acked_of self.now) }
    {
        self.least > self.rows
    }

    /// How many numbers are acknowledged.
    pub fn acknowledged(&self) -> u32
        ensures { result ≡ acknowledged self.now.rows (acked_of self.now) }
    {
        let mut count = self.least;
        for number in self.least..self.next {
            if self.acked.get(number as usize) {
                count += 1;
            }
        }
        count
    }

    /// How many sent numbers aren't acknowledged. Costs no more than the window.
    pub fn unacknowledged(&self) -> u32
        ensures { result ≡ length (open_numbers self.now.next (acked_of self.now)) }
    {
        let mut count = 0;
        for number in self.least..self.next {
            if !self.acked.get(number as usize) {
                count += 1;
            }
        }
        count
    }
}

// The least number from `from` on whose bit isn't set, or `to` where there is none below it.
fn least_unset(bits: &Bits, from: u32, to: u32) -> u32
    requires order { from ≤ to }
    requires within { to ≤ length bits.now }
    ensures range { (from ≤ result) × (result ≤ to) }
    ensures below { (k : ℕ) → from ≤ k → k < result → has_bit bits.now k ≡ true }
    ensures here { result < to → has_bit bits.now result ≡ false }
{
    for number in from..to {
        if !bits.get(number as usize) {
            return number;
        }
    }
    to
}

// The bits of the numbers from `from` on and below `to` are unset.
fn unset_between(bits: &mut Bits, from: u32, to: u32)
    requires order { from ≤ to }
    requires within { to ≤ length bits.old }
    ensures whole { length bits.new ≡ length bits.old }
    ensures below { (k : ℕ) → k < from → has_bit bits.new k ≡ has_bit bits.old k }
    ensures between { (k : ℕ) → from ≤ k → k < to → has_bit bits.new k ≡ false }
    ensures above { (k : ℕ) → to ≤ k → has_bit bits.new k ≡ has_bit bits.old k }
{
    for number in from..to {
        bits.unset(number as usize);
    }
}
