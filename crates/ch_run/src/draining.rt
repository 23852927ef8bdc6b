ghost use Rattle.std.specs.Prelude.{◌≡◌, ◌<◌, ◌≤◌, ◌+◌, ◌*◌, ℕ, suc, [], ◌∷◌, length, map, replicate, false, if◌then◌else◌, IfOk, OnOk, OnErr};
ghost use Rattle.ch_protocol.specs.Drain.{drain, resend_events};
ghost use Rattle.ch_protocol.specs.DrainEvents.{back_events, drain_events, rounds_events, send_events, turn_events, turns_events};
ghost use Rattle.ch_protocol.specs.Machine.{State, size, total, workers};
ghost use Rattle.ch_protocol.specs.Machine.Event.{Up, Down};
ghost use Rattle.ch_protocol.specs.Machine.How.{Take};
ghost use Rattle.ch_schedule.specs.Bad.{is_forged};
ghost use Rattle.ch_schedule.specs.Event.{event_of};
ghost use Rattle.ch_trace_lines.specs.Trace.{drain_steps, lines_from, step_of};
ghost use Rattle.ch_trace_lines.specs.declared.line.Line.TheVariants as line;
ghost use Rattle.ch_engine.specs.Stands.{HasEpoch};
ghost use Rattle.ch_run.specs.Making.{Makes, round_of};
ghost use Rattle.ch_run.specs.Runs.{Begun, IsRunOf, IsRunning, LeadsOn, LeadsTo};

use crate::run::Run;
use ch_cells::{Listed, Memory};
use ch_engine::Engine;
use ch_schedule::{How, Step};
use ch_trace_lines::Noted;

impl Run<'_> {
    // One event, which is no inject, and its note where notes are kept.
    fn make(&mut self, event: &Step, notes: &mut Option<Listed<Noted>>) -> Result<(), Memory>
        requires epoch { HasEpoch event.now self.old.switch.epoch }
        requires unforged { is_forged event.now ≡ false }
        requires spelled { step_of (event_of event.now) ≡ event.now }
        ensures ok { OnOk result (Makes (self.old, notes.old) (self.new, notes.new) (λ c s. event_of event.now ∷ [])) }
        ensures err { OnErr result (LeadsOn self.old self.new) }
        ensures team { length self.new.workers.items ≡ length self.old.workers.items }
    {
        let _workers = self.engine.workers.len();
        match notes {
            Some(kept) => {
                let noted = self.note(event)?;
                kept.push(noted)
            }
            None => self.step(event),
        }
    }

    // The link up is emptied from the front.
    fn empty_up(&mut self, notes: &mut Option<Listed<Noted>>) -> Result<(), Memory>
        ensures ok { OnOk result (Makes (self.old, notes.old) (self.new, notes.new) (λ c s. replicate (length s.up) (Up 0 Take))) }
        ensures err { OnErr result (LeadsOn self.old self.new) }
    {
        let count = self.engine.up.len();
        for done in 0..count {
            let event = Step::Up {
                at: 0,
                how: How::Take,
            };
            self.make(&event, notes)?;
        }
        Ok(())
    }

    // The link back is emptied from the front, until the run stops.
    fn empty_back(&mut self, notes: &mut Option<Listed<Noted>>) -> Result<(), Memory>
        ensures ok { OnOk result (Makes (self.old, notes.old) (self.new, notes.new) (λ c s. back_events c (length s.back) s)) }
        ensures err { OnErr result (LeadsOn self.old self.new) }
    {
        let count = self.engine.back.len();
        for done in 0..count {
            if self.stopped() {
                return Ok(());
            }
            let event = Step::Back {
                at: 0,
                how: How::Take,
            };
            self.make(&event, notes)?;
        }
        Ok(())
    }

    // One resend for each of the worker's open numbers.
    fn resends(&mut self, worker: u32, notes: &mut Option<Listed<Noted>>) -> Result<(), Memory>
        requires { worker < length self.old.workers.items }
        ensures ok { OnOk result (Makes (self.old, notes.old) (self.new, notes.new) (λ c s. resend_events s worker)) }
        ensures err { OnErr result (LeadsOn self.old self.new) }
        ensures team { length self.new.workers.items ≡ length self.old.workers.items }
    {
        let count = self.engine.workers[worker as usize].unacknowledged();
        for place in 0..count {
            self.make(&Step::Resend { worker, place }, notes)?;
        }
        Ok(())
    }

    // Sends of a worker while one puts something on the link up.
    fn sends(&mut self, worker: u32, notes: &mut Option<Listed<Noted>>) -> Result<(), Memory>
        requires { worker < length self.old.workers.items }
        ensures ok { OnOk result (Makes (self.old, notes.old) (self.new, notes.new) (λ c s. send_events c worker (suc (size c worker)) s)) }
        ensures err { OnErr result (LeadsOn self.old self.new) }
        ensures team { length self.new.workers.items ≡ length self.old.workers.items }
    {
        let place = worker as usize;
        let most = self.engine.parts.rows(place) + 1;
        for done in 0..most {
            match self.engine.workers[place].peek() {
                Some(_) => {
                    self.make(&Step::Send { worker }, notes)?;
                }
                None => return Ok(()),
            }
        }
        Ok(())
    }

    // A worker's turn.
    fn turn(&mut self, worker: u32, notes: &mut Option<Listed<Noted>>) -> Result<(), Memory>
        requires { worker < length self.old.workers.items }
        ensures ok { OnOk result (Makes (self.old, notes.old) (self.new, notes.new) (λ c s. turn_events c worker s)) }
        ensures err { OnErr result (LeadsOn self.old self.new) }
        ensures team { length self.new.workers.items ≡ length self.old.workers.items }
    {
        self.resends(worker, notes)?;
        self.sends(worker, notes)
    }

    // The turns of all workers, in order.
    fn turns(&mut self, notes: &mut Option<Listed<Noted>>) -> Result<(), Memory>
        ensures ok { OnOk result (Makes (self.old, notes.old) (self.new, notes.new) (λ c s. turns_events c 0 (workers c) s)) }
        ensures err { OnErr result (LeadsOn self.old self.new) }
    {
        let count = self.engine.workers.len();
        for worker in 0..count {
            self.turn(worker as u32, notes)?;
        }
        Ok(())
    }

    // The link down is emptied from the front.
    fn empty_down(&mut self, notes: &mut Option<Listed<Noted>>) -> Result<(), Memory>
        ensures ok { OnOk result (Makes (self.old, notes.old) (self.new, notes.new) (λ c s. replicate (length s.down) (Down 0 Take))) }
        ensures err { OnErr result (LeadsOn self.old self.new) }
    {
        let count = self.engine.down.len();
        for done in 0..count {
            let event = Step::Down {
                at: 0,
                how: How::Take,
            };
            self.make(&event, notes)?;
        }
        Ok(())
    }

    // A round: all turns, and then the links are emptied.
    fn round(&mut self, notes: &mut Option<Listed<Noted>>) -> Result<(), Memory>
        ensures ok { OnOk result (Makes (self.old, notes.old) (self.new, notes.new) (λ c s. round_of c s)) }
        ensures err { OnErr result (LeadsOn self.old self.new) }
    {
        self.turns(notes)?;
        self.empty_up(notes)?;
        self.empty_down(notes)?;
        self.empty_back(notes)
    }

    // Rounds until the run stops, at most so many.
    fn rounds(&mut self, most: u64, notes: &mut Option<Listed<Noted>>) -> Result<(), Memory>
        ensures ok { OnOk result (Makes (self.old, notes.old) (self.new, notes.new) (λ c s. rounds_events c most s)) }
        ensures err { OnErr result (LeadsOn self.old self.new) }
    {
        for done in 0..most {
            if self.stopped() {
                return Ok(());
            }
            self.round(notes)?;
        }
        Ok(())
    }

    // The events of a drain. No more rounds are made than a run can need.
    fn drain_all(&mut self, notes: &mut Option<Listed<Noted>>) -> Result<(), Memory>
        ensures ok { OnOk result (Makes (self.old, notes.old) (self.new, notes.new) (λ c s. drain_events c s)) }
        ensures err { OnErr result (LeadsOn self.old self.new) }
    {
        let workers = self.engine.workers.len() as u64;
        let most = most_rounds(self.engine.two_passes, all_rows(&self.engine), workers);
        self.rounds(most, notes)
    }

    /// Rounds until the run stops. Takes no memory for its notes.
    pub fn drain(&mut self) -> Result<(), Memory>
        ensures ok { OnOk result (LeadsTo self.old self.new (λ c s. drain c s)) }
        ensures err { OnErr result (LeadsOn self.old self.new) }
    {
        self.drain_all(&mut None)
    }

    /// The same, with the notes of its events in order: the lines that the trace has of them.
    pub fn drain_noted(&mut self) -> Result<Listed<Noted>, Memory>
        ensures ok { OnOk result (LeadsTo self.old self.new (λ c s. drain c s)) }
        ensures notes { (q : Begun) (s : State) → IsRunOf q self.old s → 0 < workers q.given.config → IfOk result (λ ns. map line.Event ns ≡ lines_from q.given.config s (drain_steps q.given.config s)) }
        ensures err { OnErr result (LeadsOn self.old self.new) }
    {
        let mut notes = Some(Listed::new(self.engine.alloc));
        self.drain_all(&mut notes)?;
        Ok(notes.unwrap())
    }
}

/// The rows of all workers.
fn all_rows(engine: &Engine) -> u64
    requires { IsRunning engine.now }
    ensures rows { (q : Begun) (s : State) → IsRunOf q engine.now s → result ≡ total q.given.config }
    ensures small { result ≤ 65536 * 4294967296 }
{
    let mut all = 0;
    for worker in 0..engine.parts.workers() {
        all += u64::from(engine.parts.rows(worker));
    }
    all
}

/// How many rounds are made at most.
fn most_rounds(two_passes: bool, rows: u64, workers: u64) -> u64
    requires rows { rows ≤ 65536 * 4294967296 }
    requires workers { workers ≤ 65536 }
    ensures { result ≡ (if two_passes then 2 else 1) * (rows + workers + 1) }
{
    if two_passes {
        2 * (rows + workers + 1)
    } else {
        rows + workers + 1
    }
}
