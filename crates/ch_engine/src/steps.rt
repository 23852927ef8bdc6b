ghost use Rattle.std.specs.Prelude.{◌≡◌, ◌<◌, ◌+◌, ◌^◌, OnOk, OnErr, IfOk, length, slice_get};
ghost use Rattle.ch_protocol.specs.Fates.{event_fate};
ghost use Rattle.ch_protocol.specs.Machine.{State, step, effect, change_pass, stopped};
ghost use Rattle.ch_protocol.specs.Machine.Event.{Back, Restart};
ghost use Rattle.ch_schedule.specs.Event.{event_of, how_of};
ghost use Rattle.ch_survival.specs.Given.{Given};
ghost use Rattle.ch_engine.specs.Stands.{Follows, HasEpoch, IsNoted, IsNotedOpen, IsStanding, Stands, learn_there, note_learned, IsSameQuery};

use crate::answers::{last_pass, learning_fate};
use crate::engine::Engine;
use ch_cells::Memory;
use ch_links::learn;
use ch_protocol::NoteFate;
use ch_schedule::{How, Step};
use ch_stands::{begin_all, first_open, restart_all};

impl Engine<'_> {
    /// The acknowledgement at a place of the link back reaches its worker. Takes no memory.
    pub fn back(&mut self, place: usize, how: How) -> NoteFate
        requires { IsStanding self.old }
        ensures stands { Follows self.old self.new (λ c s. effect c s (Back place (how_of how))) }
        ensures note { IsNoted self.old result (λ c s. event_fate c s (Back place (how_of how))) }
        ensures query { IsSameQuery self.old self.new }
    {
        if place >= self.back.len() {
            return NoteFate::Nothing;
        }
        match how {
            How::Take => self.learn_at(place, false),
            How::Keep => self.learn_at(place, true),
            How::Lose => {
                self.back.lose(place);
                NoteFate::Lost
            }
        }
    }

    // The worker learns of the acknowledgement, which stays where it is or is removed.
    fn learn_at(&mut self, place: usize, stays: bool) -> NoteFate
        requires standing { IsStanding self.old }
        requires place { place < length self.old.back.packets }
        ensures stands { Follows self.old self.new (λ c s. learn_there c s place stays (slice_get s.back place)) }
        ensures note { IsNoted self.old result (λ c s. note_learned s (slice_get s.back place)) }
        ensures query { IsSameQuery self.old self.new }
    {
        let epoch = self.switch.epoch();
        let is_current = learn(&mut self.workers, self.pass, epoch, self.back.at(place));
        self.back.settle(place, stays);
        self.first_open = first_open(self.workers.as_slice(), self.first_open);
        learning_fate(is_current)
    }

    /// The switch restarts: its registers are lost, and each worker is told.
    pub fn restart(&mut self) -> Result<NoteFate, Memory>
        requires standing { IsStanding self.old }
        requires epoch { self.old.switch.epoch + 1 < 2 ^ 32 }
        ensures ok { OnOk result (Follows self.old self.new (λ c s. effect c s Restart)) }
        ensures note { IfOk result (λ n. IsNoted self.old n (λ c s. event_fate c s Restart)) }
        ensures err { OnErr result (Follows self.old self.new (λ c s. s)) }
        ensures query { IsSameQuery self.old self.new }
    {
        let epoch = self.switch.epoch() + 1;
        let told = restart_all(self.alloc, &mut self.workers, epoch)?;
        self.switch
            .restart(self.pass, told.as_slice(), self.two_passes);
        Ok(NoteFate::Restarted)
    }

    // The next pass begins where the present one is confirmed, unless it is the last.
    fn change_pass(&mut self)
        ensures stands { (g : Given) (s : State) → Stands g self.old s → Stands g self.new (change_pass g.config s) }
        ensures query { IsSameQuery self.old self.new }
    {
        if self.first_open == self.workers.len() && self.pass < last_pass(self.two_passes) {
            let pass = self.pass + 1;
            begin_all(&mut self.workers, pass);
            self.pass = pass;
            self.first_open = 0;
        }
    }

    /// Whether the last pass is confirmed. Takes the same time however many workers there are.
    pub fn stopped(&self) -> bool
        ensures { (g : Given) (s : State) → Stands g self.now s → result ≡ stopped g.config s }
    {
        self.pass == last_pass(self.two_passes) && self.first_open == self.workers.len()
    }

    // What a step does by itself.
    fn act(&mut self, event: &Step) -> Result<NoteFate, Memory>
        requires standing { IsStanding self.old }
        requires epoch { HasEpoch event.now self.old.switch.epoch }
        ensures ok { OnOk result (Follows self.old self.new (λ c s. effect c s (event_of event.now))) }
        ensures note { IfOk result (λ n. IsNoted self.old n (λ c s. event_fate c s (event_of event.now))) }
        ensures err { OnErr result (Follows self.old self.new (λ c s. s)) }
        ensures query { IsSameQuery self.old self.new }
    {
        match event {
            Step::Send { worker } => self.send(*worker),
            Step::Resend { worker, place } => self.resend(*worker, *place),
            Step::Up { at, how } => self.up(*at as usize, *how),
            Step::Down { at, how } => self.down(*at as usize, *how),
            Step::Back { at, how } => Ok(self.back(*at as usize, *how)),
            Step::Inject { link: _, bytes: _ } => Ok(NoteFate::Injected),
            Step::Restart => self.restart(),
        }
    }

    /// One step. A run that has stopped does nothing, and one that finds no memory is as before.
    pub fn step(&mut self, event: &Step) -> Result<NoteFate, Memory>
        requires standing { IsStanding self.old }
        requires epoch { HasEpoch event.now self.old.switch.epoch }
        ensures ok { OnOk result (Follows self.old self.new (λ c s. step c s (event_of event.now))) }
        ensures note { IfOk result (λ n. IsNotedOpen self.old n (λ c s. event_fate c s (event_of event.now))) }
        ensures err { OnErr result (Follows self.old self.new (λ c s. s)) }
        ensures query { IsSameQuery self.old self.new }
    {
        if self.stopped() {
            return Ok(NoteFate::Nothing);
        }
        let note = self.act(event)?;
        self.counts.steps = self.counts.steps.saturating_add(1);
        self.change_pass();
        Ok(note)
    }
}
