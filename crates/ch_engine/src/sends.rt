ghost use Rattle.std.specs.Prelude.{◌≡◌, ◌<◌, OnOk, OnErr, IfOk, length};
ghost use Rattle.ch_protocol.specs.Fates.{event_fate};
ghost use Rattle.ch_protocol.specs.Machine.{effect, go_up};
ghost use Rattle.ch_protocol.specs.Machine.Event.{Send, Resend};
ghost use Rattle.ch_engine.specs.Stands.{Follows, HasNumber, IsNoted, IsStanding, IsSameQuery};

use crate::engine::Engine;
use ch_cells::Memory;
use ch_protocol::NoteFate;

impl Engine<'_> {
    /// The worker puts its next number on the link up, if it may.
    pub fn send(&mut self, worker: u32) -> Result<NoteFate, Memory>
        requires { IsStanding self.old }
        ensures ok { OnOk result (Follows self.old self.new (λ c s. effect c s (Send worker))) }
        ensures note { IfOk result (λ n. IsNoted self.old n (λ c s. event_fate c s (Send worker))) }
        ensures err { OnErr result (Follows self.old self.new (λ c s. s)) }
        ensures query { IsSameQuery self.old self.new }
    {
        let place = worker as usize;
        if place >= self.workers.len() {
            return Ok(NoteFate::Nothing);
        }
        match self.workers[place].peek() {
            Some(number) => {
                self.go_up(worker, number)?;
                let _ = self.workers[place].next();
                Ok(NoteFate::Sent)
            }
            None => Ok(NoteFate::Nothing),
        }
    }

    /// A number of the worker that is sent and not acknowledged goes on the link up again.
    pub fn resend(&mut self, worker: u32, k: u32) -> Result<NoteFate, Memory>
        requires { IsStanding self.old }
        ensures ok { OnOk result (Follows self.old self.new (λ c s. effect c s (Resend worker k))) }
        ensures note { IfOk result (λ n. IsNoted self.old n (λ c s. event_fate c s (Resend worker k))) }
        ensures err { OnErr result (Follows self.old self.new (λ c s. s)) }
        ensures query { IsSameQuery self.old self.new }
    {
        let place = worker as usize;
        if place >= self.workers.len() {
            return Ok(NoteFate::Nothing);
        }
        match self.workers[place].again(k) {
            Some(number) => {
                self.go_up(worker, number)?;
                Ok(NoteFate::Sent)
            }
            None => Ok(NoteFate::Nothing),
        }
    }

    // A number of a worker goes on the link up.
    fn go_up(&mut self, worker: u32, number: u32) -> Result<(), Memory>
        requires standing { IsStanding self.old }
        requires worker { worker < length self.old.workers.items }
        requires number { HasNumber self.old worker number }
        ensures ok { OnOk result (Follows self.old self.new (λ c s. go_up s worker number)) }
        ensures err { OnErr result (Follows self.old self.new (λ c s. s)) }
        ensures workers { self.new.workers ≡ self.old.workers }
        ensures query { IsSameQuery self.old self.new }
    {
        self.up.make_room()?;
        let epoch = self.switch.epoch();
        let packet = self.parts.packet(
            self.alloc,
            &mut self.sending,
            self.pass,
            worker as u16,
            number,
            epoch,
        )?;
        self.up.put(packet);
        self.counts.sends = self.counts.sends.saturating_add(1);
        Ok(())
    }
}
