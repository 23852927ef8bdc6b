ghost use Rattle.std.specs.Prelude.{◌≡◌, ◌<◌, OnOk, OnErr, IfOk, length, slice_get};
ghost use Rattle.ch_protocol.specs.Fates.{event_fate};
ghost use Rattle.ch_protocol.specs.Machine.{effect};
ghost use Rattle.ch_protocol.specs.Machine.Event.{Up};
ghost use Rattle.ch_schedule.specs.Event.{how_of};
ghost use Rattle.ch_engine.specs.Stands.{Follows, IsNoted, IsStanding, meet_there, note_there, IsSameQuery};

use crate::engine::Engine;
use ch_cells::Memory;
use ch_links::{ack, meet, with_epoch};
use ch_protocol::NoteFate;
use ch_schedule::How;
use ch_switch::Fate;

impl Engine<'_> {
    /// The packet at a place of the link up meets the switch.
    pub fn up(&mut self, place: usize, how: How) -> Result<NoteFate, Memory>
        requires { IsStanding self.old }
        ensures ok { OnOk result (Follows self.old self.new (λ c s. effect c s (Up place (how_of how)))) }
        ensures note { IfOk result (λ n. IsNoted self.old n (λ c s. event_fate c s (Up place (how_of how)))) }
        ensures err { OnErr result (Follows self.old self.new (λ c s. s)) }
        ensures query { IsSameQuery self.old self.new }
    {
        if place >= self.up.len() {
            return Ok(NoteFate::Nothing);
        }
        match how {
            How::Take => self.meet_at(place, false),
            How::Keep => self.meet_at(place, true),
            How::Lose => {
                self.up.lose(place);
                Ok(NoteFate::Lost)
            }
        }
    }

    // The packet meets the switch, and stays where it is or is removed. All memory is taken before anything changes.
    fn meet_at(&mut self, place: usize, stays: bool) -> Result<NoteFate, Memory>
        requires standing { IsStanding self.old }
        requires place { place < length self.old.up.packets }
        ensures ok { OnOk result (Follows self.old self.new (λ c s. meet_there c s place stays (slice_get s.up place))) }
        ensures note { IfOk result (λ n. IsNoted self.old n (λ c s. note_there c s (slice_get s.up place))) }
        ensures err { OnErr result (Follows self.old self.new (λ c s. s)) }
        ensures query { IsSameQuery self.old self.new }
    {
        self.down.make_room()?;
        self.back.make_room()?;
        let epoch = self.switch.epoch();
        let answer = ack(self.alloc, self.up.at(place), 0, epoch)?;
        let packet = self.up.lift(self.alloc, place, stays)?;
        let fate = meet(&mut self.switch, packet.as_slice());
        match fate {
            Fate::Dropped => Ok(NoteFate::Dropped),
            Fate::Pruned => {
                self.counts.pruned = self.counts.pruned.saturating_add(1);
                self.back.put(answer);
                Ok(NoteFate::Pruned)
            }
            Fate::Forwarded => {
                self.counts.forwarded = self.counts.forwarded.saturating_add(1);
                self.down.put(with_epoch(packet, epoch));
                Ok(NoteFate::Forwarded)
            }
            Fate::Passed => {
                self.counts.forwarded = self.counts.forwarded.saturating_add(1);
                self.down.put(with_epoch(packet, epoch));
                Ok(NoteFate::Passed)
            }
        }
    }
}
