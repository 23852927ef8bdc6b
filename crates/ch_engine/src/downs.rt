ghost use Rattle.std.specs.Prelude.{◌≡◌, ◌<◌, OnOk, OnErr, IfOk, length, slice_get};
ghost use Rattle.ch_protocol.specs.Fates.{event_fate};
ghost use Rattle.ch_protocol.specs.Machine.{effect};
ghost use Rattle.ch_protocol.specs.Machine.Event.{Down};
ghost use Rattle.ch_schedule.specs.Event.{how_of};
ghost use Rattle.ch_engine.specs.Stands.{Follows, IsNoted, IsStanding, note_received, receive_there, IsSameQuery};

use crate::answers::{arrival_fate, last_pass};
use crate::engine::Engine;
use crate::taking::take_in;
use ch_cells::Memory;
use ch_links::receipt;
use ch_protocol::NoteFate;
use ch_schedule::How;

impl Engine<'_> {
    /// The master takes the packet at a place of the link down.
    pub fn down(&mut self, place: usize, how: How) -> Result<NoteFate, Memory>
        requires { IsStanding self.old }
        ensures ok { OnOk result (Follows self.old self.new (λ c s. effect c s (Down place (how_of how)))) }
        ensures note { IfOk result (λ n. IsNoted self.old n (λ c s. event_fate c s (Down place (how_of how)))) }
        ensures err { OnErr result (Follows self.old self.new (λ c s. s)) }
        ensures query { IsSameQuery self.old self.new }
    {
        if place >= self.down.len() {
            return Ok(NoteFate::Nothing);
        }
        match how {
            How::Take => self.receive_at(place, false),
            How::Keep => self.receive_at(place, true),
            How::Lose => {
                self.down.lose(place);
                Ok(NoteFate::Lost)
            }
        }
    }

    // The master takes the packet, which stays where it is or is removed. All memory is taken before anything changes.
    fn receive_at(&mut self, place: usize, stays: bool) -> Result<NoteFate, Memory>
        requires standing { IsStanding self.old }
        requires place { place < length self.old.down.packets }
        ensures ok { OnOk result (Follows self.old self.new (λ c s. receive_there c s place stays (slice_get s.down place))) }
        ensures note { IfOk result (λ n. IsNoted self.old n (λ c s. note_received s (slice_get s.down place))) }
        ensures err { OnErr result (Follows self.old self.new (λ c s. s)) }
        ensures query { IsSameQuery self.old self.new }
    {
        self.back.make_room()?;
        let answer = receipt(self.alloc, self.down.at(place))?;
        let last = last_pass(self.two_passes);
        let is_new = take_in(
            &mut self.master,
            &mut self.fold,
            &mut self.arriving,
            self.bound,
            self.ranks,
            last,
            self.down.at(place),
        )?;
        self.down.settle(place, stays);
        self.back.put(answer);
        Ok(arrival_fate(is_new))
    }
}
