ghost use Rattle.std.specs.Prelude.{◌≡◌, ◌<◌, false, length, slice_get, if◌then◌else◌, IfOk, OnOk, OnErr, Some};
ghost use Rattle.ch_protocol.specs.declared.fate.NoteFate.TheVariants.{Nothing};
ghost use Rattle.ch_protocol.specs.Machine.{State, step};
ghost use Rattle.ch_protocol.specs.Machine.Event.{Resend, Send};
ghost use Rattle.ch_schedule.specs.Bad.{is_forged};
ghost use Rattle.ch_schedule.specs.Event.{event_of};
ghost use Rattle.ch_ends.specs.Packets.{packet_bytes};
ghost use Rattle.ch_trace_lines.specs.Trace.{bytes_of, noted_at, sent_packet};
ghost use Rattle.ch_engine.specs.Stands.{HasEpoch, HasNumber};
ghost use Rattle.ch_run.specs.Making.{note_of};
ghost use Rattle.ch_run.specs.Runs.{Begun, IsGoing, IsRunOf, IsRunning, LeadsTo};

use crate::run::Run;
use ch_cells::{Bytes, Memory};
use ch_engine::Engine;
use ch_links::Link;
use ch_protocol::NoteFate;
use ch_schedule::Step;
use ch_trace_lines::Noted;
use std::alloc::Global;

impl Run<'_> {
    /// One step of a run that hasn't stopped, with the line that the trace has of it.
    pub fn step_noted(&mut self, event: &Step) -> Result<Noted, Memory>
        requires going { IsGoing self.old }
        requires epoch { HasEpoch event.now self.old.switch.epoch }
        requires unforged { is_forged event.now ≡ false }
        ensures ok { OnOk result (LeadsTo self.old self.new (λ c s. step c s (event_of event.now))) }
        ensures note { (q : Begun) (s : State) → IsRunOf q self.old s → IfOk result (λ n. n ≡ noted_at q.given.config s event.now) }
        ensures err { OnErr result (LeadsTo self.old self.new (λ c s. s)) }
    {
        self.note(event)
    }

    // One step with its note. All that the note needs is taken before anything changes.
    pub(crate) fn note(&mut self, event: &Step) -> Result<Noted, Memory>
        requires epoch { HasEpoch event.now self.old.switch.epoch }
        requires unforged { is_forged event.now ≡ false }
        ensures ok { OnOk result (LeadsTo self.old self.new (λ c s. step c s (event_of event.now))) }
        ensures note { (q : Begun) (s : State) → IsRunOf q self.old s → IfOk result (λ n. n ≡ note_of q.given.config s event.now) }
        ensures err { OnErr result (LeadsTo self.old self.new (λ c s. s)) }
    {
        let bytes = carried(&self.engine, event)?;
        let step = copied(self.engine.alloc, event)?;
        let had_stopped = self.stopped();
        let fate = self.act(event)?;
        let fate = fate_unless(had_stopped, fate);
        Ok(Noted { step, bytes, fate })
    }
}

// What becomes of an event: nothing where the run had stopped.
fn fate_unless(had_stopped: bool, fate: NoteFate) -> NoteFate
    ensures { result ≡ (if had_stopped then Nothing else fate) }
{
    if had_stopped { NoteFate::Nothing } else { fate }
}

// The step again.
fn copied(alloc: Global, step: &Step) -> Result<Step, Memory>
    ensures { IfOk result (λ copy. copy ≡ step.now) }
{
    match step {
        Step::Send { worker } => Ok(Step::Send { worker: *worker }),
        Step::Resend { worker, place } => Ok(Step::Resend {
            worker: *worker,
            place: *place,
        }),
        Step::Up { at, how } => Ok(Step::Up { at: *at, how: *how }),
        Step::Down { at, how } => Ok(Step::Down { at: *at, how: *how }),
        Step::Back { at, how } => Ok(Step::Back { at: *at, how: *how }),
        Step::Inject { link, bytes } => {
            let bytes = Bytes::from_slice(alloc, bytes.as_slice())?;
            Ok(Step::Inject { link: *link, bytes })
        }
        Step::Restart => Ok(Step::Restart),
    }
}

// The bytes of the packet that a step puts on the link up, or that stands at its place before it.
fn carried(engine: &Engine, step: &Step) -> Result<Option<Bytes>, Memory>
    requires { IsRunning engine.now }
    ensures { (q : Begun) (s : State) → IsRunOf q engine.now s → IfOk result (λ b. b ≡ bytes_of q.given.config s (event_of step.now)) }
{
    match step {
        Step::Send { worker } => next_packet(engine, *worker),
        Step::Resend { worker, place } => open_packet(engine, *worker, *place),
        Step::Up { at, how: _ } => packet_at(engine.alloc, &engine.up, *at),
        Step::Down { at, how: _ } => packet_at(engine.alloc, &engine.down, *at),
        Step::Back { at, how: _ } => packet_at(engine.alloc, &engine.back, *at),
        Step::Inject { link: _, bytes: _ } | Step::Restart => Ok(None),
    }
}

// The packet that a worker sends next, if it may.
fn next_packet(engine: &Engine, worker: u32) -> Result<Option<Bytes>, Memory>
    requires { IsRunning engine.now }
    ensures { (q : Begun) (s : State) → IsRunOf q engine.now s → IfOk result (λ b. b ≡ bytes_of q.given.config s (Send worker)) }
{
    let place = worker as usize;
    if place >= engine.workers.len() {
        return Ok(None);
    }
    match engine.workers[place].peek() {
        Some(number) => spelled(engine, worker, number),
        None => Ok(None),
    }
}

// The packet of a worker's number that is sent and not acknowledged, if there are so many.
fn open_packet(engine: &Engine, worker: u32, k: u32) -> Result<Option<Bytes>, Memory>
    requires { IsRunning engine.now }
    ensures { (q : Begun) (s : State) → IsRunOf q engine.now s → IfOk result (λ b. b ≡ bytes_of q.given.config s (Resend worker k)) }
{
    let place = worker as usize;
    if place >= engine.workers.len() {
        return Ok(None);
    }
    match engine.workers[place].again(k) {
        Some(number) => spelled(engine, worker, number),
        None => Ok(None),
    }
}

// The packet of a worker's number, as it goes on the link up now.
fn spelled(engine: &Engine, worker: u32, number: u32) -> Result<Option<Bytes>, Memory>
    requires running { IsRunning engine.now }
    requires worker { worker < length engine.now.workers.items }
    requires number { HasNumber engine.now worker number }
    ensures { (q : Begun) (s : State) → IsRunOf q engine.now s → IfOk result (λ b. b ≡ Some (packet_bytes q.given.config (sent_packet s worker number))) }
{
    let mut words = Vec::new(engine.alloc);
    let bytes = engine.parts.packet(
        engine.alloc,
        &mut words,
        engine.pass,
        worker as u16,
        number,
        engine.switch.epoch(),
    )?;
    Ok(Some(bytes))
}

// The bytes at a place of a link, if some are there.
fn packet_at(alloc: Global, link: &Link, place: u32) -> Result<Option<Bytes>, Memory>
    ensures { IfOk result (λ b. b ≡ slice_get link.now.packets place) }
{
    let place = place as usize;
    if place >= link.len() {
        return Ok(None);
    }
    let bytes = Bytes::from_slice(alloc, link.at(place))?;
    Ok(Some(bytes))
}
