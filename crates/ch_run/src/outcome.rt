ghost use Rattle.std.specs.Prelude.{◌≡◌, ◌<◌, length, map, IfOk};
ghost use Rattle.ch_ends.specs.Worker.{acked_of};
ghost use Rattle.ch_protocol.specs.Machine.{State};
ghost use Rattle.ch_protocol.specs.Outcome.{open_flow, outcome, report};
ghost use Rattle.ch_protocol.specs.Sender.{open_numbers};
ghost use Rattle.ch_run.specs.Outcomes.{flow_seen, outcome_seen};
ghost use Rattle.ch_run.specs.Runs.{Begun, IsRunOf, IsRunning};

use crate::run::Run;
use ch_cells::{Counts, Listed, Memory, OpenFlow};
use ch_ends::Worker;
use ch_engine::Engine;
use std::alloc::Global;

/// What a run has come to.
pub enum Outcome {
    /// The last pass is confirmed.
    Done(Counts),
    /// The workers whose end isn't acknowledged in the current pass, in order.
    Open(Listed<OpenFlow>),
}

impl Drop for Outcome {
    fn drop(self) {
        match self {
            Outcome::Done(_) => {}
            Outcome::Open(_) => {}
        }
    }
}

impl Run<'_> {
    /// The counts of a run that has stopped, and otherwise its open flows.
    pub fn outcome(&self) -> Result<Outcome, Memory>
        ensures { (q : Begun) (s : State) → IsRunOf q self.now s → IfOk result (λ o. o ≡ outcome_seen (outcome q.given.config s)) }
    {
        if self.stopped() {
            return Ok(Outcome::Done(self.engine.counts));
        }
        let flows = open_flows(&self.engine)?;
        Ok(Outcome::Open(flows))
    }
}

// The flows of the workers whose end isn't acknowledged.
fn open_flows(engine: &Engine) -> Result<Listed<OpenFlow>, Memory>
    requires { IsRunning engine.now }
    ensures { (q : Begun) (s : State) → IsRunOf q engine.now s → IfOk result (λ fs. fs ≡ map flow_seen (report q.given.config s)) }
{
    let mut flows = Vec::new(engine.alloc);
    for worker in 0..engine.workers.len() {
        if !engine.workers[worker].confirmed() {
            let flow = flow_of(engine, worker)?;
            flows.push(flow)?;
        }
    }
    Ok(Listed::from_vec(flows))
}

// A worker's flow.
fn flow_of(engine: &Engine, worker: usize) -> Result<OpenFlow, Memory>
    requires running { IsRunning engine.now }
    requires worker { worker < length engine.now.workers.items }
    ensures { (q : Begun) (s : State) → IsRunOf q engine.now s → IfOk result (λ f. f ≡ flow_seen (open_flow q.given.config s worker)) }
{
    let progress = &engine.workers[worker];
    let unacknowledged = numbers_of(engine.alloc, progress)?;
    Ok(OpenFlow {
        pass: engine.pass,
        worker: worker as u16,
        acknowledged: progress.acknowledged(),
        of: engine.parts.rows(worker) + 1,
        unacknowledged,
    })
}

// The sent numbers of a worker that aren't acknowledged.
fn numbers_of(alloc: Global, worker: &Worker) -> Result<Listed<u32>, Memory>
    ensures { IfOk result (λ ns. ns ≡ open_numbers worker.now.next (acked_of worker.now)) }
{
    let mut numbers = Vec::new(alloc);
    for place in 0..worker.unacknowledged() {
        if let Some(number) = worker.again(place) {
            numbers.push(number)?;
        }
    }
    Ok(Listed::from_vec(numbers))
}
