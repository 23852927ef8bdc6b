ghost use Rattle.std.specs.Prelude.{◌≡◌, ◌≤◌, ◌+◌, false, length, IfOk, OnOk, OnErr};
ghost use Rattle.ch_ir.specs.declared.profile.Profile.{Profile};
ghost use Rattle.ch_parts.specs.Scanned.{AreTables, parts_of};
ghost use Rattle.ch_plan.specs.Kinds.{IsPlanOf};
ghost use Rattle.ch_plan.specs.Needs.{greatest_length};
ghost use Rattle.ch_print.specs.AnswerText.{text_of};
ghost use Rattle.ch_protocol.specs.Fates.{event_fate};
ghost use Rattle.ch_protocol.specs.Machine.{State, start, step, stopped, passes};
ghost use Rattle.ch_protocol.specs.Received.{rows_arrived};
ghost use Rattle.ch_schedule.specs.Bad.{is_forged};
ghost use Rattle.ch_schedule.specs.Event.{event_of};
ghost use Rattle.ch_survival.specs.Asked.{answer_arrived};
ghost use Rattle.ch_engine.specs.Stands.{HasEpoch};
ghost use Rattle.ch_run.specs.Asked.{AreFew, MayBegin, begun_of, begun_over};
ghost use Rattle.ch_run.specs.Runs.{Begun, IsRunOf, LeadsTo};

use ch_cells::{Answer, Bytes, Memory};
use ch_engine::{Engine, begin};
use ch_plan::Planned;
use ch_pred::Bound;
use ch_protocol::NoteFate;
use ch_ranks::Ranks;
use ch_schedule::Step;
use ch_sources::new_parts;
use ch_switch::Switch;
use ch_tables::Table;
use std::alloc::Global;
use std::marker::Model;

/// A run of a query over its tables, which is at every moment in a state that the protocol reaches. Contracts see its engine.
#[derive(Drop)]
pub struct Run<'a> {
    pub(crate) engine: Engine<'a>,
}

impl<'a> Model for Run<'a> {
    ghost use Rattle.ch_engine.specs.declared.engine.Engine.{Engine};
    ghost use Rattle.ch_run.specs.Runs.{IsRunning};
    ghost use Rattle.ch_pred.specs.contracts.pred.BoundPred as pred;
    ghost use Rattle.std.specs.Coded.{codes};

    ghost Value = { Engine };

    ghost coded = { Prim.hlevel (codes, pred.the_row.coded) };

    ghost view = { λ r. r.engine };

    ghost invariant = { λ r. IsRunning r.engine };
}

impl<'a> Run<'a> {
    /// A run at its start: the plan's program stands on its switch, and nothing is sent.
    pub fn start(
        alloc: Global,
        tables: &'a [Table],
        bound: &'a Bound,
        ranks: &'a Ranks,
        plan: Planned,
        window: u32,
    ) -> Result<Run<'a>, Memory>
        requires tables { AreTables ranks.now bound.now tables.now }
        requires plan { (profile : Profile) × IsPlanOf plan.kind bound.now profile }
        requires carried { greatest_length bound.now.carried ≤ 16 }
        requires window { 1 ≤ window }
        requires few { AreFew (parts_of ranks.now bound.now tables.now) }
        ensures { let q = begun_of ranks.now bound.now tables.now plan.kind window in IfOk result (λ run. IsRunOf q run (start q.given.config)) }
    {
        let Planned {
            kind,
            checked,
            passes,
        } = plan;
        drop(kind);
        let parts = new_parts(alloc, tables, bound, ranks)?;
        let switch = Switch::new(alloc, checked, parts.workers() as u32)?;
        let engine = begin(alloc, parts, bound, ranks, passes == 2, window, switch)?;
        Ok(Run { engine })
    }

    /// A run at its start over a switch as it stands, whose program may serve several queries. A refused one gives up what it
    /// took.
    pub fn start_over(
        alloc: Global,
        tables: &'a [Table],
        bound: &'a Bound,
        ranks: &'a Ranks,
        plan: &Planned,
        window: u32,
        switch: Switch,
    ) -> Result<Run<'a>, Memory>
        requires tables { AreTables ranks.now bound.now tables.now }
        requires plan { (profile : Profile) × IsPlanOf plan.now.kind bound.now profile }
        requires carried { greatest_length bound.now.carried ≤ 16 }
        requires window { 1 ≤ window }
        requires few { AreFew (parts_of ranks.now bound.now tables.now) }
        requires switch { MayBegin ranks.now bound.now plan.now.kind (length (parts_of ranks.now bound.now tables.now)) switch }
        ensures { let q = begun_over ranks.now bound.now tables.now plan.now.kind window switch in IfOk result (λ run. IsRunOf q run (start q.given.config)) }
    {
        let parts = new_parts(alloc, tables, bound, ranks)?;
        let engine = begin(alloc, parts, bound, ranks, plan.passes == 2, window, switch)?;
        Ok(Run { engine })
    }

    /// One step. A run that has stopped does nothing, and one that finds no memory is as before.
    pub fn step(&mut self, event: &Step) -> Result<(), Memory>
        requires epoch { HasEpoch event.now self.old.switch.epoch }
        requires unforged { is_forged event.now ≡ false }
        ensures ok { OnOk result (LeadsTo self.old self.new (λ c s. step c s (event_of event.now))) }
        ensures err { OnErr result (LeadsTo self.old self.new (λ c s. s)) }
        ensures epoch { self.new.switch.epoch ≤ self.old.switch.epoch + 1 }
    {
        self.act(event)?;
        Ok(())
    }

    // One step, with what becomes of it.
    pub(crate) fn act(&mut self, event: &Step) -> Result<NoteFate, Memory>
        requires epoch { HasEpoch event.now self.old.switch.epoch }
        requires unforged { is_forged event.now ≡ false }
        ensures ok { OnOk result (LeadsTo self.old self.new (λ c s. step c s (event_of event.now))) }
        ensures fate { (q : Begun) (s : State) → IsRunOf q self.old s → stopped q.given.config s ≡ false → IfOk result (λ f. f ≡ event_fate q.given.config s (event_of event.now)) }
        ensures err { OnErr result (LeadsTo self.old self.new (λ c s. s)) }
        ensures epoch { self.new.switch.epoch ≤ self.old.switch.epoch + 1 }
    {
        let fate = self.engine.step(event)?;
        Ok(fate)
    }

    /// Whether the last pass is confirmed. Takes no memory.
    pub fn stopped(&self) -> bool
        ensures { (q : Begun) (s : State) → IsRunOf q self.now s → result ≡ stopped q.given.config s }
    {
        self.engine.stopped()
    }

    /// The answer over the rows that the master has received up to now in the last pass.
    pub fn answer(&self) -> Result<Answer, Memory>
        ensures header { (q : Begun) (s : State) → IsRunOf q self.now s → IfOk result (λ a. a.header ≡ q.query.header) }
        ensures rows { (q : Begun) (s : State) → IsRunOf q self.now s → IfOk result (λ a. a.rows ≡ answer_arrived q.texts q.query (rows_arrived q.given.config (passes q.given.config) s.received)) }
    {
        self.engine
            .fold
            .answer(self.engine.alloc, self.engine.bound, self.engine.ranks)
    }

    /// The text of that answer, written row by row: no row of cells is made.
    pub fn text(&self) -> Result<Bytes, Memory>
        ensures { (q : Begun) (s : State) → IsRunOf q self.now s
            → IfOk result (λ text. text ≡ text_of (record { header = q.query.header; rows = answer_arrived q.texts q.query (rows_arrived q.given.config (passes q.given.config) s.received) })) }
    {
        self.engine
            .fold
            .text(self.engine.alloc, self.engine.bound, self.engine.ranks)
    }

    /// How many rows that answer has.
    pub fn answer_len(&self) -> Result<usize, Memory>
        ensures { (q : Begun) (s : State) → IsRunOf q self.now s → IfOk result (λ len. len ≡ length (answer_arrived q.texts q.query (rows_arrived q.given.config (passes q.given.config) s.received))) }
    {
        self.engine
            .fold
            .answer_len(self.engine.alloc, self.engine.bound, self.engine.ranks)
    }

    /// The switch as it stands.
    pub fn into_switch(self) -> Switch
        ensures { result ≡ self.entry.switch }
    {
        self.engine.switch
    }
}
