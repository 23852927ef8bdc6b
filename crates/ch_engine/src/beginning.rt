ghost use Rattle.std.specs.Prelude.{◌≡◌, ◌<◌, ◌≤◌, ◌+◌, ◌*◌, ◌^◌, ℕ, length, sum_by, slice_index, IfOk};
ghost use Rattle.ch_protocol.specs.Machine.{start, workers};
ghost use Rattle.ch_stands.specs.Team.{sizes_of};
ghost use Rattle.ch_survival.specs.Given.{Given};
ghost use Rattle.ch_switch.specs.Switching.{fresh};
ghost use Rattle.ch_engine.specs.Stands.{AreFolded, Stands};

use crate::engine::Engine;
use ch_cells::{Counts, Memory};
use ch_ends::Master;
use ch_finish::Fold;
use ch_links::Link;
use ch_parts::Parts;
use ch_pred::Bound;
use ch_ranks::Ranks;
use ch_stands::new_team;
use ch_switch::Switch;
use std::alloc::Global;

/// An engine at its start. Takes memory for the workers, the master and the words of a row; the links grow.
pub fn begin<'a>(
    alloc: Global,
    parts: Parts<'a>,
    bound: &'a Bound,
    ranks: &'a Ranks,
    two_passes: bool,
    window: u32,
    switch: Switch,
) -> Result<Engine<'a>, Memory>
    requires window { 1 ≤ window }
    requires many { length parts ≤ 65536 }
    requires sizes { (w : ℕ) → w < length parts → slice_index (sizes_of parts) w + 1 < 2 ^ 32 }
    ensures stands { IfOk result (λ x. (g : Given) → g.config.parts ≡ parts.entry → two_passes ≡ g.config.two_passes → window ≡ g.config.window
        → switch ≡ fresh g.program g.begun g.slot (workers g.config) → AreFolded ranks.now bound.now g.config → Stands g x (start g.config)) }
    ensures query { IfOk result (λ x. (x.bound.now ≡ bound.now) × (x.ranks.now ≡ ranks.now)) }
{
    let rows = parts.sizes(alloc)?;
    let workers = new_team(alloc, rows.as_slice(), window)?;
    let master = Master::new(alloc, &rows)?;
    let fold = Fold::new(alloc, bound)?;
    let arriving = Vec::with_capacity(alloc, 16)?;
    let rows = total(rows.as_slice());
    Ok(Engine {
        alloc,
        parts,
        bound,
        ranks,
        two_passes,
        pass: 1,
        workers,
        first_open: 0,
        switch,
        master,
        up: Link::new(alloc),
        down: Link::new(alloc),
        back: Link::new(alloc),
        fold,
        sending: Vec::new(alloc),
        arriving,
        counts: Counts {
            rows,
            sends: 0,
            pruned: 0,
            forwarded: 0,
            steps: 0,
        },
    })
}

// All rows together.
fn total(rows: &[u32]) -> u64
    requires { length rows.now ≤ 65536 }
    ensures { result ≡ sum_by (λ n. n) rows.now }
{
    let mut all = 0;
    for count in rows {
        all += u64::from(*count);
    }
    all
}
