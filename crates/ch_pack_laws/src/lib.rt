//! Several programs in one, which a word beside those of a row selects: what it is, and its laws.
#![tactic(auto)]

ghost use Rattle.std.specs.Prelude.{◌≤◌, ℕ, List, length};
ghost use Rattle.ch_ir.specs.Measure.{sizes_of};
ghost use Rattle.ch_ir.specs.Rules.{BreaksNoRule};
ghost use Rattle.ch_ir.specs.declared.program.Program.{Program};
ghost use Rattle.ch_prune.specs.Needs.{IsWithin};
ghost use Rattle.ch_prune.specs.declared.operator.Need.{Need};
ghost use Rattle.ch_pack_laws.specs.Handing.{AgreesPacked};
ghost use Rattle.ch_pack_laws.specs.Needs.{AllWithin, packed_need};
ghost use Rattle.ch_pack_laws.specs.Packed.{bases_from, packed, selector_of};
ghost use Rattle.ch_pack_laws.specs.Packs.{Packs};
ghost use Rattle.ch_pack_laws.specs.Steps.{AllUnbroken};
ghost use Rattle.ch_pack_laws.specs.Worked.{TwoPacked};

/// Where a program stands in the packed one. Its given words keep their numbers, and its other words stand later by the
/// shift; its arrays begin at the base; the chosen word tells whether it is selected.
#[derive(Clone, Copy)]
pub struct Seat {
    pub width: u32,
    pub shift: u32,
    pub base: u32,
    pub chosen: u32,
}

/// On words whose selector word is a program's number, a step of the packed program is a step of that program alone.
pub fn packed_steps()
    ensures { (ps : List Program) → AllUnbroken ps → Packs ps (packed ps) (selector_of ps) (bases_from 0 ps) }
{}

/// A policy's verdicts that a program has alone it has when it is packed, from any registers of the others.
pub fn packed_agrees()
    ensures { AgreesPacked }
{}

/// Programs that break no rule, packed, break none.
pub fn packed_unbroken()
    ensures { (ps : List Program) → AllUnbroken ps → BreaksNoRule (packed ps) }
{}

/// At most four programs within their needs, packed, are within the packed needs.
pub fn packed_within()
    ensures { (ops : ℕ) (needs : List Need) (ps : List Program) → AllUnbroken ps → AllWithin ops needs ps → length ps ≤ 4 → 5 ≤ ops → IsWithin (packed_need needs) ops (sizes_of (packed ps)) }
{}

/// Two small programs in one: their verdicts, their registers, the rules and the measure.
pub fn worked()
    ensures { TwoPacked }
{}
