ghost use Rattle.std.specs.Prelude.{◌≡◌, ◌+◌, ◌^◌, ◌<◌, ◌≤◌, ◌++◌, length, map, IfOk, OnOk};
ghost use Rattle.ch_ir.specs.Rules.{update_operand};
ghost use Rattle.ch_pack_laws.specs.Packed.{guarded, moved_access, moved_op, moved_operand, moved_stages, moved_update, only_ops};
ghost use Rattle.ch_pack.specs.Small.{AccessSmall, AccessesSmall, OperandsSmall, OpsSmall, StagesSmall, UpdatesSmall};

use crate::ops::{moved_op, moved_operand, moved_word};
use ch_cells::{Listed, Memory};
use ch_ir::{Access, Binary, Op, Operand, Stage, Update};
use ch_pack_laws::Seat;
use std::alloc::Global;

fn moved_operands(
    alloc: Global,
    seat: Seat,
    operands: &[Operand],
) -> Result<Listed<Operand>, Memory>
    requires { OperandsSmall seat operands.now }
    ensures { IfOk result (λ moved. moved ≡ map (moved_operand seat) operands.now) }
{
    let mut moved = Listed::new(alloc);
    for operand in operands {
        moved.push(moved_operand(seat, *operand))?;
    }
    Ok(moved)
}

fn moved_update(seat: Seat, update: Update) -> Update
    requires { OperandsSmall seat (update_operand update) }
    ensures { result ≡ moved_update seat update }
{
    match update {
        Update::Keep => Update::Keep,
        Update::Put(a) => Update::Put(moved_operand(seat, a)),
        Update::AddSat(a) => Update::AddSat(moved_operand(seat, a)),
        Update::Min(a) => Update::Min(moved_operand(seat, a)),
        Update::Max(a) => Update::Max(moved_operand(seat, a)),
        Update::Or(a) => Update::Or(moved_operand(seat, a)),
    }
}

fn moved_updates(alloc: Global, seat: Seat, updates: &[Update]) -> Result<Listed<Update>, Memory>
    requires { UpdatesSmall seat updates.now }
    ensures { IfOk result (λ moved. moved ≡ map (moved_update seat) updates.now) }
{
    let mut moved = Listed::new(alloc);
    for update in updates {
        moved.push(moved_update(seat, *update))?;
    }
    Ok(moved)
}

fn moved_access(alloc: Global, seat: Seat, guard: u32, access: &Access) -> Result<Access, Memory>
    requires { AccessSmall seat access.now }
    ensures { IfOk result (λ moved. moved ≡ moved_access seat guard access.now) }
{
    let key = moved_operands(alloc, seat, access.key.as_slice())?;
    let yes = moved_updates(alloc, seat, access.yes.as_slice())?;
    let no = moved_updates(alloc, seat, access.no.as_slice())?;
    Ok(Access {
        array: seat.base + access.array,
        index: moved_operand(seat, access.index),
        guard: Operand::Word(guard),
        test: access.test,
        key,
        yes,
        no,
        old: moved_word(seat, access.old),
        hit: moved_word(seat, access.hit),
    })
}

/// The stage of an access, whose guard is set only where the program is selected.
fn guarded(alloc: Global, seat: Seat, guard: u32, accesses: &[Access]) -> Result<Stage, Memory>
    requires { AccessesSmall seat accesses.now }
    ensures { IfOk result (λ stage. stage ≡ guarded seat guard accesses.now) }
{
    let mut stage = Stage {
        ops: Listed::new(alloc),
        accesses: Listed::new(alloc),
    };
    if !accesses.is_empty() {
        let access = &accesses[0];
        let chosen = Operand::Word(seat.chosen);
        let own = moved_operand(seat, access.guard);
        stage.ops.push(Op::Two(guard, Binary::And, chosen, own))?;
        stage
            .accesses
            .push(moved_access(alloc, seat, guard, access)?)?;
    }
    Ok(stage)
}

fn moved_ops(alloc: Global, seat: Seat, ops: &[Op]) -> Result<Stage, Memory>
    requires { OpsSmall seat ops.now }
    ensures { IfOk result (λ stage. stage ≡ only_ops (map (moved_op seat) ops.now)) }
{
    let mut moved = Listed::new(alloc);
    for op in ops {
        moved.push(moved_op(alloc, seat, op)?)?;
    }
    Ok(Stage {
        ops: moved,
        accesses: Listed::new(alloc),
    })
}

/// Two stages for each: its ops, and its access with the next guard.
pub(crate) fn push_moved(
    alloc: Global,
    seat: Seat,
    guard: u32,
    stages: &[Stage],
    moved: &mut Listed<Stage>,
) -> Result<(), Memory>
    requires small { StagesSmall seat stages.now }
    requires guards { guard + length stages.now < 2 ^ 32 }
    ensures { OnOk result (moved.new ≡ moved.old ++ moved_stages seat guard stages.now) }
{
    let mut guard = guard;
    for stage in stages {
        moved.push(moved_ops(alloc, seat, stage.ops.as_slice())?)?;
        moved.push(guarded(alloc, seat, guard, stage.accesses.as_slice())?)?;
        guard += 1;
    }
    Ok(())
}
