//! What operators have in common.
use ch_cells::{Listed, Memory};
use ch_ir::{Binary, Op, Operand, Stage, Update};
use op_bloom::{Sizes, filter_arrays, make_filters};
use op_cache::{Columns, emit_columns};
use op_moves::{Builder, always};
use std::alloc::Global;

const TWO_HASHES: Sizes = Sizes {
    width: 5,
    hashes: 2,
    cells: 16,
    left: 3,
    right: 4,
};

/// The filters of a join.
fn bloom(alloc: Global) -> anyhow::Result<String> {
    let mut builder = Builder::new(alloc);
    let bad = make_filters(alloc, TWO_HASHES, &mut builder)?;
    let (stages, before) = (builder.stages.len(), builder.before.len());
    drop(builder);
    let arrays = filter_arrays(alloc, TWO_HASHES)?.len();
    Ok(format!(in alloc;
        "bad {bad}, stages {stages}, ops before the next {before}, arrays {arrays}"
    )?)
}

/// Two columns of keys of one word.
fn columns(alloc: Global) -> Result<Listed<Stage>, Memory> {
    let mut builder = Builder::new(alloc);
    let carried = Listed::from_vec(vec![in alloc; Operand::Const(1), Operand::Word(3)]?);
    let place = Columns {
        cols: 2,
        array: 0,
        base: 6,
        gate: 4,
        row: 5,
    };
    emit_columns(&mut builder, alloc, place, &[3], carried)?;
    builder.finish(alloc)
}

/// An op, an access, and an op more.
fn moves(alloc: Global) -> Result<Listed<Stage>, Memory> {
    let mut builder = Builder::new(alloc);
    builder.compute(Op::Two(4, Binary::Ne, Operand::Word(2), Operand::Const(0)))?;
    let access = always(alloc, 0, 3, 4, Update::AddSat(Operand::Const(1)), 5)?;
    builder.reach(alloc, access)?;
    builder.compute(Op::Set(7, Operand::Word(5)))?;
    builder.finish(alloc)
}

/// How many ops and accesses each stage has, and the accesses of one.
fn shown(alloc: Global, stages: &Listed<Stage>, at: usize) -> anyhow::Result<String> {
    let mut text = String::from_str(alloc, "stages")?;
    for stage in stages.as_slice() {
        let (ops, accesses) = (stage.ops.len(), stage.accesses.len());
        text.push_str(format!(in alloc; " {ops}+{accesses}")?.as_str())?;
    }
    if at < stages.len() {
        let accesses = stages.as_slice()[at].accesses.as_slice();
        text.push_str(format!(in alloc; " {accesses:?}")?.as_str())?;
    }
    Ok(text)
}

pub(crate) fn part(alloc: Global, name: &str) -> anyhow::Result<String> {
    match name {
        "bloom" => bloom(alloc),
        "columns" => shown(alloc, &columns(alloc)?, 1),
        "moves" => shown(alloc, &moves(alloc)?, 0),
        _ => Ok(String::from_str(alloc, "no part")?),
    }
}
