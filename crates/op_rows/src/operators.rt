//! An operator of each kind.
use ch_cells::Listed;
use ch_prune::{Filter, Front, Operator};
use op_distinct::Distinct;
use op_group::Group;
use op_having::HavingOp;
use op_join::JoinOp;
use op_semi::Semi;
use op_skyline::Skyline;
use op_topn::TopN;
use std::alloc::Global;

/// What an operator needs, the number of its passes, and of its program the width, the arrays, the stages and the verdict's word.
fn shown<O: Operator>(alloc: Global, operator: &O) -> anyhow::Result<String> {
    let program = operator.emit(alloc)?;
    let (arrays, stages) = (program.arrays.len(), program.stages.len());
    let (width, verdict) = (program.width, program.verdict);
    drop(program);
    let (need, passes) = (operator.need(), operator.passes());
    Ok(format!(in alloc;
        "{need:?}, passes {passes}; width {width}, arrays {arrays}, stages {stages}, verdict {verdict}"
    )?)
}

/// And how many ops its front takes.
fn filter(alloc: Global) -> anyhow::Result<String> {
    let shown = shown(alloc, &Filter::new(Front::bit(), 48, 4))?;
    let ops = Front::bit().ops();
    Ok(format!(in alloc; "{shown}; front {ops}")?)
}

/// By the words 3 and 4.
fn distinct(alloc: Global) -> anyhow::Result<String> {
    let key = Listed::from_vec(vec![in alloc; 3, 4]?);
    shown(alloc, &Distinct::new(Front::bit(), 64, 5, 4096, 4, key))
}

/// MAX of word 4 by word 3.
fn group(alloc: Global) -> anyhow::Result<String> {
    let key = Listed::from_vec(vec![in alloc; 3]?);
    shown(
        alloc,
        &Group::new(Front::bit(), 64, 5, 4096, 4, key, 4, true),
    )
}

/// SUM of word 4 by the words 3 and 5.
fn having(alloc: Global) -> anyhow::Result<String> {
    let key = Listed::from_vec(vec![in alloc; 3, 5]?);
    shown(
        alloc,
        &HavingOp::new(Front::bit(), 48, 6, 2, 16, key, Some(4), 10),
    )
}

fn join(alloc: Global) -> anyhow::Result<String> {
    shown(alloc, &JoinOp::new(Front::bit(), 48, 6, 3, 4096, 3, 4))
}

fn semi(alloc: Global) -> anyhow::Result<String> {
    shown(
        alloc,
        &Semi::new(Front::bit(), 48, 5, 3, 4096, 5000, 4, 3, 4),
    )
}

/// SKYLINE OF a MAX, b MIN, of the words 3 and 4, with three stored points.
fn skyline(alloc: Global) -> anyhow::Result<String> {
    let places = Listed::from_vec(vec![in alloc; 3, 4]?);
    let max = Listed::from_vec(vec![in alloc; true, false]?);
    shown(alloc, &Skyline::new(Front::bit(), 48, 5, 3, places, max))
}

/// Two rows by one threshold.
fn top(alloc: Global) -> anyhow::Result<String> {
    shown(alloc, &TopN::new(Front::bit(), 48, 4, 1, 1, 3, true, 2))
}

pub(crate) fn operator(alloc: Global, name: &str) -> anyhow::Result<String> {
    match name {
        "filter" => filter(alloc),
        "distinct" => distinct(alloc),
        "group" => group(alloc),
        "having" => having(alloc),
        "join" => join(alloc),
        "semi" => semi(alloc),
        "skyline" => skyline(alloc),
        "top" => top(alloc),
        _ => Ok(String::from_str(alloc, "no operator")?),
    }
}
