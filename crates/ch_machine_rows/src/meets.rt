//! Packets that meet a switch, and restarts.
ghost use Rattle.std.specs.Prelude.{◌≡◌, IfOk};
ghost use Rattle.ch_machine_rows.specs.Takes.{TakesAWord};

use crate::packets::{fate, fin_bytes, row_bytes};
use crate::text::checked;
use ch_cells::Memory;
use ch_switch::Switch;
use ch_verify::Checked;
use std::alloc::Global;

/// Prunes a row whose word is the last one.
const LAST_WORD: &str =
    "width 4|array 1 2|stage|access 0 #0 #1 keyeq:1 w3 keep,keep put:#1,put:w3 4 6|verdict 6";

/// The program of these lines, which has this width.
pub(crate) fn checked_of(alloc: Global, lines: &str, width: u32) -> anyhow::Result<Checked>
    ensures { IfOk result (λ checked. checked.width ≡ width) }
{
    let checked = checked(alloc, lines)?;
    if checked.program().width != width {
        drop(checked);
        return Err(Memory.into());
    }
    Ok(checked)
}

fn row(alloc: Global, switch: &mut Switch, said: &str) -> anyhow::Result<String>
    requires { TakesAWord switch.old }
    ensures { IfOk result (λ _. TakesAWord switch.new) }
{
    let mut words = said.split(' ');
    let pass = words.next().unwrap_or("0").parse::<u8>()?;
    let worker = words.next().unwrap_or("0").parse::<u16>()?;
    let number = words.next().unwrap_or("0").parse::<u32>()?;
    let word = words.next().unwrap_or("0").parse::<i64>()?;
    let bytes = row_bytes(alloc, pass, worker, number, word)?;
    Ok(format!(in alloc; "{:?}", fate(switch, bytes.as_slice()))?)
}

fn fin(alloc: Global, switch: &mut Switch, said: &str) -> anyhow::Result<String>
    requires { TakesAWord switch.old }
    ensures { IfOk result (λ _. TakesAWord switch.new) }
{
    let mut words = said.split(' ');
    let pass = words.next().unwrap_or("0").parse::<u8>()?;
    let worker = words.next().unwrap_or("0").parse::<u16>()?;
    let number = words.next().unwrap_or("0").parse::<u32>()?;
    let bytes = fin_bytes(alloc, pass, worker, number)?;
    Ok(format!(in alloc; "{:?}", fate(switch, bytes.as_slice()))?)
}

fn expected(alloc: Global, switch: &Switch, said: &str) -> anyhow::Result<String>
    requires { TakesAWord switch.now }
{
    let (pass, worker) = said.split_once(' ').unwrap_or((said, "0"));
    let (pass, worker) = (pass.parse::<u8>()?, worker.parse::<u16>()?);
    if (pass == 1 || pass == 2) && worker < 2 {
        Ok(format!(in alloc; "{}", switch.expected(pass, worker))?)
    } else {
        Ok(String::from_str(alloc, "no flow")?)
    }
}

fn restart(switch: &mut Switch, said: &str) -> anyhow::Result<()>
    requires { TakesAWord switch.old }
    ensures { IfOk result (λ _. TakesAWord switch.new) }
{
    let mut words = said.split(' ');
    let pass = words.next().unwrap_or("0").parse::<u8>()?;
    let first = words.next().unwrap_or("0").parse::<u32>()?;
    let second = words.next().unwrap_or("0").parse::<u32>()?;
    let all = matches!(words.next(), Some("all"));
    if (pass == 1 || pass == 2) && switch.epoch() < u32::MAX {
        switch.restart(pass, &[first, second], all);
    }
    Ok(())
}

/// What a call answers.
fn called(alloc: Global, switch: &mut Switch, word: &str, said: &str) -> anyhow::Result<String>
    requires { TakesAWord switch.old }
    ensures { IfOk result (λ _. TakesAWord switch.new) }
{
    match word {
        "row" => row(alloc, switch, said),
        "fin" => fin(alloc, switch, said),
        "expected" => expected(alloc, switch, said),
        "restart" => {
            restart(switch, said)?;
            Ok(String::new(alloc))
        }
        _ => Ok(format!(in alloc; "{}", switch.epoch())?),
    }
}

/// What each call of a new switch answers.
pub(crate) fn switch(alloc: Global, said: &str) -> anyhow::Result<String> {
    let checked = checked_of(alloc, LAST_WORD, 4)?;
    let mut switch = Switch::new(alloc, checked, 2)?;
    let mut text = String::new(alloc);
    for call in said.split("; ") {
        let (word, said) = call.split_once(' ').unwrap_or((call, ""));
        let answer = called(alloc, &mut switch, word, said)?;
        text.push_str(answer.as_str())?;
        text.push(';')?;
    }
    Ok(text)
}
