//! A pipe that goes from one query to the next.
ghost use Rattle.std.specs.Prelude.{◌≡◌, IfOk};

use crate::meets::checked_of;
use crate::packets::{fate, row_bytes};
use ch_pipe::Pipe;
use ch_switch::Switch;
use std::alloc::Global;

/// Prunes a row of query 7, which word 5 tells, whose word is the last one.
const LAST_WORD_OF_7: &str =
    "width 6|array 1 2|stage|op 6 eq w5 #7|access 0 #0 w6 keyeq:1 w3 keep,keep put:#1,put:w3 7 9|verdict 9";

/// The rows of a query meet the pipe; their fates are added.
fn query(alloc: Global, pipe: Pipe, said: &str, text: &mut String) -> anyhow::Result<Pipe>
    requires { pipe.program.width ≡ 6 }
    ensures { IfOk result (λ pipe. pipe.program.width ≡ 6) }
{
    let (program, words) = said.split_once(": ").unwrap_or((said, ""));
    let program = program.parse::<u32>()?;
    let mut switch = Switch::over(alloc, pipe, 5, program, 2)?;
    let mut number: u32 = 0;
    for word in words.split(' ') {
        let bytes = row_bytes(alloc, 1, 0, number, word.parse::<i64>()?)?;
        let fate = fate(&mut switch, bytes.as_slice());
        text.push_str(format!(in alloc; " {fate:?}")?.as_str())?;
        number = number.saturating_add(1);
    }
    text.push(';')?;
    Ok(switch.into_pipe())
}

/// A query sees the registers that the query before it left, and the program of another doesn't touch them.
pub(crate) fn pipe(alloc: Global, said: &str) -> anyhow::Result<String> {
    let checked = checked_of(alloc, LAST_WORD_OF_7, 6)?;
    let mut pipe = Pipe::install(alloc, checked)?;
    let mut text = String::new(alloc);
    for said in said.split("; ") {
        pipe = query(alloc, pipe, said, &mut text)?;
    }
    Ok(text)
}
