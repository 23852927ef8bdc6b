//! Programs of texts, in a pipeline.
use ch_asm::read_program;
use ch_cells::Memory;
use ch_ir::{Program, cells_of, default_profile, entries_of};
use ch_pipe::Pipe;
use ch_verify::{Checked, is_countable, verify};
use std::alloc::Global;

/// The program whose text has these lines between its first and its last.
pub(crate) fn program(alloc: Global, lines: &str) -> anyhow::Result<Program> {
    let mut text = Vec::from_slice(alloc, b"cheetah program 1\n")?;
    for line in lines.split('|') {
        if !line.is_empty() {
            text.extend_from_slice(line.as_bytes())?;
            text.push(b'\n')?;
        }
    }
    text.extend_from_slice(b"end\n")?;
    Ok(read_program(alloc, text.as_slice())?)
}

/// The program, checked under the default profile.
pub(crate) fn checked(alloc: Global, lines: &str) -> anyhow::Result<Checked> {
    let program = program(alloc, lines)?;
    if !is_countable(&program) {
        drop(program);
        return Err(Memory.into());
    }
    Ok(verify(alloc, program, &default_profile())?)
}

/// The program in a pipeline.
pub(crate) fn installed(alloc: Global, lines: &str) -> anyhow::Result<Pipe> {
    let checked = checked(alloc, lines)?;
    Ok(Pipe::install(alloc, checked)?)
}

/// Numbers with commas between them; `-` for none.
pub(crate) fn numbers(alloc: Global, text: &str) -> anyhow::Result<Vec<i64>> {
    let mut numbers = Vec::new(alloc);
    if text == "-" {
        return Ok(numbers);
    }
    for number in text.split(',') {
        numbers.push(number.parse::<i64>()?)?;
    }
    Ok(numbers)
}

/// Whether a row is pruned; nothing where it has too many words.
pub(crate) fn step(pipe: &mut Pipe, words: &[i64]) -> Option<bool> {
    if words.len() <= pipe.program().width as usize {
        Some(pipe.step(words))
    } else {
        None
    }
}

fn cell(pipe: &Pipe, array: u32, entry: u32, at: u32) -> Option<i64> {
    let arrays = pipe.program().arrays.as_slice();
    if (array as usize) < arrays.len()
        && entry < entries_of(arrays, array)
        && at < cells_of(arrays, array)
    {
        Some(pipe.cell(array, entry, at))
    } else {
        None
    }
}

/// The cells of all arrays in order.
pub(crate) fn cells(alloc: Global, pipe: &Pipe) -> anyhow::Result<Vec<i64>> {
    let mut found = Vec::new(alloc);
    let mut array: u32 = 0;
    for shape in pipe.program().arrays.as_slice() {
        for entry in 0..shape.entries {
            for at in 0..shape.cells {
                found.extend(cell(pipe, array, entry, at))?;
            }
        }
        array = array.saturating_add(1);
    }
    Ok(found)
}
