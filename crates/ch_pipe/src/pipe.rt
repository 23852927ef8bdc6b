ghost use Rattle.std.specs.Prelude.{◌≡◌, ◌<◌, ◌≤◌, [], pos, Some, length, slice_index_or, IfOk};
ghost use Rattle.ch_ir.specs.Machine.{Registers, cells_of, cleared, machine};
ghost use Rattle.ch_ir.specs.Rules.{entries_of};
ghost use Rattle.ch_verify.specs.Fits.{RegistersFit};

use crate::registers::{Layout, cell, lay_out, widest, zeros};
use crate::step::step_row;
use ch_cells::Memory;
use ch_ir::Program;
use ch_verify::{Checked, measure};
use std::alloc::Global;
use std::marker::Model;

/// A checked program with its registers. Contracts see these two.
#[derive(Drop)]
pub struct Pipe {
    checked: Checked,
    bases: Vec<usize>,
    words: Vec<i64>,
    registers: Vec<i64>,
    room: Vec<i64>,
}

impl Model for Pipe {
    ghost use Rattle.ch_pipe.specs.Installed.{Installed};
    ghost use Rattle.ch_pipe.specs.Flat.{IsLaid, cut};
    ghost use Rattle.ch_pipe.specs.Step.{Ready};
    ghost use Rattle.std.specs.Prelude.{length};

    ghost Value = { Installed };

    ghost view = { λ p. record { program = p.checked; registers = cut p.checked.arrays p.registers.items } };

    ghost invariant = { λ p. IsLaid p.checked.arrays p.bases.items (length p.registers.items)
        × Ready p.checked (length p.words.items) (length p.room.items) (cut p.checked.arrays p.registers.items) };
}

impl Pipe {
    /// Takes all the memory that the program's words and registers need. All cells are 0 then.
    pub fn install(alloc: Global, checked: Checked) -> Result<Pipe, Memory>
        ensures program { IfOk result (λ pipe. pipe.program ≡ checked) }
        ensures registers { IfOk result (λ pipe. pipe.registers ≡ cleared checked.arrays) }
    {
        let program = checked.program();
        let words = zeros(alloc, measure(program).words as usize)?;
        let room = zeros(alloc, widest(program.arrays.as_slice()) as usize)?;
        let layout = lay_out(alloc, program.arrays.as_slice())?;
        let registers = zeros(alloc, layout.size)?;
        let Layout { bases, size: _ } = layout;
        Ok(Pipe {
            checked,
            bases,
            words,
            registers,
            room,
        })
    }

    /// The installed program.
    pub fn program(&self) -> &Program
        ensures same { result.now ≡ self.now.program }
        ensures fits { RegistersFit self.now.program.arrays self.now.registers }
    {
        self.checked.program()
    }

    /// Runs the program on a row, and answers whether the row is pruned. Words that the row lacks are 0.
    pub fn step(&mut self, words: &[i64]) -> bool
        requires { length words.now ≤ self.old.program.width }
        ensures value { machine self.old.program self.old.registers words.now ≡ Some (record { prune = result; registers = self.new.registers }) }
        ensures program { self.new.program ≡ self.old.program }
    {
        step_row(
            self.checked.program(),
            self.bases.as_slice(),
            words,
            self.words.as_mut_slice(),
            self.registers.as_mut_slice(),
            self.room.as_mut_slice(),
        )
    }

    /// A cell of the registers.
    pub fn cell(&self, array: u32, entry: u32, at: u32) -> i64
        requires array { array < length self.now.program.arrays }
        requires entry { entry < entries_of self.now.program.arrays array }
        requires at { at < cells_of self.now.program.arrays array }
        ensures { result ≡ slice_index_or (slice_index_or (slice_index_or self.now.registers array []) entry []) at (pos 0) }
    {
        cell(
            self.checked.program().arrays.as_slice(),
            self.bases.as_slice(),
            self.registers.as_slice(),
            array,
            entry,
            at,
        )
    }

    /// Makes all cells 0.
    pub fn clear(&mut self)
        ensures registers { self.new.registers ≡ cleared self.old.program.arrays }
        ensures program { self.new.program ≡ self.old.program }
    {
        self.registers.as_mut_slice().fill(0);
    }
}
