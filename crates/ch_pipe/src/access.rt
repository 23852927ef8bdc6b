ghost use Rattle.std.specs.Prelude.{◌≡◌, ◌<◌, ◌≤◌, ◌+◌, ◌*◌, true, IsTrue, if◌then◌else◌, length, take, drop};
ghost use Rattle.std.specs.Ordering.{int_eq};
ghost use Rattle.ch_ir.specs.Machine.{cells_of, holds_at, is_set, same_words};
ghost use Rattle.ch_ir.specs.Rules.{key_words, test_fits};
ghost use Rattle.ch_pipe.specs.Total.{OperandBelow, nat_of, total_store, total_updates, value_at, values_of};
ghost use Rattle.ch_pipe.specs.Entry.{AccessCan, AccessRoom, IsIndex, KeyRoom, cells_on, total_registers, total_words, words_off, words_on};
ghost use Rattle.ch_pipe.specs.Flat.{IsLaid, cut};

use crate::cells::{store, update_cells};
use crate::ops::{as_word, value_of};
use ch_ir::{Access, Array, Operand, Test, cells_of};

fn is_same(a: i64, b: i64) -> bool
    ensures { result ≡ int_eq a b }
{
    a == b
}

/// Whether the cells are the key's words.
fn is_key(cells: &[i64], key: &[Operand], words: &[i64]) -> bool
    requires room { KeyRoom (length words.now) key.now }
    requires each { length key.now ≡ length cells.now }
    ensures { result ≡ same_words cells.now (values_of words.now key.now) }
{
    for at in 0..key.len() {
        if !is_same(cells[at], value_of(key[at], words)) {
            return false;
        }
    }
    true
}

/// Whether the test holds of the cells.
pub fn holds(test: Test, cells: &[i64], key: &[Operand], words: &[i64]) -> bool
    requires room { KeyRoom (length words.now) key.now }
    requires many { length key.now ≡ key_words test }
    requires fits { IsTrue (test_fits test (length cells.now)) }
    requires some { 0 < length cells.now }
    ensures { result ≡ holds_at test (values_of words.now key.now) cells.now }
{
    match test {
        Test::Always => true,
        Test::KeyEq(_) => cells[0] != 0 && is_key(&cells[1..key.len() + 1], key, words),
        Test::KeyEqOrFree(_) => cells[0] == 0 || is_key(&cells[1..key.len() + 1], key, words),
        Test::Less(c) => cells[0] == 0 || cells[c as usize] < value_of(key[0], words),
    }
}

/// The entry's index.
fn index_at(index: Operand, words: &[i64]) -> usize
    requires room { OperandBelow (length words.now) index }
    requires low { IsIndex (value_at words.now index) }
    ensures { result ≡ nat_of (value_at words.now index) }
{
    value_of(index, words) as usize
}

/// Updates the cells of an entry, and tells whether the test held.
fn renew(x: &Access, words: &[i64], cells: &mut [i64]) -> bool
    requires { AccessRoom (length words.now) (length cells.old) x.now }
    ensures hit { result ≡ holds_at x.now.test (values_of words.now x.now.key) cells.old }
    ensures cells { cells.new ≡ total_updates words.now (if result then x.now.yes else x.now.no) cells.old }
{
    let hit = holds(x.test, cells, x.key.as_slice(), words);
    if hit {
        update_cells(x.yes.as_slice(), cells, words);
    } else {
        update_cells(x.no.as_slice(), cells, words);
    }
    hit
}

/// An access whose guard is set, to the cells of its entry.
fn access_cells(x: &Access, words: &mut [i64], cells: &mut [i64], room: &mut [i64])
    requires room { AccessRoom (length words.old) (length cells.old) x.now }
    requires fits { length cells.old ≤ length room.old }
    ensures words { words.new ≡ words_on x.now words.old cells.old }
    ensures cells { cells.new ≡ cells_on x.now words.old cells.old }
{
    let many = cells.len();
    room[..many].copy_from_slice(cells);
    let hit = renew(x, words, cells);
    store(words, x.old as usize, &room[..many]);
    words[x.hit as usize] = as_word(hit);
}

/// Whether a guard is set.
fn is_on(value: i64) -> bool
    ensures { result ≡ is_set value }
{
    value != 0
}

/// An access whose guard isn't set.
fn access_off(x: &Access, cells: u32, words: &mut [i64])
    requires old { x.now.old + cells ≤ length words.old }
    requires hit { x.now.hit < length words.old }
    ensures { words.new ≡ words_off cells x.now words.old }
{
    let old = x.old as usize;
    words[old..old + cells as usize].fill(0);
    words[x.hit as usize] = 0;
}

/// An access whose guard is set, to an array whose entries have so many cells and begin at this base.
fn access_on(
    x: &Access,
    cells: u32,
    base: usize,
    words: &mut [i64],
    registers: &mut [i64],
    room: &mut [i64],
)
    requires index { IsIndex (value_at words.old x.now.index) }
    requires there { base + nat_of (value_at words.old x.now.index) * cells + cells ≤ length registers.old }
    requires room { AccessRoom (length words.old) cells x.now }
    requires fits { cells ≤ length room.old }
    ensures words { words.new ≡ words_on x.now words.old (take cells (drop (base + nat_of (value_at words.old x.now.index) * cells) registers.old)) }
    ensures registers { registers.new ≡ total_store (base + nat_of (value_at words.old x.now.index) * cells) (cells_on x.now words.old (take cells (drop (base + nat_of (value_at words.old x.now.index) * cells) registers.old))) registers.old }
{
    let many = cells as usize;
    let at = base + index_at(x.index, words) * many;
    access_cells(x, words, &mut registers[at..at + many], room);
}

/// An access.
pub fn run_access(
    x: &Access,
    arrays: &[Array],
    bases: &[usize],
    words: &mut [i64],
    registers: &mut [i64],
    room: &mut [i64],
)
    requires laid { IsLaid arrays.now bases.now (length registers.old) }
    requires can { AccessCan (length words.old) (cells_of arrays.now x.now.array) x.now words.old (cut arrays.now registers.old) }
    requires fits { cells_of arrays.now x.now.array ≤ length room.old }
    ensures words { words.new ≡ total_words (cells_of arrays.now x.now.array) x.now words.old (cut arrays.now registers.old) }
    ensures registers { cut arrays.now registers.new ≡ total_registers x.now words.old (cut arrays.now registers.old) }
{
    let cells = cells_of(arrays, x.array);
    if is_on(value_of(x.guard, words)) {
        access_on(x, cells, bases[x.array as usize], words, registers, room);
    } else {
        access_off(x, cells, words);
    }
}
