ghost use Rattle.std.specs.Prelude.{◌≡◌, ◌++◌, ◌∷◌, [], IfOk, OnOk, map, string_bytes};
ghost use Rattle.ch_generated.specs.Inputs as spec;
ghost use Rattle.ch_outside.specs.MapShelf.{named};

use crate::draws::generator;
use crate::request::{InputKind, Request};
use crate::schedule_text::schedule_text;
use crate::table_text::{TableRow, t_part_text, t_rows, u_text};
use ch_cells::{Bytes, Memory};
use std::alloc::Global;

/// The query that is asked of the tables.
pub fn query_text(kind: InputKind) -> &'static str
    ensures { result.now ≡ spec.query_text kind }
{
    match kind {
        InputKind::Filter => "SELECT k, v FROM t WHERE v < 1000",
        InputKind::Distinct => "SELECT DISTINCT k FROM t",
        InputKind::Top => "SELECT k, v FROM t ORDER BY v DESC LIMIT 10",
        InputKind::Group => "SELECT k, MAX(v) FROM t GROUP BY k",
        InputKind::Having => "SELECT k FROM t GROUP BY k HAVING SUM(v) > 100000000",
        InputKind::Join => "SELECT v, y FROM t JOIN u ON t.k = u.k",
        InputKind::Skyline => "SELECT v, b FROM t SKYLINE OF v MAX, b MIN",
    }
}

fn is_join(kind: InputKind) -> bool
    ensures { result ≡ spec.is_join kind }
{
    matches!(kind, InputKind::Join)
}

fn push_file(
    alloc: Global,
    files: &mut Vec<(String, Bytes)>,
    name: &str,
    text: Bytes,
) -> Result<(), Memory>
    ensures { OnOk result (map named files.new.items ≡ map named files.old.items ++ (name.now, text) ∷ []) }
{
    let name = String::from_str(alloc, name)?;
    files.push((name, text))?;
    Ok(())
}

/// Writes the four parts of table `t`.
fn push_t_files(
    alloc: Global,
    files: &mut Vec<(String, Bytes)>,
    rows: &[TableRow],
) -> Result<(), Memory>
    ensures { OnOk result (map named files.new.items ≡ map named files.old.items ++ spec.t_files rows.now) }
{
    push_file(alloc, files, "t0", t_part_text(alloc, rows, 0)?)?;
    push_file(alloc, files, "t1", t_part_text(alloc, rows, 1)?)?;
    push_file(alloc, files, "t2", t_part_text(alloc, rows, 2)?)?;
    push_file(alloc, files, "t3", t_part_text(alloc, rows, 3)?)
}

/// The files of a request, by their names: the parts of table `t`, for a join table `u`, and the schedule.
#[tactic(auto, unfolding(crate::specs::Inputs::files_of))]
pub fn files_of(alloc: Global, request: &Request) -> Result<Vec<(String, Bytes)>, Memory>
    ensures { IfOk result (λ files. map named files.items ≡ spec.files_of request.now) }
{
    let mut generator = generator(request.seed);
    let rows = t_rows(alloc, &mut generator, request.rows)?;
    let mut files = Vec::new(alloc);
    push_t_files(alloc, &mut files, rows.as_slice())?;
    if is_join(request.kind) {
        push_file(alloc, &mut files, "u0", u_text(alloc, &mut generator)?)?;
    }
    let workers = if is_join(request.kind) { 5 } else { 4 };
    let schedule = schedule_text(alloc, &mut generator, workers)?;
    push_file(alloc, &mut files, "s", schedule)?;
    Ok(files)
}

fn push_words(alloc: Global, words: &mut Vec<String>, more: &[&str]) -> Result<(), Memory>
    ensures { OnOk result (map string_bytes words.new.items ≡ map string_bytes words.old.items ++ map (λ word. word.now) more.now) }
{
    for word in more {
        words.push(String::from_str(alloc, word)?)?;
    }
    Ok(())
}

/// The words that ask for the query over the files.
#[tactic(auto, unfolding(crate::specs::Inputs::command_words))]
pub fn command_words(alloc: Global, kind: InputKind) -> Result<Vec<String>, Memory>
    ensures { IfOk result (λ words. map string_bytes words.items ≡ spec.command_words kind) }
{
    let mut words = Vec::new(alloc);
    push_words(
        alloc,
        &mut words,
        &["cheetah", "--query", query_text(kind), "--schedule", "s"],
    )?;
    push_words(alloc, &mut words, &["t=t0", "t=t1", "t=t2", "t=t3"])?;
    if is_join(kind) {
        push_words(alloc, &mut words, &["u=u0"])?;
    }
    Ok(words)
}
