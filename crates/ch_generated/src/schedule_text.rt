ghost use Rattle.std.specs.Prelude.{◌≡◌, ◌<◌, ◌++◌, IfOk, OnOk};
ghost use Rattle.ch_generated.specs.Draws.{after};
ghost use Rattle.ch_generated.specs.ScheduleText as spec;
ghost use Rattle.ch_generated.specs.ScheduleText.{after_step, line_of, schedule_text, step_line, words_of};

use crate::draws::draw;
use crate::text::{push_bytes, push_number};
use ch_cells::{Bytes, Memory};
use rand_pcg::Lcg64Xsh32;
use std::alloc::Global;

/// The steps in front of `drain`.
const STEPS: u32 = 1000;

/// Writes a name and a number behind it as a line.
fn push_numbered(text: &mut Vec<u8>, name: &[u8], n: u32) -> Result<(), Memory>
    ensures { OnOk result (text.new.items ≡ text.old.items ++ spec.numbered_line name.now n) }
{
    push_bytes(text, name)?;
    push_number(text, n, b'\n')
}

/// Writes the line of a step, and draws its number where it has one.
#[tactic(auto, using(crate::proofs::DrawLemmas::after_none))]
fn push_line(
    text: &mut Vec<u8>,
    generator: &mut Lcg64Xsh32,
    workers: u32,
    step: u32,
) -> Result<(), Memory>
    requires { 0 < workers }
    ensures line { OnOk result (text.new.items ≡ text.old.items ++ line_of workers step generator.old) }
    ensures after { generator.new ≡ after (words_of step) generator.old }
{
    match step {
        0..=2 => push_numbered(text, b"send ", draw(generator, workers)),
        3 => push_bytes(text, b"up 0\n"),
        4 => push_numbered(text, b"up ", draw(generator, 4)),
        5 => push_bytes(text, b"down 0\n"),
        6 => push_bytes(text, b"back 0\n"),
        _ => push_bytes(text, b"up 0 lose\n"),
    }
}

/// Draws a step and writes its line.
#[tactic(auto, unfolding(crate::specs::ScheduleText::step_line, crate::specs::ScheduleText::after_step))]
fn push_step(text: &mut Vec<u8>, generator: &mut Lcg64Xsh32, workers: u32) -> Result<(), Memory>
    requires { 0 < workers }
    ensures line { OnOk result (text.new.items ≡ text.old.items ++ step_line workers generator.old) }
    ensures after { generator.new ≡ after_step generator.old }
{
    let step = draw(generator, 8);
    push_line(text, generator, workers, step)
}

/// The text of a schedule for so many workers.
pub(crate) fn schedule_text(
    alloc: Global,
    generator: &mut Lcg64Xsh32,
    workers: u32,
) -> Result<Bytes, Memory>
    requires { 0 < workers }
    ensures { IfOk result (λ text. text ≡ schedule_text workers generator.old) }
{
    let mut text = Vec::new(alloc);
    for _step in 0..STEPS {
        push_step(&mut text, generator, workers)?;
    }
    push_bytes(&mut text, b"drain\n")?;
    Ok(Bytes::from_vec(text))
}
