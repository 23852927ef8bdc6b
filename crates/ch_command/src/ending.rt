ghost use Rattle.std.specs.Prelude.{◌≡◌, ◌≢◌, ◌≤◌};
ghost use Rattle.ch_outside.specs.Faults.{StaysReliable};
ghost use Rattle.ch_outside.specs.Sink.{Puts};
ghost use Rattle.ch_command.specs.Call.{change_of};
ghost use Rattle.ch_command.specs.Verdict.{Ends, GivesUp, Says, Writes};

use crate::outcome::{Ending, Outcome};
use crate::status::Status;
use crate::verdict::Verdict;
use ch_outside::{Sink, SinkError};
use std::io::ErrorKind;

/// Puts a text, where there is one.
fn put_text<S: Sink>(sink: &mut S, text: &[u8]) -> Result<(), SinkError>
    ensures puts { Puts (S.written sink.old) (S.written sink.new) text.now (S.faults sink.old) (S.faults sink.new) result }
    ensures later { S.faults sink.old ≤ S.faults sink.new }
    ensures steady { StaysReliable (S.reliable sink.old) (S.reliable sink.new) (S.faults sink.old) (S.faults sink.new) }
{
    if text.is_empty() {
        return Ok(());
    }
    sink.put(text)
}

/// Says that memory ran out, where the sink takes it.
fn give_up<E: Sink>(err: &mut E) -> Status
    ensures gives_up { GivesUp (change_of E.written E.faults err.old err.new) result }
    ensures later { E.faults err.old ≤ E.faults err.new }
    ensures steady { StaysReliable (E.reliable err.old) (E.reliable err.new) (E.faults err.old) (E.faults err.new) }
{
    match err.put(b"memory\n") {
        Err(SinkError::Failed) => Status::WriteFault,
        Ok(()) | Err(SinkError::Memory) => Status::Memory,
    }
}

/// Puts a text on err, and ends with this status.
fn say<E: Sink>(err: &mut E, text: &[u8], status: Status) -> Status
    ensures says { Says text.now status (change_of E.written E.faults err.old err.new) result }
    ensures later { E.faults err.old ≤ E.faults err.new }
    ensures steady { StaysReliable (E.reliable err.old) (E.reliable err.new) (E.faults err.old) (E.faults err.new) }
{
    match put_text(err, text) {
        Ok(()) => status,
        Err(SinkError::Failed) => Status::WriteFault,
        Err(SinkError::Memory) => give_up(err),
    }
}

/// Writes an outcome: its text on out, and then that on err.
fn write<O: Sink, E: Sink>(outcome: &Outcome, out: &mut O, err: &mut E) -> Status
    ensures writes { Writes outcome.now (change_of O.written O.faults out.old out.new) (change_of E.written E.faults err.old err.new) result }
    ensures out_later { O.faults out.old ≤ O.faults out.new }
    ensures err_later { E.faults err.old ≤ E.faults err.new }
    ensures out_steady { StaysReliable (O.reliable out.old) (O.reliable out.new) (O.faults out.old) (O.faults out.new) }
    ensures err_steady { StaysReliable (E.reliable err.old) (E.reliable err.new) (E.faults err.old) (E.faults err.new) }
{
    match put_text(out, outcome.out.as_slice()) {
        Ok(()) => say(err, outcome.err.as_slice(), Status::Ended(outcome.ending)),
        Err(SinkError::Failed) => {
            let _ = err.put(b"write fault\n");
            Status::WriteFault
        }
        Err(SinkError::Memory) => give_up(err),
    }
}

/// Says what the command has to say, and answers its status.
pub fn end<O: Sink, E: Sink>(verdict: Verdict, out: &mut O, err: &mut E) -> Status
    ensures ends { Ends verdict (change_of O.written O.faults out.old out.new) (change_of E.written E.faults err.old err.new) result }
    ensures out_later { O.faults out.old ≤ O.faults out.new }
    ensures err_later { E.faults err.old ≤ E.faults err.new }
    ensures out_steady { StaysReliable (O.reliable out.old) (O.reliable out.new) (O.faults out.old) (O.faults out.new) }
    ensures err_steady { StaysReliable (E.reliable err.old) (E.reliable err.new) (E.faults err.old) (E.faults err.new) }
{
    match &verdict {
        Verdict::Said(outcome) => write(outcome, out, err),
        Verdict::ReadFault(line) => say(err, line.as_slice(), Status::ReadFault),
        Verdict::Memory => give_up(err),
    }
}

/// Says why the words can't be read: memory ran out, or one of them isn't UTF-8.
pub fn refuse_words<E: Sink>(err: &mut E, kind: ErrorKind, usage: &[u8]) -> Status
    ensures memory { kind ≡ ErrorKind.OutOfMemory → GivesUp (change_of E.written E.faults err.old err.new) result }
    ensures usage { kind ≢ ErrorKind.OutOfMemory → Says usage.now (Status.Ended Ending.Usage) (change_of E.written E.faults err.old err.new) result }
    ensures later { E.faults err.old ≤ E.faults err.new }
    ensures steady { StaysReliable (E.reliable err.old) (E.reliable err.new) (E.faults err.old) (E.faults err.new) }
{
    match kind {
        ErrorKind::OutOfMemory => give_up(err),
        _ => say(err, usage, Status::Ended(Ending::Usage)),
    }
}
