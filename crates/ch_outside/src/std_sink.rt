ghost use Rattle.std.specs.Prelude.{◌≡◌, ◌≤◌, None, MatchResult};
ghost use Rattle.std.specs.Io.KnownBytes.{Appends};
ghost use Rattle.ch_outside.specs.Faults.{StaysReliable, one_more};
ghost use Rattle.ch_outside.specs.Sink.{Puts};

use crate::sink::{Sink, SinkError};
use std::io::{Stderr, Stdout, Write};
use std::marker::Model;

#[derive(Drop)]
enum Stream {
    Out(Stdout),
    Error(Stderr),
}

/// A standard stream of the system, which doesn't tell what was written.
#[derive(Drop)]
pub struct StdSink {
    stream: Stream,
    faults: u64,
}

/// Contracts see the count of its faults.
impl Model for StdSink {
    ghost use Rattle.std.specs.Prelude.{ℕ};

    ghost Value = { ℕ };

    ghost view = { λ s. s.faults };
}

impl StdSink {
    /// The standard output.
    pub fn out(rt: &HostRuntime) -> StdSink
        ensures { result ≡ 0 }
    {
        StdSink {
            stream: Stream::Out(rt.stdout()),
            faults: 0,
        }
    }

    /// The standard error.
    pub fn err(rt: &HostRuntime) -> StdSink
        ensures { result ≡ 0 }
    {
        StdSink {
            stream: Stream::Error(rt.stderr()),
            faults: 0,
        }
    }
}

/// Writes the piece whole. A stream that takes nothing of what is left has failed.
fn write_whole<W: Write>(stream: &mut W, piece: &[u8]) -> Result<(), SinkError>
    ensures { MatchResult result
        (λ _. Appends (W.contents stream.old) (W.contents stream.new) piece.now)
        (λ e. e ≡ SinkError.Failed) }
{
    match stream.write_all(piece) {
        Ok(()) => Ok(()),
        Err(_) => Err(SinkError::Failed),
    }
}

impl Sink for StdSink {
    ghost written = { λ _. None };

    ghost faults = { λ s. s };

    ghost reliable = { λ _. ⊥ };

    fn put(&mut self, piece: &[u8]) -> Result<(), SinkError>
        ensures later { self.old ≤ self.new }
        ensures steady { StaysReliable ⊥ ⊥ self.old self.new }
        ensures puts { Puts None None piece.now self.old self.new result }
        ensures counted { MatchResult result (λ _. self.new ≡ self.old)
            (λ e. (e ≡ SinkError.Failed) × (self.new ≡ one_more self.old)) }
    {
        let answer = match &mut self.stream {
            Stream::Out(stream) => write_whole(stream, piece),
            Stream::Error(stream) => write_whole(stream, piece),
        };
        if answer.is_err() {
            self.faults = self.faults.saturating_add(1);
        }
        answer
    }
}

#[cfg(test)]
mod tests {
    use super::*;
    use std::io;

    /// A stream that takes two bytes at a time, and nothing once its room is used up.
    #[derive(Drop)]
    struct Narrow {
        room: usize,
    }

    impl Write for Narrow {
        fn write(&mut self, buf: &[u8]) -> io::Result<usize> {
            let taken = self.room.min(buf.len()).min(2);
            self.room -= taken;
            Ok(taken)
        }

        fn flush(&mut self) -> io::Result<()> {
            Ok(())
        }
    }

    /// How much a stream takes, and whether a piece of five bytes is put.
    const ROOMS: &[(usize, bool)] = &[(5, true), (4, false), (0, false)];

    #[test]
    fn a_stream_that_takes_nothing_has_failed(rt: HostRuntime) {
        for (room, put) in ROOMS {
            let answer = write_whole(&mut Narrow { room: *room }, b"a,b\n\n");
            assert_eq!(rt; answer.is_ok(), *put, "room {room}");
        }
        assert_eq!(rt; write_whole(&mut Narrow { room: 0 }, b""), Ok(()));
    }
}
