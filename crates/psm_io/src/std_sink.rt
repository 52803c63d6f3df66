//! The standard output as a sink.
ghost use Rattle.std.specs.Prelude.{◌≡◌, ◌≢◌, ◌≤◌, ℕ, List, Option, None, IfNone, IfSome, ◌<◌, length, take};
ghost use Rattle.std.specs.Io.KnownBytes.{Appends, Keeps};
ghost use Rattle.psm_io.specs.Sink.{Put};
ghost use Rattle.psm_io.specs.Faults.{faults_after};
ghost use Rattle.psm_io.specs.StdSink.{Writes};

use crate::sink::{Sink, SinkFault};
use std::io;
use std::io::Write;
use std::marker::Model;

/// The standard output. What is written there is not known.
#[derive(Drop)]
pub struct StdSink<R: Print> {
    rt: R,
    faults: u64,
}

impl<R: Print> Model for StdSink<R> {
    ghost use Rattle.std.specs.Prelude.{ℕ};

    ghost Value = { ℕ };

    ghost view = { λ s. s.faults };
}

impl<R: Print> StdSink<R> {
    pub fn new(rt: R) -> StdSink<R>
        ensures { result ≡ 0 }
    {
        StdSink { rt, faults: 0 }
    }
}

impl<R: Print> Sink for StdSink<R> {
    ghost written = { λ _. None };

    ghost faults = { λ sink. sink };

    fn put(&mut self, bytes: &[u8]) -> Result<(), SinkFault>
        ensures answer { Put None None self.old self.new bytes.now result }
        ensures never_falls { self.old ≤ self.new }

        ensures faults { self.new ≡ faults_after self.old result }
        ensures no_memory { result ≢ Err SinkFault.Memory }
    {
        let put = write_whole(&mut io::writer(&self.rt), bytes);
        if put.is_err() {
            self.faults = self.faults.saturating_add(1);
        }
        put
    }
}

/// Writes until the piece is written. A write of nothing is a fault, and an empty piece makes no write.
fn write_whole<W: Write>(out: &mut W, piece: &[u8]) -> Result<(), SinkFault>
    ensures { Writes (W.contents out.old) (W.contents out.new) piece.now result }
{
    let mut rest = piece;
    while !rest.is_empty() {
        let Some(count) = write_once(out, rest) else {
            return Err(SinkFault::Failed);
        };
        rest = &rest[count..];
    }
    Ok(())
}

/// How many bytes one write took, if it took any.
fn write_once<W: Write>(out: &mut W, piece: &[u8]) -> Option<usize>
    ensures none { IfNone result (Keeps (W.contents out.old) (W.contents out.new)) }
    ensures some { IfSome result (λ n. Appends (W.contents out.old) (W.contents out.new) (take n piece.now)) }
    ensures within { IfSome result (λ n. n ≤ length piece.now) }
    ensures more { IfSome result (λ n. 0 < n) }
{
    match out.write(piece) {
        Ok(0) => None,
        Ok(count) => Some(count),
        Err(_) => None,
    }
}

#[cfg(test)]
mod tests {
    use super::*;
    use std::cell::Cell;
    use std::fmt::Display;
    use std::test::Fail;

    // Takes a few bytes at a time until its room is used, and then fails or takes nothing.
    #[derive(Drop)]
    struct Narrow {
        taken: Vec<u8>,
        step: usize,
        room: usize,
        fails: bool,
        writes: u32,
    }

    impl Write for Narrow {
        fn write(&mut self, buf: &[u8]) -> io::Result<usize> {
            self.writes = self.writes.saturating_add(1);
            let count = buf.len().min(self.step).min(self.room);
            if count == 0 && self.fails {
                return Err(io::Error::from(io::ErrorKind::BrokenPipe));
            }
            self.taken.extend_from_slice(&buf[..count])?;
            self.room -= count;
            Ok(count)
        }

        fn flush(&mut self) -> io::Result<()> {
            Ok(())
        }
    }

    #[test]
    fn a_piece_is_written_until_a_write_takes_nothing(rt: HostRuntime) -> Result<(), Fail> {
        let failed = Err(SinkFault::Failed);
        let table: [(&[u8], usize, usize, bool, Result<(), SinkFault>, &[u8], u32); 6] = [
            (b"", 2, 0, true, Ok(()), b"", 0),
            (b"abcde", 9, 9, true, Ok(()), b"abcde", 1),
            (b"abcde", 2, 5, true, Ok(()), b"abcde", 3),
            (b"abcde", 2, 4, true, failed, b"abcd", 3),
            (b"abcde", 2, 3, false, failed, b"abc", 3),
            (b"abcde", 2, 0, false, failed, b"", 1),
        ];
        for (piece, step, room, fails, want, taken, writes) in table {
            let mut out = Narrow {
                taken: Vec::new(rt.alloc()),
                step,
                room,
                fails,
                writes: 0,
            };
            assert_eq!(rt; write_whole(&mut out, piece), want);
            assert_eq!(rt; out.taken.as_slice(), taken);
            assert_eq!(rt; out.writes, writes);
        }
        Ok(())
    }

    // A standard output that takes a byte at a time, for as many bytes as it has room.
    #[derive(Drop)]
    struct Tape {
        room: Cell<u64>,
    }

    impl Print for Tape {
        fn print<D: Display + Drop>(&self, _value: D) -> io::Result<()> {
            Err(io::Error::from(io::ErrorKind::Unsupported))
        }

        fn println<D: Display + Drop>(&self, _value: D) -> io::Result<()> {
            Err(io::Error::from(io::ErrorKind::Unsupported))
        }

        fn write_all(&self, _bytes: &[u8]) -> io::Result<()> {
            Err(io::Error::from(io::ErrorKind::Unsupported))
        }

        fn write_some(&self, bytes: &[u8]) -> io::Result<usize> {
            let room = self.room.get();
            if bytes.is_empty() || room == 0 {
                return Ok(0);
            }
            self.room.set(room - 1);
            Ok(1)
        }
    }

    #[test]
    fn pieces_go_to_the_standard_output(rt: HostRuntime) -> Result<(), Fail> {
        let tape = Tape { room: Cell::new(5) };
        let mut out = StdSink::new(&tape);
        assert_eq!(rt; out.put(b"abc"), Ok(()));
        assert_eq!(rt; tape.room.get(), 2);
        assert_eq!(rt; out.put(b"abc"), Err(SinkFault::Failed));
        assert_eq!(rt; tape.room.get(), 0);
        assert_eq!(rt; StdSink::new(&rt).put(b""), Ok(()));
        Ok(())
    }
}
