//! The files of the system as a shelf.
ghost use Rattle.std.specs.Prelude.{◌≡◌, ◌≢◌, ◌≤◌, ℕ, List, [], ◌++◌, Option, None, IfOk, length};
ghost use Rattle.std.specs.Io.KnownBytes.{Consumes, IsAtEnd};
ghost use Rattle.psm_io.specs.Shelf.{Fetched};
ghost use Rattle.psm_io.specs.Failures.{times, names_after};
ghost use Rattle.psm_io.specs.FileShelf.{Added, Reads};

use crate::failures::Failures;
use crate::shelf::{Shelf, ShelfFault};
use std::alloc::Global;
use std::fs;
use std::io::Read;
use std::marker::Model;
use std::rt::Files;

/// How many bytes one read asks for at most.
const PIECE: usize = 16384;

/// The files of the system. What they hold is not known.
#[derive(Drop)]
pub struct FileShelf<R: Files> {
    rt: R,
    failed: Failures,
}

impl<R: Files> Model for FileShelf<R> {
    ghost use Rattle.std.specs.Prelude.{ℕ, List};

    ghost Value = { List (List ℕ) };

    ghost view = { λ s. s.failed };
}

impl<R: Files> FileShelf<R> {
    pub fn new(rt: R, alloc: Global) -> FileShelf<R>
        ensures { result ≡ [] }
    {
        FileShelf {
            rt,
            failed: Failures::new(alloc),
        }
    }
}

impl<R: Files> Shelf for FileShelf<R> {
    ghost held = { λ _ _. None };

    ghost faults = { λ shelf name. times name shelf };

    fn fetch(&mut self, alloc: Global, name: &str, most: usize) -> Result<Vec<u8>, ShelfFault>
        ensures answer { Fetched None most (times name.now self.old) (times name.now self.new) result }
        ensures never_falls { times name.now self.old ≤ times name.now self.new }
        ensures others { (n : List ℕ) → n ≢ name.now → times n self.new ≡ times n self.old }

        ensures failed { self.new ≡ names_after self.old name.now result }
    {
        match read_file(&self.rt, alloc, name, most) {
            Err(ShelfFault::Failed) => Err(self.failed.keep(alloc, name)),
            answer => answer,
        }
    }
}

/// The bytes of the file of that name.
fn read_file<R: Files>(
    rt: &R,
    alloc: Global,
    name: &str,
    most: usize,
) -> Result<Vec<u8>, ShelfFault>
    ensures { Reads None most result }
{
    match fs::open(rt, name) {
        Ok(mut file) => read_at_most(&mut file, alloc, most),
        Err(_) => Err(ShelfFault::Failed),
    }
}

/// What the reader has left, if that is at most n bytes. One byte more is read to see that.
fn read_at_most<F: Read>(file: &mut F, alloc: Global, most: usize) -> Result<Vec<u8>, ShelfFault>
    ensures { Reads (F.remaining file.old) most result }
{
    let mut piece = [0u8; PIECE];
    let mut bytes = Vec::new(alloc);
    loop {
        let room = most - bytes.len();
        let asked = room.saturating_add(1).min(PIECE);
        if append_piece(file, &mut piece[..asked], &mut bytes)? == 0 {
            return Ok(bytes);
        }
        if bytes.len() > most {
            return Err(ShelfFault::TooLong {
                length: bytes.len() as u64,
            });
        }
    }
}

/// Appends what one read gives, and answers how many bytes that is.
fn append_piece<F: Read>(
    file: &mut F,
    piece: &mut [u8],
    bytes: &mut Vec<u8>,
) -> Result<usize, ShelfFault>
    ensures { Added (F.remaining file.old) (F.remaining file.new) bytes.old.items bytes.new.items (length piece.old) result }
{
    let Ok(count) = file.read(piece) else {
        return Err(ShelfFault::Failed);
    };
    if bytes.extend_from_slice(&piece[..count]).is_err() {
        return Err(ShelfFault::Memory);
    }
    Ok(count)
}

#[cfg(test)]
mod tests {
    use super::*;
    use std::test::Fail;
    use std::{env, io, process};

    // Gives a few bytes at a time, and fails where its last byte should come, if it is to fail.
    #[derive(Drop)]
    struct Trickle<'a> {
        bytes: &'a [u8],
        step: usize,
        fails: bool,
    }

    impl Read for Trickle<'_> {
        fn read(&mut self, buf: &mut [u8]) -> io::Result<usize> {
            let count = self.step.min(buf.len()).min(self.bytes.len());
            if self.fails && count == self.bytes.len() {
                return Err(io::Error::from(io::ErrorKind::Other));
            }
            buf[..count].copy_from_slice(&self.bytes[..count]);
            self.bytes = &self.bytes[count..];
            Ok(count)
        }
    }

    #[test]
    fn no_more_than_one_byte_too_many_is_read(rt: HostRuntime) -> Result<(), Fail> {
        let too_long = |length: u64| Err(ShelfFault::TooLong { length });
        let table: [(&[u8], usize, bool, usize, Result<usize, ShelfFault>); 7] = [
            (b"", 3, false, 0, Ok(0)),
            (b"abcdefg", 3, false, 7, Ok(7)),
            (b"abcdefg", 3, false, usize::MAX, Ok(7)),
            (b"abcdefg", 3, false, 6, too_long(7)),
            (b"abcdefg", 9, false, 0, too_long(1)),
            (b"abcdefg", 2, true, 9, Err(ShelfFault::Failed)),
            (b"abcdefg", 2, true, 5, too_long(6)),
        ];
        for (bytes, step, fails, most, want) in table {
            let mut reader = Trickle { bytes, step, fails };
            let got = read_at_most(&mut reader, rt.alloc(), most);
            if let Ok(read) = &got {
                assert_eq!(rt; read.as_slice(), bytes);
            }
            assert_eq!(rt;
                got.map(|read| read.len()),
                want,
                "{most} of {step} at a time"
            );
        }
        Ok(())
    }

    #[test]
    fn a_file_is_read_and_an_absent_one_is_a_fault(rt: HostRuntime) -> Result<(), Fail> {
        let id = process::id(rt.process());
        let mut path = env::temp_dir(&rt)?;
        path.push(format!(in rt.alloc(); "psm_io_{id}")?.as_str())?;
        fs::write(&rt, path.as_str(), "three lines\n\n\n")?;
        let mut shelf = FileShelf::new(&rt, rt.alloc());
        let whole = shelf.fetch(rt.alloc(), path.as_str(), 14);
        let most = shelf.fetch(rt.alloc(), path.as_str(), usize::MAX);
        let long = shelf.fetch(rt.alloc(), path.as_str(), 13);
        fs::remove_file(&rt, path.as_str())?;
        let absent = shelf.fetch(rt.alloc(), path.as_str(), 14);
        assert_eq!(rt; whole?.as_slice(), b"three lines\n\n\n".as_slice());
        assert_eq!(rt; most?.len(), 14);
        assert_eq!(rt; long.err(), Some(ShelfFault::TooLong { length: 14 }));
        assert_eq!(rt; absent.err(), Some(ShelfFault::Failed));
        Ok(())
    }
}
