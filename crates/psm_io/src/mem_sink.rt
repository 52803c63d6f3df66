//! Memory as a sink, some of whose calls fail.
ghost use Rattle.std.specs.Prelude.{◌≡◌, ◌≤◌, ℕ, List, [], ◌++◌, Option, Some, ◌⊎◌};
ghost use Rattle.psm_io.specs.Sink.{Put};
ghost use Rattle.psm_io.specs.Count.{next_count};
ghost use Rattle.psm_io.specs.Faults.{faults_after};
ghost use Rattle.psm_io.specs.MemSink.{kept_next, listed_at, expected_put, appended};

use crate::sink::{Sink, SinkFault};
use std::alloc::Global;
use std::marker::Model;

/// A sink in memory, some of whose calls fail.
#[derive(Debug, Drop)]
pub struct MemSink {
    written: Vec<u8>,
    fails: Vec<(u32, usize)>,
    calls: u64,
    faults: u64,
}

impl Model for MemSink {
    ghost use Rattle.psm_io.specs.MemSink.{Sunk};

    ghost Value = { Sunk };

    ghost view = { λ s. record {
      written = s.written.items;
      fails = s.fails.items;
      calls = s.calls;
      faults = s.faults;
    } };
}

impl MemSink {
    /// An empty sink. A call whose number is listed, counted from 1, fails and keeps that many bytes
    /// of its piece, or the whole piece if it is shorter. The first entry of a number counts.
    pub fn new(alloc: Global, fails: Vec<(u32, usize)>) -> MemSink
        ensures written { result.written ≡ [] }
        ensures fails { result.fails ≡ fails.items }
        ensures calls { result.calls ≡ 0 }
        ensures faults { result.faults ≡ 0 }
    {
        MemSink {
            written: Vec::new(alloc),
            fails,
            calls: 0,
            faults: 0,
        }
    }

    /// What is written.
    pub fn bytes(&self) -> &[u8]
        ensures { result.now ≡ self.now.written }
    {
        self.written.as_slice()
    }
}

impl Sink for MemSink {
    ghost written = { λ sink. Some sink.written };

    ghost faults = { λ sink. sink.faults };

    fn put(&mut self, bytes: &[u8]) -> Result<(), SinkFault>
        ensures answer { Put (Some self.old.written) (Some self.new.written)
            self.old.faults self.new.faults bytes.now result }
        ensures never_falls { self.old.faults ≤ self.new.faults }

        ensures expected { (result ≡ expected_put (kept_next self.old)) ⊎ (result ≡ Err SinkFault.Memory) }
        ensures written { self.new.written ≡ self.old.written ++ appended (kept_next self.old) bytes.now result }
        ensures fails { self.new.fails ≡ self.old.fails }
        ensures calls { self.new.calls ≡ next_count self.old.calls }
        ensures faults { self.new.faults ≡ faults_after self.old.faults result }
        ensures no_rise { self.old.fails ≡ [] → self.new.faults ≡ self.old.faults }
    {
        self.calls = self.calls.saturating_add(1);
        let kept = kept_at(&self.fails, self.calls);
        let piece = prefix(bytes, kept);
        if self.written.extend_from_slice(piece).is_err() {
            return Err(SinkFault::Memory);
        }
        match kept {
            None => Ok(()),
            Some(_) => {
                self.faults = self.faults.saturating_add(1);
                Err(SinkFault::Failed)
            }
        }
    }
}

/// How many bytes the call of that number keeps, if it is to fail.
fn kept_at(fails: &[(u32, usize)], call: u64) -> Option<usize>
    ensures { result ≡ listed_at call fails.now }
{
    fails
        .iter()
        .find(|entry| u64::from(entry.0) == call)
        .map(|entry| entry.1)
}

/// That many bytes of the piece, or all of it.
fn prefix(piece: &[u8], kept: Option<usize>) -> &[u8]
    ensures { result.now ≡ appended kept piece.now (expected_put kept) }
{
    match kept {
        Some(kept) if kept < piece.len() => &piece[..kept],
        _ => piece,
    }
}
