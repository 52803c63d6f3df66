//! A sink that fails once.
ghost use Rattle.std.specs.Prelude.{Some};

use psm_io::{MemSink, Sink, SinkFault};
use std::alloc::{AllocError, Global};

/// What ends in a put.
#[derive(Clone, Copy)]
pub enum Fate {
    /// It fails, and at most n bytes of the piece are kept.
    Keeps(usize),
    /// It finds no memory.
    Memory,
}

/// A put, counted from 1, and what happens at it.
#[derive(Clone, Copy)]
pub struct Trouble {
    pub put: u32,
    pub fate: Fate,
}

/// A sink in memory, one put of which may fail or find no memory.
#[derive(Drop)]
pub struct FrailSink {
    sink: MemSink,
    /// How many puts there were, and the number of the one that finds no memory.
    puts: u64,
    short: Option<u32>,
}

impl FrailSink {
    pub fn new(alloc: Global, trouble: Option<Trouble>) -> Result<FrailSink, AllocError> {
        let mut fails = Vec::new(alloc);
        let mut short = None;
        match trouble {
            Some(
                Trouble {
                    put,
                    fate: Fate::Keeps(kept),
                },
            ) => fails.push((put, kept))?,
            Some(
                Trouble {
                    put,
                    fate: Fate::Memory,
                },
            ) => short = Some(put),
            None => {}
        }
        Ok(FrailSink {
            sink: MemSink::new(alloc, fails),
            puts: 0,
            short,
        })
    }

    /// What is written.
    pub fn bytes(&self) -> &[u8] {
        self.sink.bytes()
    }
}

impl Sink for FrailSink {
    ghost written = { λ s. Some s.sink.written };

    ghost faults = { λ s. s.sink.faults };

    fn put(&mut self, bytes: &[u8]) -> Result<(), SinkFault> {
        self.puts = self.puts.saturating_add(1);
        match self.short {
            Some(short) if u64::from(short) == self.puts => Err(SinkFault::Memory),
            _ => self.sink.put(bytes),
        }
    }
}
