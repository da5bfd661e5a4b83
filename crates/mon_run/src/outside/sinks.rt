// Sinks: in memory, and the standard output.
ghost use Rattle.std.specs.Prelude.{◌≡◌, [], None, Some};
ghost use Rattle.mon_run.specs.Outside.{sink_state};

use crate::outside::sink::{Failed, Sink};
use std::alloc::Global;
use std::io::Print;

/// A sink in memory that tells what was written. It has room for a number of bytes, and fails from
/// then on.
#[derive(Drop)]
pub struct MemorySink {
    written: Vec<u8>,
    room: usize,
    faults: u64,
}

impl MemorySink {
    /// A sink with room for this many bytes.
    pub fn new(alloc: Global, room: usize) -> MemorySink
        ensures nothing { ⟦<MemorySink as Sink>⟧.state result ≡ sink_state (Some []) 0 }
    {
        MemorySink {
            written: Vec::new(alloc),
            room,
            faults: 0,
        }
    }

    /// The bytes that were written.
    pub fn written(&self) -> &[u8]
        ensures written { Some result.now ≡ (⟦<MemorySink as Sink>⟧.state self.now).written }
    {
        self.written.as_slice()
    }

    /// How many writes failed.
    pub fn faults(&self) -> u64
        ensures faults { result ≡ (⟦<MemorySink as Sink>⟧.state self.now).faults }
    {
        self.faults
    }
}

impl Sink for MemorySink {
    ghost use Rattle.std.specs.Prelude.{Some};
    ghost use Rattle.mon_run.specs.Outside.{sink_state};

    ghost state = { λ sink. sink_state (Some sink.written.items) sink.faults };

    fn write(&mut self, piece: &[u8]) -> Result<usize, Failed> {
        let taken = piece.len().min(self.room);
        let (front, _) = piece.split_at(taken);
        if taken == 0 || self.written.extend_from_slice(front).is_err() {
            self.faults = self.faults.saturating_add(1);
            return Err(Failed);
        }
        self.room -= taken;
        Ok(taken)
    }
}

/// The standard output. It tells nothing of what was written.
#[derive(Drop)]
pub struct OutSink<'a, P: Print> {
    output: &'a P,
    faults: u64,
}

impl<'a, P: Print> OutSink<'a, P> {
    /// The output of a system.
    pub fn new(output: &'a P) -> OutSink<'a, P>
        ensures fresh { ⟦<OutSink<'a, P> as Sink>⟧.state result ≡ sink_state None 0 }
    {
        OutSink { output, faults: 0 }
    }
}

impl<'a, P: Print> Sink for OutSink<'a, P> {
    ghost use Rattle.std.specs.Prelude.{None};
    ghost use Rattle.mon_run.specs.Outside.{sink_state};

    ghost state = { λ sink. sink_state None sink.faults };

    fn write(&mut self, piece: &[u8]) -> Result<usize, Failed> {
        match self.output.write_some(piece) {
            Ok(taken) if taken > 0 => Ok(taken),
            _ => {
                self.faults = self.faults.saturating_add(1);
                Err(Failed)
            }
        }
    }
}
