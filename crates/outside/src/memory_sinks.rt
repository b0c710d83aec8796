// The sinks in memory.
ghost use Rattle.std.specs.Prelude.{◌≡◌, [], IfOk, OnOk, OnErr, is_ok, IsOk};
ghost use Rattle.outside.specs.MemorySinks.{output_of, takes_whole, after_put};
ghost use Rattle.outside.specs.MemorySinks.{sure_output_of, after_sure_put};
ghost use Rattle.outside.specs.SinkRules.{Adds, AddsPart};

use super::cut_list::CutList;
use super::sink::{Sink, SinkFault};
use f8_spec::Memory;
use std::alloc::Global;
use std::marker::Model;

/// A sink in memory that can fail: at the calls that are listed, once a first part of the piece went out, and where its room is full.
///
/// Contracts see its bytes, its room, the calls that are to fail, the number of calls and the count of faults.
#[derive(Drop)]
pub struct MemSink {
    bytes: Vec<u8>,
    room: usize,
    failing: CutList,
    calls: u64,
    faults: u64,
}

impl Model for MemSink {
    ghost use Rattle.std.specs.Prelude.{◌≤◌, vec_len, vec_capacity};
    ghost use Rattle.outside.specs.MemorySinks.{KeptBytes};

    ghost Value = { KeptBytes };

    ghost view = { λ s. record {
      bytes = s.bytes.items;
      room = s.room;
      failing = s.failing;
      calls = s.calls;
      faults = s.faults;
    } };

    ghost invariant = { λ s. (vec_len s.bytes ≤ s.room) × (s.room ≤ vec_capacity s.bytes) };
}

impl MemSink {
    /// An empty sink with room for `room` bytes, which is reserved at once, and the calls that are to fail.
    pub fn new(alloc: Global, room: u32, failing: CutList) -> Result<MemSink, Memory>
        ensures { IfOk result (λ sink.
            sink ≡ record { bytes = []; room = room; failing = failing; calls = 0; faults = 0 }) }
    {
        let room = room as usize;
        match Vec::with_capacity(alloc, room) {
            Ok(bytes) => Ok(MemSink {
                bytes,
                room,
                failing,
                calls: 0,
                faults: 0,
            }),
            Err(_) => Err(Memory),
        }
    }

    /// The bytes that were written.
    pub fn bytes(&self) -> &[u8]
        ensures { result.now ≡ self.now.bytes }
    {
        self.bytes.as_slice()
    }
}

impl Sink for MemSink {
    ghost output = { λ s. output_of s };

    fn put(&mut self, piece: &[u8]) -> Result<(), SinkFault>
        ensures ok { OnOk result (Adds (output_of self.old) (output_of self.new) piece.now) }
        ensures err { OnErr result (AddsPart (output_of self.old) (output_of self.new) piece.now) }
        ensures outcome { is_ok result ≡ takes_whole self.old piece.now }
        ensures after { self.new ≡ after_put self.old piece.now }
    {
        self.calls = self.calls.saturating_add(1);
        let left = self.room - self.bytes.len();
        let most = match self.failing.sent_at(self.calls) {
            Some(sent) => left.min(sent as usize),
            None if piece.len() <= left => {
                let _ = self.bytes.extend_from_slice(piece);
                return Ok(());
            }
            None => left,
        };
        let sent = piece.split_at(most.min(piece.len())).0;
        let _ = self.bytes.extend_from_slice(sent);
        self.faults = self.faults.saturating_add(1);
        Err(SinkFault)
    }
}

/// A sink in memory that never fails. Past its room it only counts bytes, and no longer tells what was written.
///
/// Contracts see its bytes, its room and the number of bytes that it didn't keep.
#[derive(Drop)]
pub struct SureSink {
    bytes: Vec<u8>,
    room: usize,
    lost: u64,
}

impl Model for SureSink {
    ghost use Rattle.std.specs.Prelude.{◌≤◌, vec_len, vec_capacity};
    ghost use Rattle.outside.specs.MemorySinks.{SureBytes};

    ghost Value = { SureBytes };

    ghost view = { λ s. record { bytes = s.bytes.items; room = s.room; lost = s.lost } };

    ghost invariant = { λ s. (vec_len s.bytes ≤ s.room) × (s.room ≤ vec_capacity s.bytes) };
}

impl SureSink {
    /// An empty sink with room for `room` bytes, which is reserved at once.
    pub fn new(alloc: Global, room: u32) -> Result<SureSink, Memory>
        ensures { IfOk result (λ sink. sink ≡ record { bytes = []; room = room; lost = 0 }) }
    {
        let room = room as usize;
        match Vec::with_capacity(alloc, room) {
            Ok(bytes) => Ok(SureSink {
                bytes,
                room,
                lost: 0,
            }),
            Err(_) => Err(Memory),
        }
    }

    /// The bytes that were kept.
    pub fn bytes(&self) -> &[u8]
        ensures { result.now ≡ self.now.bytes }
    {
        self.bytes.as_slice()
    }
}

impl Sink for SureSink {
    ghost output = { λ s. sure_output_of s };

    fn put(&mut self, piece: &[u8]) -> Result<(), SinkFault>
        ensures ok { OnOk result
            (Adds (sure_output_of self.old) (sure_output_of self.new) piece.now) }
        ensures err { OnErr result
            (AddsPart (sure_output_of self.old) (sure_output_of self.new) piece.now) }
        ensures outcome { IsOk result }
        ensures after { self.new ≡ after_sure_put self.old piece.now }
    {
        if self.lost == 0 && piece.len() <= self.room - self.bytes.len() {
            let _ = self.bytes.extend_from_slice(piece);
        } else {
            self.lost = self.lost.saturating_add(piece.len() as u64);
        }
        Ok(())
    }
}
