// A sink in memory, for tests: which write fails and how many bytes a write takes is told beforehand.
ghost use Rattle.std.specs.Prelude.{◌≡◌, ◌<◌, ◌≤◌, List, ℕ, length, Some, [], IsOk, IfOk, OnOk, OnErr};
ghost use Rattle.std.specs.Io.{WritesAtMost};
ghost use Rattle.std.specs.Io.KnownBytes.{WriteAppends};
ghost use Rattle.spl_io.specs.Counts.{Rose};
ghost use Rattle.spl_io.specs.MemSink.{no_bytes, with_failing_write, fails, write_answer, after_write};

use crate::{Failed, NoMemory, Sink};
use std::alloc::Global;
use std::marker::Model;

/// A sink in memory, for tests. Writes are numbered from 0; those listed fail, and those that find the room used up.
///
/// A write takes as many bytes as the greatest piece, the bytes given and the room left allow.
#[derive(Drop)]
pub struct MemSink {
    bytes: Vec<u8>,
    piece: usize,
    room: usize,
    failing: Vec<u64>,
    writes: u64,
    faults: u64,
}

impl Model for MemSink {
    ghost use Rattle.std.specs.Prelude.{◌≤◌, length, vec_capacity};
    ghost use Rattle.spl_io.specs.MemSink.{MemSinkState};

    ghost Value = { MemSinkState };

    ghost view = { λ s. record {
      bytes = s.bytes.items;
      piece = s.piece;
      room = s.room;
      failing = s.failing.items;
      writes = s.writes;
      faults = s.faults;
    } };

    ghost invariant = { λ s. (1 ≤ s.piece) × (length s.bytes.items ≤ s.room) × (s.room ≤ vec_capacity s.bytes) };
}

impl MemSink {
    /// An empty sink with room for `room` bytes, which takes at most `piece` at once. It takes the memory of `room` bytes.
    pub fn new(alloc: Global, piece: usize, room: usize) -> Result<MemSink, NoMemory>
        requires { 1 ≤ piece }
        ensures { IfOk result (λ sink. sink ≡ no_bytes piece room) }
    {
        let bytes = Vec::with_capacity(alloc, room)?;
        Ok(MemSink {
            bytes,
            piece,
            room,
            failing: Vec::new(alloc),
            writes: 0,
            faults: 0,
        })
    }

    /// Lets the write of this number fail, counted from 0.
    pub fn fail_at(&mut self, call: u64) -> Result<(), NoMemory>
        ensures listed { OnOk result (self.new ≡ with_failing_write self.old call) }
        ensures kept { OnErr result (self.new ≡ self.old) }
    {
        self.failing.push(call)?;
        Ok(())
    }

    /// The bytes so far.
    pub fn bytes(&self) -> &[u8]
        ensures { result.now ≡ self.now.bytes }
    {
        &self.bytes
    }
}

impl Sink for MemSink {
    ghost written = { λ s. Some s.bytes };

    ghost faults = { λ s. s.faults };

    /// Takes no memory.
    fn write(&mut self, piece: &[u8]) -> Result<usize, Failed>
        requires { 0 < length piece.now }
        ensures some { IfOk result (λ count. 1 ≤ count) }
        ensures bound { WritesAtMost result piece.now }
        ensures bytes { WriteAppends (Some self.old.bytes) (Some self.new.bytes) result piece.now }
        ensures failed { OnErr result (Rose self.old.faults self.new.faults) }
        ensures faults_never_fall { self.old.faults ≤ self.new.faults }
        ensures no_failing_write { self.old.failing ≡ [] → length self.old.bytes < self.old.room → IsOk result }
        ensures exact_answer { result ≡ write_answer (fails self.old) self.old (length piece.now) }
        ensures exact_state { self.new ≡ after_write (fails self.old) self.old piece.now }
    {
        let fails = self.failing.contains(&self.writes);
        self.writes = self.writes.saturating_add(1);
        if fails {
            self.faults = self.faults.saturating_add(1);
            return Err(Failed);
        }
        let room = self.room - self.bytes.len();
        let count = self.piece.min(piece.len().min(room));
        // The memory of the whole room was taken at the start, so only a room that is used up fails here.
        if count == 0 || self.bytes.extend_from_slice(&piece[..count]).is_err() {
            self.faults = self.faults.saturating_add(1);
            return Err(Failed);
        }
        Ok(count)
    }
}
