// An in-memory sink.
ghost use Rattle.std.specs.Prelude.{◌≡◌, ◌≤◌, [], IfOk, length, vec_capacity};

use crate::calls::Calls;
use crate::sink::{Put, Sink};
use rb_bytes::fault::NoMemory;
use std::alloc::Global;

/// Takes bytes into memory that was allocated before. Writes with chosen numbers fail.
#[derive(Drop)]
pub struct MemSink {
    bytes: Vec<u8>,
    room: usize,
    calls: Calls,
    ghost within: { length bytes.items ≤ room },
    ghost has_room: { room ≤ vec_capacity bytes },
}

impl MemSink {
    ghost use Rattle.rb_io.specs.Calls.{no_calls};
    ghost use Rattle.std.specs.Prelude.{◌++◌, ◌-◌, min, take};
    ghost use Rattle.rb_io.specs.MemSink.{bytes_taken, room_left, calls_of};

    /// Allocates room for `room` bytes. `fail` has the numbers, counted from 1, of the writes that are to fail.
    pub fn new(alloc: Global, room: usize, fail: Vec<u64>) -> Result<MemSink, NoMemory>
        ensures taken { IfOk result (λ sink. bytes_taken sink ≡ []) }
        ensures room { IfOk result (λ sink. room_left sink ≡ room) }
        ensures calls { IfOk result (λ sink. calls_of sink ≡ no_calls fail) }
    {
        Ok(MemSink {
            bytes: Vec::with_capacity(alloc, room)?,
            room,
            calls: Calls::new(fail),
        })
    }

    /// The bytes taken so far.
    pub fn taken(&self) -> &[u8]
        ensures { result.now ≡ bytes_taken self.now }
    {
        &self.bytes
    }

    // Takes as many bytes as there is room for.
    fn take(&mut self, piece: &[u8]) -> usize
        ensures count { result ≡ min (length piece.now) (room_left self.old) }
        ensures taken { bytes_taken self.new ≡ bytes_taken self.old ++ take result piece.now }
        ensures room { room_left self.new ≡ room_left self.old - result }
        ensures calls_kept { calls_of self.new ≡ calls_of self.old }
    {
        let count = piece.len().min(self.room - self.bytes.len());
        let (front, _) = piece.split_at(count);
        self.bytes.extend_from_slice(front).unwrap();
        count
    }
}

impl Sink for MemSink {
    ghost use Rattle.std.specs.Prelude.{Some, take};
    ghost use Rattle.std.specs.Io.KnownBytes.{append_known};
    ghost use Rattle.rb_io.specs.CallResults.{IfTook, put_failed};
    ghost use Rattle.rb_io.specs.Calls.{after_call};
    ghost use Rattle.rb_io.specs.FaultCounts.{Rose};
    ghost use Rattle.rb_io.specs.MemSink.{bytes_taken, room_left, room_after, calls_of, write_answer};

    ghost seen = { λ s. record { taken = Some (bytes_taken s); faults = (calls_of s).faults } };

    fn write(&mut self, piece: &[u8]) -> Put
        ensures within { IfTook result (λ n. n ≤ length piece.now) }
        ensures added { IfTook result
            (λ n. Some (bytes_taken self.new) ≡ append_known (Some (bytes_taken self.old)) (take n piece.now)) }
        ensures some { IfTook result (λ n. n ≡ 0 → piece.now ≡ []) }
        ensures taken_kept { result ≡ Put.Failed → Some (bytes_taken self.new) ≡ Some (bytes_taken self.old) }
        ensures failed { result ≡ Put.Failed → Rose (calls_of self.old).faults (calls_of self.new).faults }
        ensures never_falls { (calls_of self.old).faults ≤ (calls_of self.new).faults }
        // A write fails if its number is to fail or no room is left for a piece that isn't empty, and only then.
        // Otherwise it takes as many bytes as there is room for.
        ensures answer { result ≡ write_answer self.old (length piece.now) }
        ensures room { room_left self.new ≡ room_after (room_left self.old) result }
        ensures calls { calls_of self.new ≡ after_call (calls_of self.old) (put_failed result) }
    {
        let is_full = self.bytes.len() == self.room;
        let failed = self.calls.fails_next() || is_full && !piece.is_empty();
        self.calls.count(failed);
        if failed {
            return Put::Failed;
        }
        Put::Took(self.take(piece))
    }

    fn faults(&self) -> u64 {
        self.calls.faults()
    }
}
