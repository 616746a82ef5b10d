// An in-memory source.
ghost use Rattle.std.specs.Prelude.{◌≡◌, ◌≤◌, length};

use crate::calls::Calls;
use crate::copy::copy_prefix;
use crate::source::{Got, Source};

/// Bytes in memory to read. Reads with chosen numbers fail.
#[derive(Drop)]
pub struct MemSource {
    bytes: Vec<u8>,
    place: usize,
    calls: Calls,
    ghost within: { place ≤ length bytes.items },
}

impl MemSource {
    ghost use Rattle.rb_io.specs.Calls.{no_calls};
    ghost use Rattle.rb_io.specs.MemSource.{bytes_left, calls_of};

    /// A source with these bytes. `fail` has the numbers, counted from 1, of the reads that are to fail.
    pub fn new(bytes: Vec<u8>, fail: Vec<u64>) -> MemSource
        ensures left { bytes_left result ≡ bytes.items }
        ensures calls { calls_of result ≡ no_calls fail }
    {
        MemSource {
            bytes,
            place: 0,
            calls: Calls::new(fail),
        }
    }
}

impl Source for MemSource {
    ghost use Rattle.std.specs.Prelude.{Some, ◌<◌, take, drop};
    ghost use Rattle.std.specs.Io.KnownBytes.{prepend_known, IsAtEnd};
    ghost use Rattle.rb_io.specs.CallResults.{IfBytes, got_failed};
    ghost use Rattle.rb_io.specs.Calls.{after_call};
    ghost use Rattle.rb_io.specs.FaultCounts.{Rose};
    ghost use Rattle.rb_io.specs.MemSource.{bytes_left, calls_of, read_answer};

    ghost seen = { λ s. record { left = Some (bytes_left s); faults = (calls_of s).faults } };

    fn read(&mut self, buf: &mut [u8]) -> Got
        ensures within { IfBytes result (λ n. n ≤ length buf.new) }
        ensures moved { IfBytes result
            (λ n. Some (bytes_left self.old) ≡ prepend_known (take n buf.new) (Some (bytes_left self.new))) }
        ensures end { IfBytes result (λ n. n ≡ 0 → 0 < length buf.old → IsAtEnd (Some (bytes_left self.old))) }
        ensures left_kept { result ≡ Got.Failed → Some (bytes_left self.new) ≡ Some (bytes_left self.old) }
        ensures failed { result ≡ Got.Failed → Rose (calls_of self.old).faults (calls_of self.new).faults }
        ensures never_falls { (calls_of self.old).faults ≤ (calls_of self.new).faults }
        // A read fails if its number is to fail, and only then. Otherwise it moves as many bytes as are left and fit in
        // the buffer.
        ensures answer { result ≡ read_answer self.old (length buf.old) }
        ensures calls { calls_of self.new ≡ after_call (calls_of self.old) (got_failed result) }
        ensures rest_kept { IfBytes result (λ n. drop n buf.new ≡ drop n buf.old) }
        ensures buffer_kept { result ≡ Got.Failed → buf.new ≡ buf.old }
    {
        let failed = self.calls.fails_next();
        self.calls.count(failed);
        if failed {
            return Got::Failed;
        }
        let (_, left) = self.bytes.split_at(self.place);
        let count = copy_prefix(buf, left);
        self.place += count;
        Got::Bytes(count)
    }

    fn faults(&self) -> u64 {
        self.calls.faults()
    }
}
