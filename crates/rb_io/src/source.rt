// A source of bytes.
ghost use Rattle.std.specs.Prelude.{◌≡◌, ◌≤◌, ◌<◌, length, take};
ghost use Rattle.std.specs.Io.KnownBytes.{prepend_known, IsAtEnd};
ghost use Rattle.rb_io.specs.FaultCounts.{Rose};
ghost use Rattle.rb_io.specs.CallResults.{IfBytes};
ghost use Rattle.rb_io.specs.Views.{SourceSeen};

/// The result of a read.
#[derive(Clone, Copy, PartialEq, Eq, Drop)]
pub enum Got {
    /// This number of bytes were put at the front of the buffer.
    Bytes(usize),
    /// The read failed, and took no byte.
    Failed,
}

/// Bytes that are read once, with a count of faults that never falls and saturates at `u64::MAX`.
pub trait Source {
    /// The bytes left, if the source is transparent, and the number of faults so far.
    ghost seen: { Self → SourceSeen };

    /// Moves the next bytes to the front of `buf`: at least one, unless the input is at its end or `buf` is empty.
    fn read(&mut self, buf: &mut [u8]) -> Got
        ensures within { IfBytes result (λ n. n ≤ length buf.new) }
        ensures moved { IfBytes result (λ n. (seen self.old).left ≡ prepend_known (take n buf.new)
            (seen self.new).left) }
        ensures end { IfBytes result (λ n. n ≡ 0 → 0 < length buf.old → IsAtEnd (seen self.old).left) }
        ensures left_kept { result ≡ Got.Failed → (seen self.new).left ≡ (seen self.old).left }
        ensures failed { result ≡ Got.Failed → Rose (seen self.old).faults (seen self.new).faults }
        ensures never_falls { (seen self.old).faults ≤ (seen self.new).faults };

    /// The number of faults so far.
    fn faults(&self) -> u64
        ensures { result ≡ (seen self.now).faults };
}
