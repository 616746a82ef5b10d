// A sink for bytes.
ghost use Rattle.std.specs.Prelude.{◌≡◌, ◌≤◌, length, take, []};
ghost use Rattle.std.specs.Io.KnownBytes.{append_known};
ghost use Rattle.rb_io.specs.FaultCounts.{Rose};
ghost use Rattle.rb_io.specs.CallResults.{IfTook};
ghost use Rattle.rb_io.specs.Views.{SinkSeen};

/// The result of a write.
#[derive(Clone, Copy, PartialEq, Eq, Debug, Drop)]
pub enum Put {
    /// This number of bytes from the front of the piece were taken.
    Took(usize),
    /// The write failed, and no byte was taken.
    Failed,
}

/// Takes bytes, with a count of faults that never falls and saturates at `u64::MAX`.
pub trait Sink {
    /// The bytes taken so far, if the sink is transparent, and the number of faults so far.
    ghost seen: { Self → SinkSeen };

    /// Takes bytes from the front of `piece`, at least one unless `piece` is empty. If the sink takes none, that is a
    /// fault.
    fn write(&mut self, piece: &[u8]) -> Put
        ensures within { IfTook result (λ n. n ≤ length piece.now) }
        ensures added { IfTook result (λ n. (seen self.new).taken ≡ append_known (seen self.old).taken
            (take n piece.now)) }
        ensures some { IfTook result (λ n. n ≡ 0 → piece.now ≡ []) }
        ensures taken_kept { result ≡ Put.Failed → (seen self.new).taken ≡ (seen self.old).taken }
        ensures failed { result ≡ Put.Failed → Rose (seen self.old).faults (seen self.new).faults }
        ensures never_falls { (seen self.old).faults ≤ (seen self.new).faults };

    /// The number of faults so far.
    fn faults(&self) -> u64
        ensures { result ≡ (seen self.now).faults };
}
