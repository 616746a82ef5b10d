// A source that is read up to its end.
ghost use Rattle.std.specs.Prelude.{◌≡◌, ◌<◌, ◌≤◌, ℕ, All, [], length, take, true, false};
ghost use Rattle.std.specs.Io.KnownBytes.{prepend_known};
ghost use Rattle.rb_io.specs.CallResults.{IfBytes};
ghost use Rattle.rb_io.specs.FaultCounts.{Rose};
ghost use Rattle.run_core.specs.Inputs.{IsRightly};

use rb_io::{Got, Source};

/// Whether the end of a source was found. After that the source isn't read again: a terminal could still give bytes,
/// and then no single list of bytes would be the input of the run.
#[derive(Clone, Copy)]
pub struct InputEnd {
    pub reached: bool,
}

impl InputEnd {
    /// The end was not found yet.
    pub fn new() -> InputEnd
        ensures { result.reached ≡ false }
    {
        InputEnd { reached: false }
    }

    /// Fills a buffer from the front, piece by piece, until it is full or the source is at its end. `Failed` doesn't
    /// say how many bytes were read before the read that failed.
    pub fn fill<I: Source>(&mut self, input: &mut I, buffer: &mut [u8]) -> Got
        ensures within { IfBytes result (λ n. n ≤ length buffer.new) }
        ensures moved { IfBytes result (λ n.
            (I.seen input.old).left ≡ prepend_known (take n buffer.new) (I.seen input.new).left) }
        ensures bytes { IfBytes result (λ n. All (λ b. b < 256) (take n buffer.new)) }
        ensures none_after_end { self.old.reached ≡ true → IfBytes result (λ n. n ≡ 0) }
        ensures kept { self.old.reached ≡ true → self.new.reached ≡ true }
        ensures end { IfBytes result (λ n. n < length buffer.old → self.new.reached ≡ true) }
        ensures rightly { IsRightly self.old.reached (I.seen input.old).left →
            IsRightly self.new.reached (I.seen input.new).left }
        ensures asked { result ≡ Got.Failed → 0 < length buffer.old }
        ensures failed { result ≡ Got.Failed → Rose (I.seen input.old).faults (I.seen input.new).faults }
        ensures never_falls { (I.seen input.old).faults ≤ (I.seen input.new).faults }
    {
        if self.reached {
            return Got::Bytes(0);
        }
        let mut done = 0;
        while done < buffer.len() {
            let (_, rest) = buffer.split_at_mut(done);
            match input.read(rest) {
                Got::Bytes(0) => {
                    self.reached = true;
                    return Got::Bytes(done);
                }
                Got::Bytes(count) => done += count,
                Got::Failed => return Got::Failed,
            }
        }
        Got::Bytes(done)
    }
}
