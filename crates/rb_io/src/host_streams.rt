// Streams of the operating system.
ghost use Rattle.std.specs.Prelude.{◌≡◌, ◌≤◌, ◌<◌, None, [], length, take};
ghost use Rattle.std.specs.Io.KnownBytes.{Appends, Consumes, IsAtEnd, Keeps};
ghost use Rattle.rb_io.specs.CallResults.{IfBytes, IfTook};
ghost use Rattle.rb_io.specs.FaultCounts.{Rose};

use crate::sink::{Put, Sink};
use crate::source::{Got, Source};
use std::io::{Read, Write};

/// An input stream of the operating system. As a `Source` it is opaque.
#[derive(Drop)]
pub struct HostSource<R> {
    stream: R,
    faults: u64,
}

impl<R: Read> HostSource<R> {
    /// A source that reads `stream`.
    pub fn new(stream: R) -> Self
        ensures { result.faults ≡ 0 }
    {
        HostSource { stream, faults: 0 }
    }
}

impl<R: Read> Source for HostSource<R> {
    ghost seen = { λ source. record { left = None; faults = source.faults } };

    fn read(&mut self, buf: &mut [u8]) -> Got
        ensures within { IfBytes result (λ n. n ≤ length buf.new) }
        ensures failed { result ≡ Got.Failed → Rose self.old.faults self.new.faults }
        ensures never_falls { self.old.faults ≤ self.new.faults }
        // The bytes are consumed from the runtime's stream, as far as contracts see that stream.
        ensures passed_on { IfBytes result
            (λ n. Consumes (R.remaining self.old.stream) (R.remaining self.new.stream) (take n buf.new)) }
        ensures end { IfBytes result (λ n. n ≡ 0 → 0 < length buf.old → IsAtEnd (R.remaining self.new.stream)) }
        ensures stream_kept { result ≡ Got.Failed → Keeps (R.remaining self.old.stream) (R.remaining self.new.stream) }
    {
        match self.stream.read(buf) {
            Ok(count) => Got::Bytes(count),
            Err(_) => {
                self.faults = self.faults.saturating_add(1);
                Got::Failed
            }
        }
    }

    fn faults(&self) -> u64 {
        self.faults
    }
}

/// An output stream of the operating system. As a `Sink` it is opaque.
#[derive(Drop)]
pub struct HostSink<W> {
    stream: W,
    faults: u64,
}

impl<W: Write> HostSink<W> {
    /// A sink that writes to `stream`.
    pub fn new(stream: W) -> Self
        ensures { result.faults ≡ 0 }
    {
        HostSink { stream, faults: 0 }
    }
}

impl<W: Write> Sink for HostSink<W> {
    ghost seen = { λ sink. record { taken = None; faults = sink.faults } };

    fn write(&mut self, piece: &[u8]) -> Put
        ensures within { IfTook result (λ n. n ≤ length piece.now) }
        ensures some { IfTook result (λ n. n ≡ 0 → piece.now ≡ []) }
        ensures failed { result ≡ Put.Failed → Rose self.old.faults self.new.faults }
        ensures never_falls { self.old.faults ≤ self.new.faults }
        // The bytes taken are appended to the runtime's stream, as far as contracts see that stream.
        ensures passed_on { IfTook result
            (λ n. Appends (W.contents self.old.stream) (W.contents self.new.stream) (take n piece.now)) }
        ensures stream_kept { result ≡ Put.Failed → Keeps (W.contents self.old.stream) (W.contents self.new.stream) }
    {
        if piece.is_empty() {
            return Put::Took(0);
        }
        match self.stream.write(piece) {
            Ok(count) if count > 0 => Put::Took(count),
            _ => {
                self.faults = self.faults.saturating_add(1);
                Put::Failed
            }
        }
    }

    fn faults(&self) -> u64 {
        self.faults
    }
}
