// Files by name.
ghost use Rattle.std.specs.Prelude.{◌≡◌, ◌≢◌, ◌≤◌, ◌<◌, Some, length, [], IsTrue, IsSomeAnd};
ghost use Rattle.rb_io.specs.FaultCounts.{Rose};
ghost use Rattle.rb_io.specs.Names.{Unchanged, UnchangedBut};
ghost use Rattle.rb_io.specs.Views.{FilesSeen, FilesGoOn};

/// The result of reading a whole file.
#[derive(Clone, Copy, Debug, Drop)]
pub enum ReadAll {
    /// All bytes were read.
    Done,
    /// The file has more bytes than the limit.
    TooLong,
    /// The file doesn't exist or could not be read.
    Failed,
    /// Memory ran out.
    Memory,
}

/// The result of writing a whole file.
#[derive(Clone, Copy, Debug, Drop)]
pub enum Wrote {
    /// The file has exactly the given bytes.
    Done,
    /// The file could not be written, and may have any bytes.
    Failed,
}

/// A finite map from names to bytes, with a count of read faults and a count of write faults for each name.
///
/// The counts never fall, and saturate at `u64::MAX`.
pub trait Files {
    /// The map and the counts.
    ghost seen: { Self → FilesSeen };

    /// Reads all bytes of `name`, if there are at most `limit`, and replaces the bytes of `into` with them.
    ///
    /// A missing file is a read fault. `into` is empty unless the result is `Done`.
    fn read_all(&mut self, name: &str, limit: usize, into: &mut Vec<u8>) -> ReadAll
        ensures done { result ≡ ReadAll.Done → IsTrue (seen self.old).told →
            (seen self.old).content name.now ≡ Some into.new.items }
        ensures within_limit { result ≡ ReadAll.Done → length into.new.items ≤ limit }
        ensures too_long { result ≡ ReadAll.TooLong → IsTrue (seen self.old).told →
            IsSomeAnd ((seen self.old).content name.now) (λ bytes. limit < length bytes) }
        ensures failed { result ≡ ReadAll.Failed →
            Rose ((seen self.old).read_faults name.now) ((seen self.new).read_faults name.now) }
        ensures emptied { result ≢ ReadAll.Done → into.new.items ≡ [] }
        ensures contents_kept { Unchanged (seen self.old).content (seen self.new).content }
        ensures goes_on { FilesGoOn (seen self.old) (seen self.new) };

    /// Makes `bytes` the content of `name`. After `Failed` the file may have any bytes; other files are unchanged.
    fn write_all(&mut self, name: &str, bytes: &[u8]) -> Wrote
        ensures done { result ≡ Wrote.Done → IsTrue (seen self.old).told →
            (seen self.new).content name.now ≡ Some bytes.now }
        ensures failed { result ≡ Wrote.Failed →
            Rose ((seen self.old).write_faults name.now) ((seen self.new).write_faults name.now) }
        ensures others_kept { UnchangedBut name.now (seen self.old).content (seen self.new).content }
        ensures goes_on { FilesGoOn (seen self.old) (seen self.new) };

    /// The number of read faults of `name` so far.
    fn read_faults(&self, name: &str) -> u64
        ensures { result ≡ (seen self.now).read_faults name.now };

    /// The number of write faults of `name` so far.
    fn write_faults(&self, name: &str) -> u64
        ensures { result ≡ (seen self.now).write_faults name.now };
}
