// In-memory files.
ghost use Rattle.std.specs.Prelude.{◌≡◌, ◌≢◌, ◌≤◌, ◌<◌, List, ℕ, Some, None, IsTrue, IsSomeAnd, [], IfOk, OnOk, OnErr};
ghost use Rattle.std.specs.Prelude.{length, max, string_bytes, true, unwrap_or, is_none};
ghost use Rattle.std.specs.Option.{option_copied};
ghost use Rattle.rb_io.specs.CallResults.{read_failed, write_failed};
ghost use Rattle.rb_io.specs.Calls.{no_calls, after_call};
ghost use Rattle.rb_io.specs.FaultCounts.{Rose};
ghost use Rattle.rb_io.specs.MemFiles.{content, room_for, calls_of, files_seen, read_fails, write_fails};
ghost use Rattle.rb_io.specs.Names.{Unchanged, UnchangedBut};
ghost use Rattle.rb_io.specs.Views.{FilesGoOn};

use crate::calls::Calls;
use crate::files::{Files, ReadAll, Wrote};
use crate::slot::Slot;
use crate::slots::{Slots, make_room, overwrite};
use rb_bytes::fault::NoMemory;
use std::alloc::Global;

/// In-memory files. Reads and writes are numbered together, from 1, and chosen numbers fail.
///
/// A write uses room that was made before, so it allocates nothing. All names, reads and writes share one count of
/// faults.
#[derive(Drop)]
pub struct MemFiles {
    slots: Slots,
    calls: Calls,
    alloc: Global,
}

impl MemFiles {
    /// No files. `fail` has the numbers of the reads and writes that are to fail.
    pub fn new(alloc: Global, fail: Vec<u64>) -> MemFiles
        ensures contents { (name : List ℕ) → content result name ≡ None }
        ensures rooms { (name : List ℕ) → room_for result name ≡ None }
        ensures calls { calls_of result ≡ no_calls fail }
    {
        MemFiles {
            slots: Slots::new(alloc),
            calls: Calls::new(fail),
            alloc,
        }
    }

    /// Sets the bytes of a file, and its room to their number. After an error nothing has changed.
    ///
    /// This call has no number.
    pub fn put(&mut self, name: String, bytes: Vec<u8>) -> Result<(), NoMemory>
        ensures content { OnOk result (content self.new (string_bytes name) ≡ Some bytes.items) }
        ensures room { OnOk result (room_for self.new (string_bytes name) ≡ Some (length bytes.items)) }
        ensures others { UnchangedBut (string_bytes name) (content self.old) (content self.new) }
        ensures other_rooms { UnchangedBut (string_bytes name) (room_for self.old) (room_for self.new) }
        ensures err { OnErr result (Unchanged (content self.old) (content self.new)) }
        ensures err_rooms { OnErr result (Unchanged (room_for self.old) (room_for self.new)) }
        ensures calls_kept { calls_of self.new ≡ calls_of self.old }
    {
        self.slots.insert(name, Slot::with_content(bytes))?;
        Ok(())
    }

    /// Makes room for at least `room` bytes under a name. No content changes.
    ///
    /// A new name has no content, so reading it fails, until it is written. This call has no number.
    pub fn prepare(&mut self, name: String, room: usize) -> Result<(), NoMemory>
        ensures contents_kept { Unchanged (content self.old) (content self.new) }
        ensures room { OnOk result
            (room_for self.new (string_bytes name) ≡ Some
            (max (unwrap_or (room_for self.old (string_bytes name)) 0) room)) }
        ensures other_rooms { UnchangedBut (string_bytes name) (room_for self.old) (room_for self.new) }
        ensures err { OnErr result (Unchanged (room_for self.old) (room_for self.new)) }
        ensures calls_kept { calls_of self.new ≡ calls_of self.old }
    {
        make_room(&mut self.slots, self.alloc, name, room)?;
        Ok(())
    }

    /// The bytes of a file, if it exists.
    pub fn content(&self, name: &str) -> Option<&[u8]>
        ensures { option_copied result ≡ content self.now name.now }
    {
        self.slots.get(name)?.content()
    }
}

impl Files for MemFiles {
    ghost seen = { λ files. files_seen files };

    fn read_all(&mut self, name: &str, limit: usize, into: &mut Vec<u8>) -> ReadAll
        ensures done { result ≡ ReadAll.Done → content self.old name.now ≡ Some into.new.items }
        ensures within_limit { result ≡ ReadAll.Done → length into.new.items ≤ limit }
        ensures too_long { result ≡ ReadAll.TooLong → IsSomeAnd (content self.old name.now)
            (λ bytes. limit < length bytes) }
        ensures failed { result ≡ ReadAll.Failed → Rose (calls_of self.old).faults (calls_of self.new).faults }
        ensures emptied { result ≢ ReadAll.Done → into.new.items ≡ [] }
        ensures contents_kept { Unchanged (content self.old) (content self.new) }
        ensures goes_on { FilesGoOn (files_seen self.old) (files_seen self.new) }
        // A read fails if its number is to fail or the file doesn't exist, and only then.
        ensures fails { read_failed result ≡ read_fails self.old name.now }
        // Only a file within the limit needs memory.
        ensures memory { result ≡ ReadAll.Memory → IsSomeAnd (content self.old name.now)
            (λ bytes. length bytes ≤ limit) }
        ensures rooms_kept { Unchanged (room_for self.old) (room_for self.new) }
        ensures calls { calls_of self.new ≡ after_call (calls_of self.old) (read_failed result) }
    {
        into.clear();
        let number_fails = self.calls.fails_next();
        let answer = if number_fails {
            ReadAll::Failed
        } else {
            read_content(self.content(name), limit, into)
        };
        self.calls.count(answer == ReadAll::Failed);
        answer
    }

    fn write_all(&mut self, name: &str, bytes: &[u8]) -> Wrote
        ensures done { result ≡ Wrote.Done → content self.new name.now ≡ Some bytes.now }
        ensures failed { result ≡ Wrote.Failed → Rose (calls_of self.old).faults (calls_of self.new).faults }
        ensures others_kept { UnchangedBut name.now (content self.old) (content self.new) }
        ensures goes_on { FilesGoOn (files_seen self.old) (files_seen self.new) }
        // A write fails if its number is to fail or the name has no room for the bytes, and only then. It then changes
        // no content.
        ensures fails { write_failed result ≡ write_fails self.old name.now (length bytes.now) }
        ensures contents_kept { result ≡ Wrote.Failed → Unchanged (content self.old) (content self.new) }
        ensures rooms_kept { Unchanged (room_for self.old) (room_for self.new) }
        ensures calls { calls_of self.new ≡ after_call (calls_of self.old) (write_failed result) }
    {
        let failed = self.calls.fails_next() || !overwrite(&mut self.slots, name, bytes);
        self.calls.count(failed);
        if failed { Wrote::Failed } else { Wrote::Done }
    }

    fn read_faults(&self, _name: &str) -> u64 {
        self.calls.faults()
    }

    fn write_faults(&self, _name: &str) -> u64 {
        self.calls.faults()
    }
}

// Copies the bytes of a file to an empty vector.
fn read_content(content: Option<&[u8]>, limit: usize, into: &mut Vec<u8>) -> ReadAll
    requires { into.old.items ≡ [] }
    ensures done { result ≡ ReadAll.Done → option_copied content.entry ≡ Some into.new.items }
    ensures within_limit { result ≡ ReadAll.Done → length into.new.items ≤ limit }
    ensures too_long { result ≡ ReadAll.TooLong → IsSomeAnd (option_copied content.entry)
        (λ bytes. limit < length bytes) }
    ensures failed { read_failed result ≡ is_none content.entry }
    ensures emptied { result ≢ ReadAll.Done → into.new.items ≡ [] }
    ensures memory { result ≡ ReadAll.Memory → IsSomeAnd (option_copied content.entry) (λ bytes. length bytes ≤ limit) }
{
    let Some(bytes) = content else {
        return ReadAll::Failed;
    };
    if bytes.len() > limit {
        return ReadAll::TooLong;
    }
    match into.extend_from_slice(bytes) {
        Ok(()) => ReadAll::Done,
        Err(_) => ReadAll::Memory,
    }
}
