// Files of the operating system.
ghost use Rattle.std.specs.Prelude.{◌≡◌, ◌≤◌, None, false, [], length};

use crate::files::{Files, ReadAll, Wrote};
use crate::whole_files::{rights_of, write_file};
use std::fs;
use std::fs::OpenFile;
use std::io::Read;

/// The files of the operating system. They are opaque: contracts see no contents. All names, reads and writes share one
/// count of faults.
///
/// A regular file, or one that doesn't exist, is written whole or not at all: as `.sudrepka-N` in its folder, which is
/// then renamed. A killed process may leave such a file behind, but never a partial file under the name it was to
/// write.
#[derive(Drop)]
pub struct HostFiles<'a, R> {
    rt: &'a R,
    faults: u64,
    // A name, and the name of another file whose permissions it gets.
    alike: Option<(&'a str, &'a str)>,
}

// The number of bytes that are read at a time.
const PIECE: usize = 65536;

impl<'a, R: std::rt::Files> HostFiles<'a, R> {
    /// The files that this runtime opens.
    pub fn new(rt: &'a R) -> Self
        ensures { result.faults ≡ 0 }
    {
        HostFiles {
            rt,
            faults: 0,
            alike: None,
        }
    }

    /// These files, except that writing `name` gives it the permissions that `like` has at that time, if the system
    /// allows it. Set-user-ID and set-group-ID bits are left out. Only regular files get permissions; a device keeps
    /// its own.
    pub fn with_permissions_of(self, like: &'a str, name: &'a str) -> Self
        ensures { result.faults ≡ self.entry.faults }
    {
        HostFiles {
            rt: self.rt,
            faults: self.faults,
            alike: Some((name, like)),
        }
    }

    // The permissions that a file is to get, if any.
    fn rights_for(&self, name: &str) -> Option<u32> {
        match self.alike {
            Some((alike, like)) if alike == name => rights_of(self.rt, like),
            _ => None,
        }
    }
}

impl<'a, R: std::rt::Files + AllocGlobal> Files for HostFiles<'a, R> {
    ghost seen = { λ files. record {
      told = false;
      content = λ name. None;
      read_faults = λ name. files.faults;
      write_faults = λ name. files.faults;
    } };

    fn read_all(&mut self, name: &str, limit: usize, into: &mut Vec<u8>) -> ReadAll {
        into.clear();
        let answer = read_file(self.rt, name, limit, into);
        if answer == ReadAll::Failed {
            self.faults = self.faults.saturating_add(1);
        }
        if answer != ReadAll::Done {
            into.clear();
        }
        answer
    }

    fn write_all(&mut self, name: &str, bytes: &[u8]) -> Wrote {
        let rights = self.rights_for(name);
        match write_file(self.rt, name, bytes, rights) {
            Ok(()) => Wrote::Done,
            Err(_) => {
                self.faults = self.faults.saturating_add(1);
                Wrote::Failed
            }
        }
    }

    fn read_faults(&self, _name: &str) -> u64 {
        self.faults
    }

    fn write_faults(&self, _name: &str) -> u64 {
        self.faults
    }
}

// How many bytes of room are made before a file is read: its size, if that is within the limit. Other files, such as
// pipes, have no size.
fn room_for<F: OpenFile>(file: &F, limit: usize) -> usize {
    match file.metadata() {
        Ok(metadata) if metadata.len() <= limit as u64 => metadata.len() as usize,
        _ => 0,
    }
}

// Reads a file piece by piece, and stops once it has more bytes than the limit.
fn read_file<R: std::rt::Files>(rt: &R, name: &str, limit: usize, into: &mut Vec<u8>) -> ReadAll
    requires { into.old.items ≡ [] }
    ensures { result ≡ ReadAll.Done → length into.new.items ≤ limit }
{
    let Ok(mut file) = fs::open(rt, name) else {
        return ReadAll::Failed;
    };
    if into.reserve_exact(room_for(&file, limit)).is_err() {
        return ReadAll::Memory;
    }
    let mut piece = [0u8; PIECE];
    // No file reaches this bound. It shows that the loop ends.
    for _ in 0..u64::MAX {
        match file.read(&mut piece) {
            Ok(0) => return ReadAll::Done,
            Ok(count) => {
                if count > limit - into.len() {
                    return ReadAll::TooLong;
                }
                if into.extend_from_slice(&piece[..count]).is_err() {
                    return ReadAll::Memory;
                }
            }
            Err(_) => return ReadAll::Failed,
        }
    }
    ReadAll::Failed
}
