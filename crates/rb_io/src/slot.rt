// An in-memory file, with room that is made before it is written.
ghost use Rattle.std.specs.Prelude.{◌≡◌, ◌≤◌, length, vec_capacity};

use std::alloc::{AllocError, Global};

/// Room for a number of bytes, and the bytes of a file once it is written.
#[derive(Drop)]
pub(crate) struct Slot {
    bytes: Vec<u8>,
    room: usize,
    is_written: bool,
    ghost within: { length bytes.items ≤ room },
    ghost has_room: { room ≤ vec_capacity bytes },
}

impl Slot {
    ghost use Rattle.std.specs.Prelude.{None, Some, IfOk, OnErr, OnOk, if◌then◌else◌, max, nat_le};
    ghost use Rattle.std.specs.Option.{option_copied};
    ghost use Rattle.rb_io.specs.Slot.{content_of, room_of};

    /// A file with these bytes, and with room for exactly as many.
    pub(crate) fn with_content(bytes: Vec<u8>) -> Slot
        ensures content { content_of result ≡ Some bytes.items }
        ensures room { room_of result ≡ length bytes.items }
    {
        let room = bytes.len();
        Slot {
            bytes,
            room,
            is_written: true,
        }
    }

    /// Room for a file that doesn't exist yet.
    pub(crate) fn with_room(alloc: Global, room: usize) -> Result<Slot, AllocError>
        ensures content { IfOk result (λ slot. content_of slot ≡ None) }
        ensures room { IfOk result (λ slot. room_of slot ≡ room) }
    {
        Ok(Slot {
            bytes: Vec::with_capacity(alloc, room)?,
            room,
            is_written: false,
        })
    }

    /// Makes room for at least `room` bytes. After an error nothing has changed.
    pub(crate) fn make_room(&mut self, room: usize) -> Result<(), AllocError>
        ensures content_kept { content_of self.new ≡ content_of self.old }
        ensures ok { OnOk result (room_of self.new ≡ max (room_of self.old) room) }
        ensures err { OnErr result (room_of self.new ≡ room_of self.old) }
    {
        if room > self.room {
            self.bytes.reserve_exact(room - self.bytes.len())?;
            self.room = room;
        }
        Ok(())
    }

    /// The bytes of the file, if it was written.
    pub(crate) fn content(&self) -> Option<&[u8]>
        ensures { option_copied result ≡ content_of self.now }
    {
        if self.is_written {
            Some(&self.bytes)
        } else {
            None
        }
    }

    /// Makes `bytes` the content if there is room for them. Returns whether there is.
    pub(crate) fn write(&mut self, bytes: &[u8]) -> bool
        ensures fits { result ≡ nat_le (length bytes.now) (room_of self.old) }
        ensures content { content_of self.new ≡ (if result then Some bytes.now else content_of self.old) }
        ensures room_kept { room_of self.new ≡ room_of self.old }
    {
        if bytes.len() > self.room {
            return false;
        }
        self.bytes.clear();
        self.bytes.extend_from_slice(bytes).unwrap();
        self.is_written = true;
        true
    }
}
