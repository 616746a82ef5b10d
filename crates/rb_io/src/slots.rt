// In-memory files by name.
ghost use Rattle.std.specs.Prelude.{◌≡◌, None, Some, IsTrue, IfOk, IsOk, OnOk, OnErr, length, max, unwrap_or};
ghost use Rattle.std.specs.Prelude.{string_bytes, true, false};
ghost use Rattle.rb_io.specs.MemFiles.{has_room};
ghost use Rattle.rb_io.specs.Names.{Unchanged, UnchangedBut};
ghost use Rattle.rb_io.specs.Slots.{content_at, room_at};

use crate::slot::Slot;
use std::alloc::{AllocError, Global};
use std::collections::BTreeMap;

/// The file of each name.
pub(crate) type Slots = BTreeMap<String, Slot>;

/// Makes `bytes` the content of a name if it has room for them. Returns whether it has.
pub(crate) fn overwrite(slots: &mut Slots, name: &str, bytes: &[u8]) -> bool
    ensures fits { result ≡ has_room (room_at slots.old name.now) (length bytes.now) }
    ensures written { result ≡ true → content_at slots.new name.now ≡ Some bytes.now }
    ensures others_kept { UnchangedBut name.now (content_at slots.old) (content_at slots.new) }
    ensures kept { result ≡ false → Unchanged (content_at slots.old) (content_at slots.new) }
    ensures rooms_kept { Unchanged (room_at slots.old) (room_at slots.new) }
{
    match slots.get_mut(name) {
        Some(slot) => slot.write(bytes),
        None => false,
    }
}

/// Makes room for at least `room` bytes under a name. After an error nothing has changed.
pub(crate) fn make_room(
    slots: &mut Slots,
    alloc: Global,
    name: String,
    room: usize,
) -> Result<(), AllocError>
    ensures contents_kept { Unchanged (content_at slots.old) (content_at slots.new) }
    ensures ok { OnOk result
        (room_at slots.new (string_bytes name) ≡ Some (max (unwrap_or (room_at slots.old (string_bytes name)) 0)
        room)) }
    ensures others_kept { UnchangedBut (string_bytes name) (room_at slots.old) (room_at slots.new) }
    ensures err { OnErr result (Unchanged (room_at slots.old) (room_at slots.new)) }
{
    match slots.get_mut(name.as_str()) {
        Some(slot) => slot.make_room(room),
        None => add_room(slots, alloc, name, room),
    }
}

// Adds a name that has no room yet.
fn add_room(slots: &mut Slots, alloc: Global, name: String, room: usize) -> Result<(), AllocError>
    requires { room_at slots.old (string_bytes name) ≡ None }
    ensures contents_kept { Unchanged (content_at slots.old) (content_at slots.new) }
    ensures ok { OnOk result (room_at slots.new (string_bytes name) ≡ Some room) }
    ensures others_kept { UnchangedBut (string_bytes name) (room_at slots.old) (room_at slots.new) }
    ensures err { OnErr result (Unchanged (room_at slots.old) (room_at slots.new)) }
{
    slots.insert(name, Slot::with_room(alloc, room)?)?;
    Ok(())
}
