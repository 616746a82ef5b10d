// Bytes with numbers written over them.
ghost use Rattle.std.specs.Prelude.{◌≡◌, ◌≤◌, ◌<◌, ◌+◌, ◌-◌, ◌++◌, ◌∷◌, List, length, drop, IfOk};
ghost use Rattle.byteorder.specs.Endian.{little_bytes};
ghost use Rattle.dw_unit.specs.Changes.{Patch, patched};

use byteorder::{ByteOrder, LittleEndian};
use rb_bytes::fault::NoMemory;

/// Appends `bytes` from `from` up to `place`, and then the low `len` bytes of `value` in place of the next `len` bytes.
/// Returns the offset after these, from which on `bytes` isn't copied yet.
pub fn put_number(
    out: &mut Vec<u8>,
    bytes: &[u8],
    from: usize,
    place: usize,
    value: u64,
    len: usize,
) -> Result<usize, NoMemory>
    requires ascends { from ≤ place }
    requires within { place + len ≤ length bytes.now }
    requires len { len ≤ 8 }
    ensures put { IfOk result (λ to. (ps : List Patch) → out.new.items ++ patched to ps (drop to bytes.now)
        ≡ out.old.items ++ patched from (record { place = place; bytes = little_bytes len value } ∷ ps)
        (drop from bytes.now)) }
    ensures place { IfOk result (λ to. to ≡ place + len) }
{
    let (_, left) = bytes.split_at(from);
    let (kept, _) = left.split_at(place - from);
    out.extend_from_slice(kept)?;
    let mut number = [0; 8];
    LittleEndian::write_u64(&mut number, value);
    let (low, _) = number.split_at(len);
    out.extend_from_slice(low)?;
    Ok(place + len)
}
