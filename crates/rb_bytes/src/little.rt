// Appends numbers of a fixed width in little-endian order.
ghost use Rattle.std.specs.Prelude.{◌≡◌, ◌++◌, OnOk};
ghost use Rattle.byteorder.specs.Endian.{little_bytes};

use crate::fault::NoMemory;

/// Appends a number as one byte.
pub fn put_u8(out: &mut Vec<u8>, n: u8) -> Result<(), NoMemory>
    ensures { OnOk result (out.new.items ≡ out.old.items ++ little_bytes 1 n) }
{
    out.extend_from_slice(&n.to_le_bytes())?;
    Ok(())
}

/// Appends a number as two bytes, little-endian.
pub fn put_u16(out: &mut Vec<u8>, n: u16) -> Result<(), NoMemory>
    ensures { OnOk result (out.new.items ≡ out.old.items ++ little_bytes 2 n) }
{
    out.extend_from_slice(&n.to_le_bytes())?;
    Ok(())
}

/// Appends a number as four bytes, little-endian.
pub fn put_u32(out: &mut Vec<u8>, n: u32) -> Result<(), NoMemory>
    ensures { OnOk result (out.new.items ≡ out.old.items ++ little_bytes 4 n) }
{
    out.extend_from_slice(&n.to_le_bytes())?;
    Ok(())
}

/// Appends a number as eight bytes, little-endian.
pub fn put_u64(out: &mut Vec<u8>, n: u64) -> Result<(), NoMemory>
    ensures { OnOk result (out.new.items ≡ out.old.items ++ little_bytes 8 n) }
{
    out.extend_from_slice(&n.to_le_bytes())?;
    Ok(())
}
