// Appending little-endian numbers and texts to a table.
use rb_bytes::fault::NoMemory;
use rb_bytes::little::put_u32;

/// The low 32 bits of a number.
pub fn low(n: u64) -> u32 {
    (n % (1 << 32)) as u32
}

/// Appends the distance of `to` from `from`, in 32 bits.
pub fn put_distance(out: &mut Vec<u8>, to: u64, from: u64) -> Result<(), NoMemory> {
    put_u32(out, low(to.wrapping_sub(from)))
}

/// Appends a text and the zero byte that ends it.
pub fn put_text(out: &mut Vec<u8>, text: &[u8]) -> Result<(), NoMemory> {
    out.extend_from_slice(text)?;
    out.push(0)?;
    Ok(())
}

/// Appends the length of `bytes` in 32 bits, and then `bytes`.
pub fn put_unit(out: &mut Vec<u8>, bytes: &[u8]) -> Result<(), NoMemory> {
    put_u32(out, low(bytes.len() as u64))?;
    out.extend_from_slice(bytes)?;
    Ok(())
}
