// Copies bytes to a buffer.
ghost use Rattle.std.specs.Prelude.{◌≡◌, length, take, drop, min};

/// Copies the front of `bytes` to the front of `buf`, up to the shorter length, and returns the number of bytes copied.
pub(crate) fn copy_prefix(buf: &mut [u8], bytes: &[u8]) -> usize
    ensures value { result ≡ min (length buf.old) (length bytes.now) }
    ensures front { take result buf.new ≡ take result bytes.now }
    ensures rest { drop result buf.new ≡ drop result buf.old }
{
    let count = buf.len().min(bytes.len());
    buf[..count].copy_from_slice(&bytes[..count]);
    count
}
