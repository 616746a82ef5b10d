// The line that `sample` prints.
ghost use Rattle.std.specs.Prelude.{◌≡◌, IfOk};
ghost use Rattle.cli_look.specs.Lines.{sample_line};

use rb_bytes::fault::NoMemory;
use rb_bytes::text::put_decimal;
use std::alloc::Global;

/// The line for the sample with this number, which was written.
pub fn sampled(alloc: Global, number: u16) -> Result<Vec<u8>, NoMemory>
    ensures { IfOk result (λ line. line.items ≡ sample_line number) }
{
    let mut line = Vec::from_slice(alloc, b"sample ")?;
    put_decimal(&mut line, number as u64)?;
    line.extend_from_slice(b"\n")?;
    Ok(line)
}
