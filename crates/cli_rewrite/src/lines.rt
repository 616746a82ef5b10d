// The summary of a rewrite.
ghost use Rattle.std.specs.Prelude.{◌≡◌, ◌++◌, IfOk};
ghost use Rattle.bolt_core.specs.RewriteCounts.{counts_seen};
ghost use Rattle.cli_rewrite.specs.Lines.{summary_line};

use bolt_core::Rewritten;
use rb_bytes::fault::NoMemory;
use rb_bytes::text::put_decimal;
use std::alloc::Global;

/// The line for a file that was rewritten.
pub fn moved(alloc: Global, rewritten: &Rewritten) -> Result<Vec<u8>, NoMemory>
    ensures { IfOk result (λ line. line.items ≡ summary_line (counts_seen rewritten.now)) }
{
    let mut line = Vec::from_slice(alloc, b"moved ")?;
    put_decimal(&mut line, rewritten.functions)?;
    line.extend_from_slice(b" functions, ")?;
    put_decimal(&mut line, rewritten.instructions)?;
    line.extend_from_slice(b" instructions, ")?;
    put_decimal(&mut line, rewritten.bytes)?;
    line.extend_from_slice(b" bytes; ")?;
    put_decimal(&mut line, rewritten.hot)?;
    line.extend_from_slice(b" hot blocks; ")?;
    put_decimal(&mut line, rewritten.ignored)?;
    line.extend_from_slice(b" profile lines ignored\n")?;
    Ok(line)
}
