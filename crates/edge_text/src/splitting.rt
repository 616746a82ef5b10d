// Splitting counts of more than 64 bits into several lines.
ghost use Rattle.std.specs.Prelude.{◌≡◌, ◌++◌, ◌<◌, All, IfOk, OnOk, map};
ghost use Rattle.edge_text.specs.LineCounts.{line_counts, split_counts};

use rb_bytes::fault::NoMemory;
use std::alloc::Global;

// The greatest count of a line, 2^64 - 1.
const MOST_OF_LINE: u128 = 0xffff_ffff_ffff_ffff;

/// The lines of pairs with positive counts: the two addresses and a count for each line.
pub fn split_counts(
    alloc: Global,
    pairs: &[(u64, u64, u128)],
) -> Result<Vec<(u64, u64, u128)>, NoMemory>
    requires { All (λ p. 0 < p.2) pairs.now }
    ensures { IfOk result (λ lines. lines.items ≡ split_counts pairs.now) }
{
    let mut lines = Vec::new(alloc);
    for pair in pairs {
        push_lines(&mut lines, pair.0, pair.1, pair.2)?;
    }
    Ok(lines)
}

// Appends the lines of a pair.
fn push_lines(
    lines: &mut Vec<(u64, u64, u128)>,
    from: u64,
    to: u64,
    count: u128,
) -> Result<(), NoMemory>
    requires { 0 < count }
    ensures { OnOk result (lines.new.items ≡ lines.old.items ++ map (λ n. (from, to, n)) (line_counts count)) }
{
    let full = (count - 1) / MOST_OF_LINE;
    for _ in 0..full {
        lines.push((from, to, MOST_OF_LINE))?;
    }
    lines.push((from, to, count - full * MOST_OF_LINE))?;
    Ok(())
}
