// The abbreviation offsets of units.
ghost use Rattle.std.specs.Prelude.{◌≡◌, ◌==◌, ℕ, IfOk};
ghost use Rattle.std.specs.List.{list_any};
ghost use Rattle.std.specs.List.Sorted.{IsStrictlyIncreasing};
ghost use Rattle.dw_unit.specs.NamedOffsets.{offset_of, is_named_by};

use crate::header::header;
use rb_bytes::cursor::Cursor;
use rb_bytes::fault::NoMemory;
use std::alloc::Global;
use table_core::DebugUnit;

// A unit's abbreviation offset, if its header can be read.
fn offset_of(unit: &DebugUnit<'_>) -> Option<u64>
    ensures { result ≡ offset_of unit.now }
{
    let bytes = unit.bytes?;
    let mut cursor = Cursor::new(bytes);
    header(&mut cursor).ok()
}

fn all_offsets(alloc: Global, units: &[DebugUnit<'_>]) -> Result<Vec<u64>, NoMemory>
    ensures { IfOk result (λ os. (q : ℕ) → list_any (λ o. o == q) os.items ≡ is_named_by q units.now) }
{
    let mut offsets = Vec::new(alloc);
    for unit in units {
        if let Some(offset) = offset_of(unit) {
            offsets.push(offset)?;
        }
    }
    Ok(offsets)
}

/// The abbreviation offsets of units, ascending, each once.
pub fn abbrev_offsets(alloc: Global, units: &[DebugUnit<'_>]) -> Result<Vec<u64>, NoMemory>
    ensures rising { IfOk result (λ os. IsStrictlyIncreasing os.items) }
    ensures named { IfOk result (λ os. (q : ℕ) → list_any (λ o. o == q) os.items ≡ is_named_by q units.now) }
{
    let mut offsets = all_offsets(alloc, units)?;
    offsets.sort_unstable();
    offsets.dedup();
    Ok(offsets)
}
