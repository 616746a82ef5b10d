// Pairs of an address and a length. DWARF 5, section 6.1.2.
ghost use Rattle.std.specs.Prelude.{◌≡◌, ◌≤◌, ◌<◌, IfOk, IfErr, OnOk, Ok, Err, length};
ghost use Rattle.rb_bytes.specs.Readers.{number_read};
ghost use Rattle.dw_unit.specs.Stops.{IfTrouble};
ghost use Rattle.dw_unit.specs.Trouble.{whole};
ghost use Rattle.addr_rewrite.specs.Aranges.{pairs_within};
ghost use Rattle.addr_rewrite.specs.ArangesReading.{pair_at};

use answer_runs::Range;
use dw_unit::trouble::{Stop, Trouble};
use rb_bytes::cursor::Cursor;
use std::alloc::Global;

fn number<'a>(cursor: &mut Cursor<'a>) -> Result<u64, Trouble>
    ensures read { IfOk result (λ x. whole (number_read 8 cursor.old.left) ≡ Ok (x, cursor.new.left)) }
    ensures trouble { IfErr result (λ e. whole (number_read 8 cursor.old.left) ≡ Err e) }
    ensures on { OnOk result (length cursor.new.left < length cursor.old.left) }
{
    let number = cursor.u64()?;
    Ok(number)
}

// The next pair as a range, or none at the two zeros that end a table.
fn next_pair<'a>(cursor: &mut Cursor<'a>) -> Result<Option<Range>, Trouble>
    ensures read { IfOk result (λ o. pair_at cursor.old.left ≡ Ok (o, cursor.new.left)) }
    ensures trouble { IfErr result (λ e. pair_at cursor.old.left ≡ Err e) }
    ensures on { OnOk result (length cursor.new.left < length cursor.old.left) }
{
    let address = number(cursor)?;
    let size = number(cursor)?;
    if address == 0 && size == 0 {
        return Ok(None);
    }
    Ok(Some(Range {
        low: address,
        high: address as u128 + size as u128,
    }))
}

/// The ranges of a table, up to the two zeros that end it. These must be present.
pub fn read_pairs<'a>(alloc: Global, cursor: &mut Cursor<'a>) -> Result<Vec<Range>, Stop>
    ensures read { IfOk result (λ rs. pairs_within (length cursor.old.left) cursor.old.left ≡ Ok rs.items) }
    ensures trouble { IfTrouble result (λ e. pairs_within (length cursor.old.left) cursor.old.left ≡ Err e) }
{
    let mut ranges = Vec::new(alloc);
    'pairs: loop {
        match next_pair(cursor)? {
            Some(range) => ranges.push(range)?,
            None => return Ok(ranges),
        }
    }
}
