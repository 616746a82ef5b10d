// The lines of the report on the expressions that are in force at the address.
ghost use Rattle.std.specs.Prelude.{◌≡◌, ◌++◌, OnOk, flat_map, map};
ghost use Rattle.lookup_core.specs.Report.{expression_text, place_line, places_lines};
ghost use Rattle.range_loc_rewrite.specs.Locations.{place_said};

use crate::texts::put_bytes;
use range_loc_rewrite::PlaceAt;
use rb_bytes::fault::NoMemory;
use rb_bytes::text::put_hex;

fn put_expression(text: &mut Vec<u8>, x: &[u8]) -> Result<(), NoMemory>
    ensures { OnOk result (text.new.items ≡ text.old.items ++ expression_text x.now) }
{
    if x.is_empty() {
        text.push(b'-')?;
        return Ok(());
    }
    put_bytes(text, x)
}

fn put_place_line(text: &mut Vec<u8>, entry: u64, attr: u64, x: &[u8]) -> Result<(), NoMemory>
    ensures { OnOk result (text.new.items ≡ text.old.items ++ place_line entry attr x.now) }
{
    text.extend_from_slice(b"places ")?;
    put_hex(text, entry)?;
    text.push(b' ')?;
    put_hex(text, attr)?;
    text.push(b' ')?;
    put_expression(text, x)?;
    text.push(b'\n')?;
    Ok(())
}

// Appends a line for each expression of one attribute: `places`, the offset of the entry, the attribute's number, and
// the bytes of the expression, or `-` if it has none.
fn put_place(text: &mut Vec<u8>, place: &PlaceAt) -> Result<(), NoMemory>
    ensures { OnOk result (text.new.items ≡ text.old.items ++ places_lines (place_said place.now)) }
{
    for x in &place.2 {
        put_place_line(text, place.0, place.1, x)?;
    }
    Ok(())
}

/// Appends the lines of all attributes with expressions in force.
pub fn put_places(text: &mut Vec<u8>, places: &[PlaceAt]) -> Result<(), NoMemory>
    ensures { OnOk result (text.new.items ≡ text.old.items ++ flat_map places_lines (map place_said places.now)) }
{
    for place in places {
        put_place(text, place)?;
    }
    Ok(())
}
