// Line units. DWARF 5, sections 6.2.4 and 7.22.
ghost use Rattle.std.specs.Prelude.{◌≡◌, ◌≤◌, ◌+◌, Some, None, IfOk, length};
ghost use Rattle.line_rewrite.specs.KeptEntries.{texts_strings};
ghost use Rattle.line_rewrite.specs.LineUnits.{unit_of};
ghost use Rattle.line_rewrite.specs.KeptUnits.{HasTables, outer_at, told_unit};
ghost use Rattle.line_rewrite.specs.Troubles.{IfMalformed};

use crate::header_reader::read_header;
use crate::line_program::LineProgram;
use crate::program::sequences_of;
use crate::text::Texts;
use crate::trouble::Trouble;
use crate::unit::Unit;
use rb_bytes::cursor::Cursor;
use std::alloc::Global;

// The parts of a unit after its length and version.
#[derive(Clone, Copy)]
struct Outer<'a> {
    address_size: u8,
    segment_size: u8,
    /// The bytes of the header after its length.
    fields: &'a [u8],
    program: &'a [u8],
}

fn read_outer<'a>(bytes: &'a [u8]) -> Result<Outer<'a>, Trouble>
    ensures read { IfOk result (λ o. outer_at bytes.now ≡ Some (record {
      address_size = o.address_size;
      segment_size = o.segment_size;
      fields = o.fields.now;
      program = o.program.now;
    })) }
    ensures malformed { IfMalformed result (outer_at bytes.now ≡ None) }
    ensures size { IfOk result (λ o. length o.fields.now + 8 ≤ length bytes.now) }
{
    let mut cursor = Cursor::new(bytes);
    cursor.u16()?;
    let address_size = cursor.u8()?;
    let segment_size = cursor.u8()?;
    let size = cursor.u32()?;
    let fields = cursor.take(size as usize)?;
    let left = cursor.left();
    let program = cursor.take(left)?;
    Ok(Outer {
        address_size,
        segment_size,
        fields,
        program,
    })
}

/// Reads the unit in the bytes after its length. They begin with the version, which was tested before.
pub fn read_unit(alloc: Global, texts: &Texts, bytes: &[u8]) -> Result<Unit, Trouble>
    ensures read { IfOk result (λ u. unit_of (texts_strings texts.now) bytes.now
        ≡ Some (told_unit (texts_strings texts.now) u)) }
    ensures tables { IfOk result (λ u. HasTables (texts_strings texts.now) u.header) }
    ensures size { IfOk result (λ u. length u.header.rest.items + 14 ≤ length bytes.now) }
    ensures malformed { IfMalformed result (unit_of (texts_strings texts.now) bytes.now ≡ None) }
{
    let outer = read_outer(bytes)?;
    let header = read_header(alloc, texts, outer.fields)?;
    if outer.address_size != 8 || outer.segment_size != 0 {
        return Err(Trouble::Malformed);
    }
    let files = header.files.len() as u64;
    let program = LineProgram {
        coding: &header.coding,
        lengths: &header.lengths,
        bytes: outer.program,
    };
    let sequences = sequences_of(alloc, &program, files)?;
    let program = Vec::from_slice(alloc, outer.program)?;
    Ok(Unit {
        header,
        program,
        sequences,
    })
}
