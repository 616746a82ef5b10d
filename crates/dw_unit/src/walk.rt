// The entries of a unit, one after another. DWARF 5, sections 7.5.2 and 7.5.3.
ghost use Rattle.std.specs.Prelude.{◌≡◌, ◌≤◌, ◌<◌, ◌-◌, ◌+◌, ◌^◌, [], IfOk, IfSome, OnOk, Ok, Err, length, MatchOption};
ghost use Rattle.table_core.specs.ReadSteps.{with_head};
ghost use Rattle.dw_unit.specs.CompUnits.{attrs_at};
ghost use Rattle.dw_unit.specs.EntryChanges.{ArePlaced};
ghost use Rattle.dw_unit.specs.Walking.{entries_at, walked_entry, unit_bounds};
ghost use Rattle.dw_unit.specs.Stops.{IfTrouble};
ghost use Rattle.dw_unit.specs.Told.{told_declaration};
ghost use Rattle.dw_unit.specs.TablesAt.{told_at};

use crate::attr::attr;
use crate::declaration::{Declaration, Spec, unsigned};
use crate::entry::Attr;
use crate::table_place::TableAt;
use crate::trouble::{Stop, Trouble};
use rb_bytes::cursor::Cursor;

// Replaces `attrs` with the attributes that the declaration at offset `declaration` names.
fn read_attrs<'a>(
    cursor: &mut Cursor<'a>,
    end: u64,
    declaration: u64,
    specs: &[Spec],
    attrs: &mut Vec<Attr>,
) -> Result<(), Stop>
    requires { length cursor.old.left ≤ end }
    ensures read { OnOk result (attrs_at end declaration specs.now cursor.old.left ≡ Ok
        (attrs.new.items, cursor.new.left)) }
    ensures trouble { IfTrouble result (λ e. attrs_at end declaration specs.now cursor.old.left ≡ Err e) }
    ensures on { OnOk result (length cursor.new.left ≤ length cursor.old.left) }
    ensures placed { OnOk result (ArePlaced (end - length cursor.old.left)
        (end - length cursor.new.left) attrs.new.items) }
{
    attrs.clear();
    attrs.reserve(specs.len())?;
    for spec in specs {
        let next = attr(cursor, end, declaration, *spec)?;
        attrs.push(next)?;
    }
    Ok(())
}

/// An entry without its attributes.
#[derive(Clone, Copy)]
pub struct Head<'t> {
    pub place: u64,
    pub depth: u64,
    pub declaration: &'t Declaration,
}

/// Reads the next entry of the unit at offset `unit`, whose bytes end at offset `end`; none if no entry is left.
/// `depth` is the depth at the cursor, before and after the call. The entry's attributes replace those in `attrs`.
pub fn next_entry<'a, 't>(
    cursor: &mut Cursor<'a>,
    unit: u64,
    end: u64,
    depth: &mut u64,
    table: TableAt<'t>,
    attrs: &mut Vec<Attr>,
) -> Result<Option<Head<'t>>, Stop>
    requires within { length cursor.old.left ≤ end }
    requires bounded { depth.old + length cursor.old.left < 2 ^ 64 }
    ensures read { IfOk result (λ o. MatchOption o
        (entries_at (unit_bounds unit end (told_at table.entry)) depth.old cursor.old.left ≡ Ok [])
        (λ h. entries_at (unit_bounds unit end (told_at table.entry)) depth.old cursor.old.left
        ≡ with_head (walked_entry (unit_bounds unit end (told_at table.entry)) h.place h.depth
        (told_declaration h.declaration.now) attrs.new.items)
        (entries_at (unit_bounds unit end (told_at table.entry)) depth.new cursor.new.left))) }
    ensures trouble { IfTrouble result (λ e. entries_at (unit_bounds unit end (told_at table.entry)) depth.old
        cursor.old.left ≡ Err e) }
    ensures on { OnOk result (length cursor.new.left ≤ length cursor.old.left) }
    ensures forward { IfOk result (λ o. IfSome o (λ _. length cursor.new.left < length cursor.old.left)) }
    ensures placed { IfOk result (λ o. IfSome o (λ _.
        ArePlaced (end - length cursor.old.left) (end - length cursor.new.left) attrs.new.items)) }
    ensures deepens { OnOk result (depth.new + length cursor.new.left ≤ depth.old + length cursor.old.left) }
    ensures shallow { IfOk result (λ o. IfSome o (λ h. h.depth + length cursor.new.left < depth.old + length
        cursor.old.left)) }
{
    'codes: while cursor.left() > 0 {
        let place = end - cursor.left() as u64;
        let code = unsigned(cursor)?;
        if code != 0 {
            let declaration = table.declaration(code)?;
            read_attrs(cursor, end, declaration.place, &declaration.specs, attrs)?;
            let head = Head {
                place,
                depth: *depth,
                declaration,
            };
            if declaration.children {
                *depth += 1;
            }
            return Ok(Some(head));
        }
        *depth = depth.saturating_sub(1);
    }
    Ok(None)
}
