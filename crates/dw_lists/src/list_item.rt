// Entries of range lists and of location lists. DWARF 5, sections 7.7.3 and 7.25.
ghost use Rattle.std.specs.Prelude.{◌≡◌, Ok, Err, IfOk, IfErr};
ghost use Rattle.table_core.specs.ReadSteps.{leb_bytes_at};
ghost use Rattle.dw_unit.specs.declared.trouble.Trouble.TheVariants.{Unsound};
ghost use Rattle.dw_lists.specs.ListEntries as spec;
ghost use Rattle.dw_lists.specs.ListEntries.{bound_address_at, base_at, between_at, onward_at, offsets_at};
ghost use Rattle.dw_lists.specs.ListReading.{item_of};

use crate::list_bound::{Address, Bound};
use crate::list_entry::*;
use crate::list_kind::ListKind;
use dw_unit::trouble::Trouble;
use rb_bytes::cursor::Cursor;

fn address<'a>(cursor: &mut Cursor<'a>, is_index: bool) -> Result<Address, Trouble>
    ensures read { IfOk result (λ a. bound_address_at is_index cursor.old.left ≡ Ok (a, cursor.new.left)) }
    ensures trouble { IfErr result (λ e. bound_address_at is_index cursor.old.left ≡ Err e) }
{
    if is_index {
        let index = cursor.uleb()?;
        Ok(Address::Index(index))
    } else {
        let place = cursor.u64()?;
        Ok(Address::Here(place))
    }
}

fn base<'a>(cursor: &mut Cursor<'a>, is_index: bool) -> Result<Bound, Trouble>
    ensures read { IfOk result (λ b. base_at is_index cursor.old.left ≡ Ok (b, cursor.new.left)) }
    ensures trouble { IfErr result (λ e. base_at is_index cursor.old.left ≡ Err e) }
{
    let base = address(cursor, is_index)?;
    Ok(Bound::Base(base))
}

fn between<'a>(cursor: &mut Cursor<'a>, is_index: bool) -> Result<Bound, Trouble>
    ensures read { IfOk result (λ b. between_at is_index cursor.old.left ≡ Ok (b, cursor.new.left)) }
    ensures trouble { IfErr result (λ e. between_at is_index cursor.old.left ≡ Err e) }
{
    let low = address(cursor, is_index)?;
    let high = address(cursor, is_index)?;
    Ok(Bound::Between(low, high))
}

fn onward<'a>(cursor: &mut Cursor<'a>, is_index: bool) -> Result<Bound, Trouble>
    ensures read { IfOk result (λ b. onward_at is_index cursor.old.left ≡ Ok (b, cursor.new.left)) }
    ensures trouble { IfErr result (λ e. onward_at is_index cursor.old.left ≡ Err e) }
{
    let low = address(cursor, is_index)?;
    let len = cursor.uleb()?;
    Ok(Bound::Onward(low, len))
}

fn offsets<'a>(cursor: &mut Cursor<'a>) -> Result<Bound, Trouble>
    ensures read { IfOk result (λ b. offsets_at cursor.old.left ≡ Ok (b, cursor.new.left)) }
    ensures trouble { IfErr result (λ e. offsets_at cursor.old.left ≡ Err e) }
{
    let low = cursor.uleb()?;
    let high = cursor.uleb()?;
    Ok(Bound::Offsets(low, high))
}

fn range_bound<'a>(cursor: &mut Cursor<'a>, kind: u64) -> Result<Bound, Trouble>
    ensures read { IfOk result (λ b. spec.range_bound kind cursor.old.left ≡ Ok (b, cursor.new.left)) }
    ensures trouble { IfErr result (λ e. spec.range_bound kind cursor.old.left ≡ Err e) }
{
    match kind {
        DW_RLE_base_addressx => base(cursor, true),
        DW_RLE_startx_endx => between(cursor, true),
        DW_RLE_startx_length => onward(cursor, true),
        DW_RLE_offset_pair => offsets(cursor),
        DW_RLE_base_address => base(cursor, false),
        DW_RLE_start_end => between(cursor, false),
        DW_RLE_start_length => onward(cursor, false),
        _ => Err(Trouble::Unsound),
    }
}

fn location_bound<'a>(cursor: &mut Cursor<'a>, kind: u64) -> Result<Bound, Trouble>
    ensures read { IfOk result (λ b. spec.location_bound kind cursor.old.left ≡ Ok (b, cursor.new.left)) }
    ensures trouble { IfErr result (λ e. spec.location_bound kind cursor.old.left ≡ Err e) }
{
    match kind {
        DW_LLE_base_addressx => base(cursor, true),
        DW_LLE_startx_endx => between(cursor, true),
        DW_LLE_startx_length => onward(cursor, true),
        DW_LLE_offset_pair => offsets(cursor),
        DW_LLE_default_location => Ok(Bound::Default),
        DW_LLE_base_address => base(cursor, false),
        DW_LLE_start_end => between(cursor, false),
        DW_LLE_start_length => onward(cursor, false),
        _ => Err(Trouble::Unsound),
    }
}

/// Reads bytes after their length in LEB128.
pub fn block<'a>(cursor: &mut Cursor<'a>) -> Result<&'a [u8], Trouble>
    ensures read { IfOk result (λ x. leb_bytes_at Unsound cursor.old.left ≡ Ok (x.now, cursor.new.left)) }
    ensures trouble { IfErr result (λ e. leb_bytes_at Unsound cursor.old.left ≡ Err e) }
{
    let count = cursor.uleb()?;
    let bytes = cursor.take(count as usize)?;
    Ok(bytes)
}

// The expression of an entry, after its bounds. An entry that sets the base address has none.
fn expression<'a>(cursor: &mut Cursor<'a>, bound: Bound) -> Result<&'a [u8], Trouble>
    ensures read { IfOk result (λ x. spec.expression_at bound cursor.old.left ≡ Ok (x.now, cursor.new.left)) }
    ensures trouble { IfErr result (λ e. spec.expression_at bound cursor.old.left ≡ Err e) }
{
    match bound {
        Bound::Base(_) => Ok(&[]),
        Bound::Between(_, _) => block(cursor),
        Bound::Onward(_, _) => block(cursor),
        Bound::Offsets(_, _) => block(cursor),
        Bound::Default => block(cursor),
    }
}

/// An entry of a list.
#[derive(Clone, Copy)]
pub struct ListItem<'a> {
    pub bound: Bound,
    /// Empty if the entry has none.
    pub expression: &'a [u8],
}

/// Reads the entry after its kind. Gives `Unsound` if the kind is unknown, or the bytes end inside the entry.
pub fn item<'a>(cursor: &mut Cursor<'a>, list: ListKind, kind: u64) -> Result<ListItem<'a>, Trouble>
    ensures read { IfOk result (λ i. item_of list kind cursor.old.left
        ≡ Ok (record { bound = i.bound; expression = i.expression.now }, cursor.new.left)) }
    ensures trouble { IfErr result (λ e. item_of list kind cursor.old.left ≡ Err e) }
{
    match list {
        ListKind::Ranges => {
            let bound = range_bound(cursor, kind)?;
            Ok(ListItem {
                bound,
                expression: &[],
            })
        }
        ListKind::Locations => {
            let bound = location_bound(cursor, kind)?;
            let expression = expression(cursor, bound)?;
            Ok(ListItem { bound, expression })
        }
    }
}
