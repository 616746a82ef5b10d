// Writing lists. DWARF 5, sections 7.7.3 and 7.25.
ghost use Rattle.std.specs.Prelude.{◌≡◌, ◌++◌, ◌∷◌, [], ◌<◌, ◌^◌, OnOk, length};
ghost use Rattle.list_writer.specs.ListBytes.{stretch_bytes, entry_bytes};
ghost use Rattle.rb_bytes.specs.Leb.{uleb};
ghost use Rattle.dw_lists.specs.declared.list_entry.TheConstants.{DW_RLE_end_of_list};

use dw_lists::list_entry::{DW_LLE_start_length, DW_RLE_end_of_list, DW_RLE_start_length};
use dw_lists::list_kind::ListKind;
use rb_bytes::fault::NoMemory;
use rb_bytes::leb::put_uleb;
use rb_bytes::little::put_u64;

// Appends the kind of an entry, and its addresses: the first one, and their number.
fn put_stretch(out: &mut Vec<u8>, kind: u64, start: u64, len: u64) -> Result<(), NoMemory>
    requires { kind < 2 ^ 8 }
    ensures { OnOk result (out.new.items ≡ out.old.items ++ kind ∷ stretch_bytes start len) }
{
    out.push(kind as u8)?;
    put_u64(out, start)?;
    put_uleb(out, len)
}

// Appends bytes, after their length in LEB128.
fn put_block(out: &mut Vec<u8>, bytes: &[u8]) -> Result<(), NoMemory>
    ensures { OnOk result (out.new.items ≡ out.old.items ++ (uleb (length bytes.now) ++ bytes.now)) }
{
    put_uleb(out, bytes.len() as u64)?;
    out.extend_from_slice(bytes)?;
    Ok(())
}

/// Appends an entry of a list for the `len` addresses from `start` on, with full addresses, so no base address is
/// needed. Only an entry of a location list has an expression.
pub fn put_entry(
    out: &mut Vec<u8>,
    list: ListKind,
    start: u64,
    len: u64,
    expression: &[u8],
) -> Result<(), NoMemory>
    ensures { OnOk result (out.new.items ≡ out.old.items
        ++ entry_bytes list (record { start = start; len = len; expression = expression.now })) }
{
    match list {
        ListKind::Ranges => put_stretch(out, DW_RLE_start_length, start, len),
        ListKind::Locations => {
            put_stretch(out, DW_LLE_start_length, start, len)?;
            put_block(out, expression)
        }
    }
}

/// Appends the end of a list.
pub fn put_end(out: &mut Vec<u8>) -> Result<(), NoMemory>
    ensures { OnOk result (out.new.items ≡ out.old.items ++ DW_RLE_end_of_list ∷ []) }
{
    out.push(DW_RLE_end_of_list as u8)?;
    Ok(())
}
