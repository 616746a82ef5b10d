// The formats of tables of directories and files. DWARF 5, section 6.2.4.
ghost use Rattle.std.specs.Prelude.{◌≡◌, ◌≤◌, ◌<◌, Some, None, length, IfOk, OnOk};
ghost use Rattle.line_rewrite.specs.Entries.{format_at};
ghost use Rattle.line_rewrite.specs.KeptEntries.{told_field, told_format};
ghost use Rattle.line_rewrite.specs.EntrySteps.{field_at};
ghost use Rattle.line_rewrite.specs.Troubles.{IfMalformed};

use crate::content::{DW_LNCT_MD5, DW_LNCT_path};
use crate::trouble::Trouble;
use rb_bytes::cursor::Cursor;
use std::alloc::Global;

/// A field of a table's format: a content type (DW_LNCT), and the form of its values.
#[derive(Clone, Copy)]
pub struct Field {
    pub content: u64,
    pub form: u64,
}

fn read_field<'a>(cursor: &mut Cursor<'a>) -> Result<Field, Trouble>
    ensures read { IfOk result (λ f. field_at cursor.old.left ≡ Some (told_field f, cursor.new.left)) }
    ensures malformed { IfMalformed result (field_at cursor.old.left ≡ None) }
{
    let content = cursor.uleb()?;
    let form = cursor.uleb()?;
    if content < DW_LNCT_path || content > DW_LNCT_MD5 {
        return Err(Trouble::Malformed);
    }
    Ok(Field { content, form })
}

/// Reads the format of entries, of `count` fields. Content types other than the five of the standard are malformed,
/// also those of vendors.
pub fn read_format<'a>(
    alloc: Global,
    cursor: &mut Cursor<'a>,
    count: u8,
) -> Result<Vec<Field>, Trouble>
    ensures read { IfOk result (λ fs. format_at count cursor.old.left ≡ Some (told_format fs.items, cursor.new.left)) }
    ensures malformed { IfMalformed result (format_at count cursor.old.left ≡ None) }
{
    let mut fields = Vec::new(alloc);
    for _ in 0..count {
        let field = read_field(cursor)?;
        fields.push(field)?;
    }
    Ok(fields)
}
