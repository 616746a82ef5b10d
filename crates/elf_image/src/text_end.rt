// Ends of strings in a string table. gABI, "String Table".
ghost use Rattle.std.specs.Prelude.{IfSome};
ghost use Rattle.elf_image.specs.internal.TextEnds.{IsTextEnd};

use memchr::memchr;

// The distance up to which the end of a string is searched linearly, before the sorted zero bytes are used. Most names
// are shorter. Without the limit, many names that share a long tail would scan it again and again.
const NEAR: usize = 64;

/// The end of the string at an index, if it is near.
pub fn near_end(table: &[u8], index: usize) -> Option<usize>
    ensures { IfSome result (IsTextEnd table.now index) }
{
    if index > table.len() {
        return None;
    }
    let (_, behind) = table.split_at(index);
    let (near, _) = behind.split_at(behind.len().min(NEAR));
    let length = memchr(0, near)?;
    Some(index + length)
}
