// Tables that are given with their names.
ghost use Rattle.std.specs.Prelude.{◌≡◌, find, string_bytes};
ghost use Rattle.std.specs.Option.{option_copied};
ghost use Rattle.std.specs.Str.{bytes_eq};
ghost use Rattle.elf_plan.specs.NewSections.{bytes_called};
ghost use Rattle.elf_plan.specs.TableSizes as spec;

/// The name of a section, and bytes that replace those of the section.
pub type Table = (String, Vec<u8>);

/// The name of the table of ranges, the only debug table that can be added to a file.
pub const DEBUG_RNGLISTS: &[u8] = b".debug_rnglists";

/// The first table called `name`.
pub fn table_called<'a>(tables: &'a [Table], name: &[u8]) -> Option<&'a Table>
    ensures { option_copied result ≡ find (λ t. bytes_eq (string_bytes t.0) name.now) tables.now }
{
    tables.iter().find(|t| t.0.as_bytes() == name)
}

/// The size in bytes of the first table called `name`.
pub fn table_size(tables: &[Table], name: &[u8]) -> Option<usize>
    ensures { result ≡ spec.table_size tables.now name.now }
{
    let (_, bytes) = table_called(tables, name)?;
    Some(bytes.len())
}

/// The bytes of the first table called `name`, or no bytes if there is no such table.
pub fn bytes_called<'a>(tables: &'a [Table], name: &[u8]) -> &'a [u8]
    ensures { result.now ≡ bytes_called tables.now name.now }
{
    match table_called(tables, name) {
        Some(table) => &table.1,
        None => &[],
    }
}
