// The list of tables for the written file.
ghost use Rattle.std.specs.Prelude.{◌≡◌, ◌++◌, IfOk, IfSome, IsTrue, OnOk, Option, Some, None, if◌then◌else◌, is_some};
ghost use Rattle.std.specs.Prelude.{map, option_map};
ghost use Rattle.frame_rewrite.specs.Index.{has_frames, has_index};
ghost use Rattle.bolt_core.specs.GivenTables.{ranges_given, table_if, table_seen};
ghost use Rattle.bolt_core.specs.internal.CarriedTables.{AreListedOf};
ghost use Rattle.bolt_core.specs.internal.GivenIndex.{CanIndex, IsIndexFor};

use elf_image::Elf;
use elf_image::named::EH_FRAME;
use elf_plan::given_tables::DEBUG_RNGLISTS;
use elf_write::{Table, table_places};
use frame_rewrite::{has_index_header, header};
use rb_bytes::fault::NoMemory;
use std::alloc::Global;
use table_set::AllWritten;

// Whether a file has an unwind table that it loads.
fn has_frames(elf: &Elf) -> bool
    ensures { result ≡ has_frames elf.now }
{
    elf.section_called(EH_FRAME).is_some()
}

// Whether a file has an unwind table with an index for programs, which a program header names.
fn has_index(elf: &Elf) -> bool
    ensures { result ≡ has_index elf.now }
{
    has_frames(elf) && has_index_header(&elf.segments)
}

// The index of the written unwind table `frames`, which comes after the new code, of `code` bytes from `start` on.
// `None` if the file has no index.
fn new_index(
    alloc: Global,
    elf: &Elf,
    start: u64,
    code: usize,
    frames: &[u8],
) -> Result<Option<Vec<u8>>, NoMemory>
    requires { IsTrue (has_index elf.now) → CanIndex start code frames.now }
    ensures there { IfOk result (λ index. is_some index ≡ has_index elf.now) }
    ensures index { IfOk result (λ index. IfSome index (λ w. IsIndexFor start code frames.now w.items)) }
{
    if !has_index(elf) {
        return Ok(None);
    }
    let (at, index_at) = table_places(start, code, frames.len())?;
    let index = header(alloc, frames, at, index_at)?;
    Ok(Some(index))
}

// Adds the table `contents` under the name of its section, if there is one.
fn add_table(
    alloc: Global,
    tables: &mut Vec<Table>,
    name: &str,
    contents: Option<Vec<u8>>,
) -> Result<(), NoMemory>
    ensures { OnOk result (map table_seen tables.new.items
        ≡ map table_seen tables.old.items ++ table_if name.now (option_map (λ bytes. bytes.items) contents)) }
{
    if let Some(bytes) = contents {
        tables.push((String::from_str(alloc, name)?, bytes))?;
    }
    Ok(())
}

// The unwind table `frames`, if the file loads one.
fn loaded(elf: &Elf, frames: Vec<u8>) -> Option<Vec<u8>>
    ensures { option_map (λ bytes. bytes.items) result ≡ (if has_frames elf.now then Some frames.items else None) }
{
    if has_frames(elf) { Some(frames) } else { None }
}

// The table of ranges `ranges`, if the file has one or any were written.
fn ranges_if(elf: &Elf, ranges: Vec<u8>) -> Option<Vec<u8>>
    ensures { option_map (λ bytes. bytes.items) result ≡ ranges_given elf.now ranges.items }
{
    if elf.section_called(DEBUG_RNGLISTS).is_some() || !ranges.is_empty() {
        Some(ranges)
    } else {
        None
    }
}

/// The tables of a file with their new contents, and the index of its unwind table, by the names of their sections. The
/// new code has `code` bytes from `start` on.
pub fn listed(
    alloc: Global,
    elf: &Elf,
    start: u64,
    code: usize,
    written: AllWritten,
) -> Result<Vec<Table>, NoMemory>
    requires { IsTrue (has_index elf.now) → CanIndex start code written.eh.bytes.items }
    ensures { IfOk result (λ tables. AreListedOf elf.now start code written tables.items) }
{
    let AllWritten {
        eh,
        df,
        lines,
        ranges,
        places,
        aranges,
        info,
        abbrevs,
        addr,
    } = written;
    let index = new_index(alloc, elf, start, code, &eh.bytes)?;
    let mut tables = Vec::new(alloc);
    add_table(alloc, &mut tables, ".eh_frame", loaded(elf, eh.bytes))?;
    add_table(alloc, &mut tables, ".eh_frame_hdr", index)?;
    add_table(alloc, &mut tables, ".debug_info", Some(info))?;
    add_table(alloc, &mut tables, ".debug_abbrev", Some(abbrevs))?;
    add_table(alloc, &mut tables, ".debug_addr", Some(addr))?;
    add_table(alloc, &mut tables, ".debug_line", Some(lines.bytes))?;
    add_table(alloc, &mut tables, ".debug_loclists", Some(places.bytes))?;
    add_table(alloc, &mut tables, ".debug_aranges", Some(aranges.bytes))?;
    add_table(alloc, &mut tables, ".debug_frame", Some(df.bytes))?;
    add_table(
        alloc,
        &mut tables,
        ".debug_rnglists",
        ranges_if(elf, ranges.bytes),
    )?;
    Ok(tables)
}
