// Tests ELF files: the example of four instructions, whole, cut, and with one field changed; layouts of segments; and
// searches in a file that was read, against places worked out by hand.
use elf_image::{Elf, cuts, read};
use rb_bytes::fault::{FaultKind, Refusal};
use std::alloc::Global;
use std::process::Abort;
use std::test::Fail;
use test_files::words::{file_in_words, rows};

/// The smallest example.
pub const EXIT7: &str = "code .text 10078 lui a0,0; addi a0,a0,7; exit";

/// The kind and place of the fault for which a file is refused.
pub fn refused(alloc: Global, file: &[u8]) -> Option<(FaultKind, u64)> {
    match read(alloc, file) {
        Ok(_) => None,
        Err(Refusal::Fault(fault)) => Some((fault.kind, fault.place)),
        Err(Refusal::Memory) => None,
    }
}

// The kind and place of the fault of a file as text, or `read`.
fn shown(alloc: Global, file: &[u8]) -> Result<String, Fail> {
    let shown = match refused(alloc, file) {
        Some((kind, place)) => format!(in alloc; "{kind:?} {place:x}")?,
        None => String::from_str(alloc, "read")?,
    };
    Ok(shown)
}

fn check_rows(rt: &impl Abort, alloc: Global, table: &str) -> Result<(), Fail> {
    for row in &rows(alloc, table)? {
        let file = file_in_words(alloc, &row.words);
        assert!(rt; file.is_ok(), "{}", row.words);
        assert_eq!(rt; shown(alloc, &file?)?.as_str(), row.wanted, "{}", row.words);
    }
    Ok(())
}

// The flags, the entry point and the offset of the program headers; the numbers of segments and symbols; the cuts; and
// the bytes at an instruction and after the code.
const FIELDS: &str = "(0, 65656, 64) 1 0 [65656, 65672] Some(5) None";

fn fields(alloc: Global, elf: &Elf<'_>) -> Result<String, Fail> {
    let header = (elf.flags, elf.entry, elf.phoff);
    let (segments, symbols) = (elf.segments.len(), elf.symbols.len());
    let cuts = cuts(alloc, elf)?;
    let (inside, behind) = (elf.image_byte(0x10079), elf.image_byte(0x10088));
    let shown = format!(in alloc;
        "{header:?} {segments} {symbols} {cuts:?} {inside:?} {behind:?}"
    )?;
    Ok(shown)
}

#[test]
fn the_example_has_its_fields(rt: HostRuntime) -> Result<(), Fail> {
    let file = file_in_words(rt.alloc(), EXIT7)?;
    let Ok(elf) = read(rt.alloc(), &file) else {
        return Err(Fail::new("refused"));
    };
    assert!(rt; file.len() == 352);
    assert_eq!(rt; fields(rt.alloc(), &elf)?.as_str(), FIELDS);
    let wanted: [&[u8]; 3] = [b"", b".text", b".shstrtab"];
    assert!(rt; elf.sections.len() == 3);
    for (section, name) in elf.sections.iter().zip(wanted) {
        assert!(rt; section.name == name);
    }
    Ok(())
}

#[test]
fn the_example_has_its_sections(rt: HostRuntime) -> Result<(), Fail> {
    let file = file_in_words(rt.alloc(), EXIT7)?;
    let Ok(elf) = read(rt.alloc(), &file) else {
        return Err(Fail::new("refused"));
    };
    let text = elf.section_called(b".text").ok_or("no code")?;
    assert!(rt; text.addr == 0x10078);
    assert!(rt; elf.section_called(b".eh_frame").is_none());
    let segment = elf.segment_at(0x10087).ok_or("no segment")?;
    assert!(rt; segment.offset == 0);
    assert!(rt; elf.segment_at(0xffff).is_none());
    Ok(())
}

#[test]
fn a_file_that_is_cut_is_refused_at_its_lowest_structure(rt: HostRuntime) -> Result<(), Fail> {
    let file = file_in_words(rt.alloc(), EXIT7)?;
    for size in 0..file.len() {
        let wanted = match size {
            0..=6 => "NotElf 0",
            7..=63 => "Truncated 0",
            64..=119 => "Truncated 40",
            120..=135 => "Truncated 0",
            _ => "Truncated a0",
        };
        let prefix = file.get(..size).ok_or("size")?;
        assert_eq!(rt; shown(rt.alloc(), prefix)?.as_str(), wanted, "{size} bytes");
    }
    Ok(())
}

const CHANGED: &str = "\
# One changed byte is refused where it stands: `EI_DATA`, `e_machine`, `e_phentsize`, `e_shentsize`, `e_shnum` and
# `e_shstrndx`.
like exit7
- patch 5 02 => NotElf 0
- patch 12 3e => NotElf 0
- patch 36 39 => Truncated 36
- patch 3a 3f => Truncated 3a
- patch 3c 00 => Truncated 3e
- patch 3e 03 => Truncated 3e

# A name past the table's last zero byte, at its section header; `e_flags`, and `e_type`.
like exit7
- patch e0 11 => Truncated e0
- patch 30 05 => Flags 30
- patch 10 03 => NotStatic 10

# `p_type`, `p_memsz` and `p_flags` of the segment, and `sh_flags` of the section of names.
like exit7
- patch 40 02 => NotStatic 40
- patch 68 89 => ExecSegments 40
- patch 44 04 => ExecSegments 20
- patch 44 07 => WritableCode 40
- patch 129 08 => CompressedSection 2

# A name of compressed sections, `.zdebug_x`.
like exit7
- patch 8f 2e7a64656275675f78 => CompressedSection 2

# `.text` one address higher, so that it ends past the segment; no byte of an empty one lies outside.
like exit7
- patch f0 79 => ExecSegments e0
- patch f0 79 | patch 100 00 => read";

#[test]
fn changed_fields_are_refused(rt: HostRuntime) -> Result<(), Fail> {
    check_rows(&rt, rt.alloc(), CHANGED)
}

// The example's segment ends at 88 in the file. Its program headers are at 160, after everything before them, the
// second of them at 198, and the file ends at 1d0. A header is its type, flags, offset, address, and sizes in the file
// and in memory.
const SEGMENTS: &str = "\
# A second segment must share no address: it begins behind the first, where that ends, and one address below.
like exit7
headers last
- header 1 4 88 20000 0 10 => read
- header 1 4 88 10088 0 10 => read
- header 1 4 88 10087 0 10 => ExecSegments 160

# It must share no byte: none of the file from inside the first, and one; none from past the file's end, and one.
like exit7
headers last
- header 1 4 87 20000 0 10 => read
- header 1 4 87 20000 1 10 => ExecSegments 160
- header 1 4 1d0 20000 0 10 => read
- header 1 4 1d0 20000 1 10 => Truncated 1d0

# A note must not cross the end of the code.
like exit7
headers last
- header 4 4 80 20000 9 10 => ExecSegments 198
- header 4 4 80 20000 8 10 => read
- header 4 4 88 20000 8 10 => read

# It must not ask for a dynamic linker, nor be executable, also of two sizes, unless the file was moved: its names are
# `.text` and `.old.text`.
like exit7
headers last
- header 3 4 88 20000 0 10 => NotStatic 198
- header 1 5 88 20000 10 10 => ExecSegments 198
- header 1 5 88 20000 0 10 => ExecSegments 198
- header 1 5 88 20000 10 10 | patch 8f 2e6f6c642e74657874 => read

# It must not be too high: up to the highest address, past it, and past all addresses.
like exit7
headers last
- header 1 4 88 7ffefff0 0 10 => read
- header 1 4 88 7ffefff8 0 10 => HighAddress 7fff0000
- header 1 4 88 fffffffffffffff8 0 10 => HighAddress fffffffffffffff8

# The table of segments must not cross the code, which ends where the table begins, in it, and where it ends.
like exit7
headers last
header 1 4 88 20000 0 10
- patch 180 6001 | patch 188 6001 => read
- patch 180 6101 | patch 188 6101 => ExecSegments 160
- patch 180 cf01 | patch 188 cf01 => ExecSegments 160
- patch 180 d001 | patch 188 d001 => read";

#[test]
fn segments_must_lie_apart(rt: HostRuntime) -> Result<(), Fail> {
    check_rows(&rt, rt.alloc(), SEGMENTS)
}
