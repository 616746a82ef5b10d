// Truncated files, and tables that are malformed in one place: the fault for which each is refused, next to similar
// ones that aren't refused. Offsets are worked out by hand, from the ELF standard and DWARF 5.
use crate::sessions::{files_with, input, play};
use std::alloc::Global;
use std::process::Abort;
use std::test::Fail;
use test_files::words::{file_in_words, rows};

// Each command that reads a program.
const READERS: [&str; 9] = [
    "rewrite in profile out map",
    "map in profile",
    "run in",
    "run --symbols in",
    "record in out",
    "repair in profile out",
    "lookup in 10078",
    "frames in 10078",
    "verify in in profile",
];

// A session in which each of `commands` gives `answer`, and writes nothing.
fn refusals(alloc: Global, commands: &[&str], answer: &str) -> Result<String, Fail> {
    let mut session = String::from_str(alloc, "none out | none map")?;
    for command in commands {
        let part = format!(in alloc; " | $ {command} | {answer} | none out | none map")?;
        session.push_str(&part)?;
    }
    Ok(session)
}

// The fault for which the first `size` bytes of the example are refused: its header is truncated, or the program
// header, the segment, or the section headers.
fn refusal_of_prefix(size: usize) -> &'static str {
    if size < 7 {
        "221 NotElf 0 0 0 refused 1 NotElf at 0/"
    } else if size < 64 {
        "221 Truncated 0 0 0 refused 2 Truncated at 0/"
    } else if size < 120 {
        "221 Truncated 40 0 0 refused 2 Truncated at 40/"
    } else if size < 136 {
        "221 Truncated 0 0 0 refused 2 Truncated at 0/"
    } else {
        "221 Truncated a0 0 0 refused 2 Truncated at a0/"
    }
}

fn check_prefix(rt: &impl Abort, alloc: Global, bytes: &[u8]) -> Result<(), Fail> {
    let mut files = files_with(alloc, "", Vec::from_slice(alloc, bytes)?)?;
    let session = refusals(alloc, &READERS, refusal_of_prefix(bytes.len()))?;
    play(rt, alloc, &mut files, "a prefix of the example", &session)
}

#[test]
fn prefixes_of_the_example(rt: HostRuntime) -> Result<(), Fail> {
    let alloc = rt.alloc();
    let whole = file_in_words(alloc, "code .text 10078 lui a0,0; addi a0,a0,7; exit")?;
    assert_eq!(rt; whole.len(), 352);
    for size in 0..whole.len() {
        let (front, _) = whole.split_at_checked(size).ok_or("short")?;
        check_prefix(&rt, alloc, front)?;
    }
    Ok(())
}

const DEPTH: usize = 20_000;

// A unit whose entries have one child each, to a given depth. Their abbreviation has no attributes.
#[test]
fn entries_nested_deep(rt: HostRuntime) -> Result<(), Fail> {
    let alloc = rt.alloc();
    let mut words = String::from_str(alloc, "code .text 10078 lui a0,0; addi a0,a0,7; exit\n")?;
    words.push_str("unloaded .debug_abbrev 0 011101000000\n")?;
    words.push_str("unloaded .debug_info 0 489c00000500010800000000")?;
    for _ in 0..DEPTH {
        words.push_str("01")?;
    }
    for _ in 0..DEPTH {
        words.push_str("00")?;
    }
    let mut files = files_with(alloc, "", file_in_words(alloc, &words)?)?;
    let session = "\
$ run in | 7 Ended(7) [ended 7 after 4 steps]/ | $ lookup in 10078 | 0 Ok none/ | $ frames in 10078 | 0 Ok none/ \
| $ rewrite in profile out map \
| 0 Ok moved 1 functions, 4 instructions, 16 bytes; 0 hot blocks; 0 profile lines ignored/ \
| $ lookup out 10090 | 0 Ok none/";
    play(&rt, alloc, &mut files, "entries nested deep", session)
}

// Plays the rows of a table. Each row says how all of `commands` refuse its file; or what `lookup` prints at 10078, and
// then also at 10090 of the output, the new address of the code.
fn check_tables(
    rt: &impl Abort,
    alloc: Global,
    commands: &[&str],
    table: &str,
) -> Result<(), Fail> {
    for row in &rows(alloc, table)? {
        let said = row.wanted;
        let session = if said.starts_with("221 ") {
            refusals(alloc, commands, said)?
        } else {
            format!(in alloc;
                "$ lookup in 10078 | {said} | $ rewrite in profile out map | $ lookup out 10090 | {said}"
            )?
        };
        let mut files = files_with(alloc, &row.words, input(rt, alloc, row)?)?;
        play(rt, alloc, &mut files, &row.words, &session)?;
    }
    Ok(())
}

// The commands that look for faults of unwind tables.
const FRAME_READERS: [&str; 3] = [
    "lookup in 10078",
    "rewrite in profile out map",
    "map in profile",
];

// The commands that look for faults of units, lists and lines.
const DEBUG_READERS: [&str; 4] = [
    "lookup in 10078",
    "frames in 10078",
    "rewrite in profile out map",
    "map in profile",
];

// Unwind tables. The first entry is a CIE of version 4, of 20 bytes; the FDEs begin at offset 14.
const FRAMES: &str = "\
# A common entry, and one for the code that is right; then one that names a common entry past the section, and one that
# names an entry for code.
like exit7
- unloaded .debug_frame 0 10000000ffffffff040008000478010c02000000140000000000000078000100000000001000000000000000
  => 0 Ok unwind cfa r2+0 ra r1/
- unloaded .debug_frame 0 10000000ffffffff040008000478010c02000000140000002c00000078000100000000001000000000000000
  => 221 FrameFault 14 0 0 refused 21 FrameFault at 14/
- unloaded .debug_frame 0 10000000ffffffff040008000478010c020000001400000000000000780001000000000010000000000000001400\
00001400000078000100000000001000000000000000
  => 221 FrameFault 2c 0 0 refused 21 FrameFault at 2c/

# States that are remembered and restored; and a restore with nothing remembered, also by a common entry.
like exit7
- unloaded .debug_frame 0 10000000ffffffff040008000478010c020000001c00000000000000780001000000000010000000000000000a0e\
100b410e2000
  => 0 Ok unwind cfa r2+0 ra r1/
- unloaded .debug_frame 0 10000000ffffffff040008000478010c020000001800000000000000780001000000000010000000000000000a0b\
410b
  => 221 FrameFault 14 0 0 refused 21 FrameFault at 14/
- unloaded .debug_frame 0 10000000ffffffff040008000478010c02000b00140000000000000078000100000000001000000000000000
  => 221 FrameFault 0 0 0 refused 21 FrameFault at 0/

# Expressions that are longer than what is left of their entries, by DW_CFA_def_cfa_expression, where another entry
# follows, and by DW_CFA_val_expression, of 2^64 - 1 bytes.
like exit7
- unloaded .debug_frame 0 10000000ffffffff040008000478010c020000001800000000000000780001000000000010000000000000000f09\
5000140000000000000078000100000000001000000000000000
  => 221 FrameFault 14 0 0 refused 21 FrameFault at 14/
- unloaded .debug_frame 0 10000000ffffffff040008000478010c020000002400000000000000780001000000000010000000000000001601\
ffffffffffffffffff0150000000
  => 221 FrameFault 14 0 0 refused 21 FrameFault at 14/

# A unit of code in thirteen bytes, which is 4, and one of more than 64 bits; and an offset that runs past its entry.
like exit7
- unloaded .debug_frame 0 1c000000ffffffff040008008480808080808080808080800078010c020000001400000000000000780001000000\
00001000000000000000
  => 0 Ok unwind cfa r2+0 ra r1/
- unloaded .debug_frame 0 18000000ffffffff04000800ffffffffffffffffff0278010c020000140000000000000078000100000000001000\
000000000000
  => 221 FrameFault 0 0 0 refused 21 FrameFault at 0/
- unloaded .debug_frame 0 10000000ffffffff040008000478010c020000001800000000000000780001000000000010000000000000000e80\
8080140000000000000078000100000000001000000000000000
  => 221 FrameFault 14 0 0 refused 21 FrameFault at 14/

# The loaded table's entry names a common entry before the section, and itself.
like countdown
- loaded .eh_frame 10090 1400000000000000017a5200017801011b0c0200000000001000000020000000c8ffffff18000000480e1000000000\
00
  => 221 FrameFault 18 0 0 refused 21 FrameFault at 18/
- loaded .eh_frame 10090 1400000000000000017a5200017801011b0c0200000000001000000004000000c8ffffff18000000480e1000000000\
00
  => 221 FrameFault 18 0 0 refused 21 FrameFault at 18/";

// Units of debugging entries. The header takes c bytes, and the entry has the abbreviation code 1.
const UNITS: &str = "\
# A form that the entry names (DW_FORM_indirect): of a number in LEB128, of itself and then that, of a value in the
# declaration, an unknown one, and one of more than 64 bits.
like exit7
unloaded .debug_abbrev 0 0111001c16000000
- unloaded .debug_info 0 0b0000000500010800000000010f05 => 0 Ok none/
- unloaded .debug_info 0 0c000000050001080000000001160f05 => 0 Ok none/
- unloaded .debug_info 0 0b0000000500010800000000012105
  => 221 DwarfFault 0 0 0 refused 25 DwarfFault at 0/
- unloaded .debug_info 0 0b0000000500010800000000012d05
  => 221 DwarfForm 0 0 0 refused 23 DwarfForm at 0/
- unloaded .debug_info 0 14000000050001080000000001ffffffffffffffffff0205
  => 221 DwarfFault 0 0 0 refused 25 DwarfFault at 0/

# The code of a declaration in fourteen bytes, of more than 64 bits, and running past its unit.
like exit7
unloaded .debug_abbrev 0 0111001c0b000000
- unloaded .debug_info 0 170000000500010800000000818080808080808080808080800005 => 0 Ok none/
- unloaded .debug_info 0 1300000005000108000000008180808080808080800205
  => 221 DwarfFault 0 0 0 refused 25 DwarfFault at 0/
- unloaded .debug_info 0 0a00000005000108000000008180
  => 221 DwarfFault 0 0 0 refused 25 DwarfFault at 0/

# A number and an expression that run past their unit, where another unit follows.
like exit7
- unloaded .debug_abbrev 0 0111001c0f000000
  unloaded .debug_info 0 0b00000005000108000000000181800a00000005000108000000000105
  => 221 DwarfFault 0 0 0 refused 25 DwarfFault at 0/
- unloaded .debug_abbrev 0 0111000218000000
  unloaded .debug_info 0 0c0000000500010800000000010550500c000000050001080000000001025050
  => 221 DwarfFault 0 0 0 refused 25 DwarfFault at 0/

# Declarations with a code of more than 64 bits, and one that has no end.
like exit7
unloaded .debug_info 0 0a00000005000108000000000105
- unloaded .debug_abbrev 0 8180808080808080800211001c0b000000
  => 221 DwarfFault 0 0 0 refused 25 DwarfFault at 0/
- unloaded .debug_abbrev 0 818080 => 221 DwarfFault 0 0 0 refused 25 DwarfFault at 0/";

// Lists of ranges and of locations, after a table's header of c bytes.
const LISTS: &str = "\
# A list of ranges with a pair of offsets, one of which has more than 64 bits, or runs past the section.
like exit7
unloaded .debug_abbrev 0 0111005517000000
unloaded .debug_info 0 0d0000000500010800000000010c000000
- unloaded .debug_rnglists 0 10000000050008000000000004f8800488810400 => 0 Ok covers c/
- unloaded .debug_rnglists 0 15000000050008000000000004ffffffffffffffffff020000
  => 221 DwarfFault 0 0 0 refused 25 DwarfFault at 0/
- unloaded .debug_rnglists 0 0e000000050008000000000004f880048881
  => 221 DwarfFault 0 0 0 refused 25 DwarfFault at 0/

# An offset that runs past its table, where another table follows, of 8 bytes behind its length: with the first of that
# the number would be whole, and the next is zero, which ends a list.
like exit7
unloaded .debug_abbrev 0 0111005517000000
unloaded .debug_info 0 0d0000000500010800000000010c000000
- unloaded .debug_rnglists 0 0e000000050008000000000004f880048881080000000500080000000000
  => 221 DwarfFault 0 0 0 refused 25 DwarfFault at 0/

# A list of locations with a pair of offsets and an expression of a byte; an offset of more than 64 bits; and an
# expression that is longer than the section, of 2^64 - 1 bytes. No entry covers code, so no place is printed.
like exit7
unloaded .debug_abbrev 0 0111000217000000
unloaded .debug_info 0 0d0000000500010800000000010c000000
- unloaded .debug_loclists 0 12000000050008000000000004f88004888104015000 => 0 Ok none/
- unloaded .debug_loclists 0 17000000050008000000000004ffffffffffffffffff0200015000
  => 221 DwarfFault 0 0 0 refused 25 DwarfFault at 0/
- unloaded .debug_loclists 0 15000000050008000000000005ffffffffffffffffff015000
  => 221 DwarfFault 0 0 0 refused 25 DwarfFault at 0/";

// Line tables: a unit with a directory, a file twice, and a sequence from 10078 on.
const LINES: &str = "\
# A sequence of 16 bytes with a row; an advance of more than 64 bits, and one that runs past the unit.
like exit7
- unloaded .debug_line 0 420000000500080029000000010101fb0e0d000101010100000001000001010108012f7300020108020b02612e6300\
00612e6300000009027800010000000000010210000101
  => 0 Ok line /s/a.c:1:0 stmt/
- unloaded .debug_line 0 4b0000000500080029000000010101fb0e0d000101010100000001000001010108012f7300020108020b02612e6300\
00612e63000000090278000100000000000102ffffffffffffffffff02000101
  => 221 LineFault 0 0 0 refused 26 LineFault at 0/
- unloaded .debug_line 0 400000000500080029000000010101fb0e0d000101010100000001000001010108012f7300020108020b02612e6300\
00612e630000000902780001000000000001028080
  => 221 LineFault 0 0 0 refused 26 LineFault at 0/

# An advance behind the sequence, which no row follows; and one that runs past the unit, where another unit follows.
like exit7
- unloaded .debug_line 0 440000000500080029000000010101fb0e0d000101010100000001000001010108012f7300020108020b02612e6300\
00612e63000000090278000100000000000102100001010200420000000500080029000000010101fb0e0d00010101010000000100000101010801\
2f7300020108020b02612e630000612e6300000009027800010000000000010210000101
  => 0 Ok line /s/a.c:1:0 stmt/
- unloaded .debug_line 0 450000000500080029000000010101fb0e0d000101010100000001000001010108012f7300020108020b02612e6300\
00612e6300000009027800010000000000010210000101028080420000000500080029000000010101fb0e0d000101010100000001000001010108\
012f7300020108020b02612e630000612e6300000009027800010000000000010210000101
  => 221 LineFault 0 0 0 refused 26 LineFault at 0/

# An advance of the line by 2^63 - 1, which is the most, and one of more bits; and more files than 64 bits can count.
like exit7
- unloaded .debug_line 0 4d0000000500080029000000010101fb0e0d000101010100000001000001010108012f7300020108020b02612e6300\
00612e630000000902780001000000000003ffffffffffffffffff00010210000101
  => 0 Ok line /s/a.c:9223372036854775808:0 stmt/
- unloaded .debug_line 0 4d0000000500080029000000010101fb0e0d000101010100000001000001010108012f7300020108020b02612e6300\
00612e630000000902780001000000000003ffffffffffffffffff01010210000101
  => 221 LineFault 0 0 0 refused 26 LineFault at 0/
- unloaded .debug_line 0 300000000500080028000000010101fb0e0d000101010100000001000001010108012f7300020108020bffffffffff\
ffffffff02
  => 221 LineFault 0 0 0 refused 26 LineFault at 0/";

#[test]
fn tables_that_are_malformed(rt: HostRuntime) -> Result<(), Fail> {
    let alloc = rt.alloc();
    check_tables(&rt, alloc, &FRAME_READERS, FRAMES)?;
    check_tables(&rt, alloc, &DEBUG_READERS, UNITS)?;
    check_tables(&rt, alloc, &DEBUG_READERS, LISTS)?;
    check_tables(&rt, alloc, &DEBUG_READERS, LINES)
}
