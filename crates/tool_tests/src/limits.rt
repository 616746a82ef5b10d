// Files that exceed a limit.
use crate::sessions::{commands_refuse, files_with, input, play};
use elf_image::section::SHDR_SIZE;
use elf_image::segment::{PF_R, PF_X};
use rb_io::MemFiles;
use std::alloc::Global;
use std::test::Fail;
use test_files::bytes::patch;
use test_files::file::{BASE, CODE};
use test_files::words::{file_in_words, rows};
use test_files::{ElfFile, Section};

// The size limit of a file plus 1.
const TOO_LONG: usize = 64 * 1024 * 1024 + 1;

#[test]
fn long_files(rt: HostRuntime) -> Result<(), Fail> {
    let alloc = rt.alloc();
    let mut files = files_with(alloc, "", vec![in alloc; 0; TOO_LONG]?)?;
    let session = "\
$ rewrite in profile out map | 221 TooLarge 0 0 0 refused 28 TooLarge at 0/ | none out | none map \
| $ repair in profile out | 221 TooLarge 0 0 0 refused 28 TooLarge at 0/ | none out \
| $ run in | 221 TooLarge 0 0 0 refused 28 TooLarge at 0/";
    play(&rt, alloc, &mut files, "a long input", session)?;
    let exit7 = file_in_words(alloc, "code .text 10078 lui a0,0; addi a0,a0,7; exit")?;
    files.put(
        String::from_str(alloc, "profile")?,
        vec![in alloc; 0; TOO_LONG]?,
    )?;
    files.put(String::from_str(alloc, "in")?, exit7)?;
    let session = "\
$ rewrite in profile out map | 221 TooLarge 1 0 0 refused 28 TooLarge at 1/ | none out | none map \
| $ repair in profile out | 221 TooLarge 1 0 0 refused 28 TooLarge at 1/ | none out";
    play(&rt, alloc, &mut files, "a long profile", session)
}

// Functions of 100,000 instructions and of one, which return.
const LONG: &str = "; .rept 99999 nop; jalr zero,0(ra)";

const SHORT: &str = "; .rept 200001 jalr zero,0(ra)";

// Files with an input whose code is repeated `times` times, and which has `count` functions of `size` bytes each.
fn returning(
    alloc: Global,
    times: u32,
    code: &str,
    count: u32,
    size: u64,
) -> Result<MemFiles, Fail> {
    let mut words = String::from_str(alloc, "code .text 10078 .rept 0 nop")?;
    for _ in 0..times {
        words.push_str(code)?;
    }
    let mut start = CODE;
    for _ in 0..count {
        let line = format!(in alloc; "\nfunction f {start:x} {size:x}")?;
        words.push_str(&line)?;
        start = start.saturating_add(size);
    }
    files_with(alloc, "", file_in_words(alloc, &words)?)
}

// 16,800,000 bytes of code; the limit is 16,777,216.
#[test]
fn too_much_code(rt: HostRuntime) -> Result<(), Fail> {
    let alloc = rt.alloc();
    let mut files = returning(alloc, 42, LONG, 42, 400_000)?;
    let exit7 = file_in_words(alloc, "code .text 10078 lui a0,0; addi a0,a0,7; exit")?;
    files.put(String::from_str(alloc, "small")?, exit7)?;
    let session = "\
$ run in | 221 TooLarge 2 0 0 refused 28 TooLarge at 2/ \
| $ verify small in profile | 221 TooLarge 2 0 0 refused 28 TooLarge at 2 in OUT/ \
| $ rewrite in profile out map | 221 TooLarge 2 0 0 refused 28 TooLarge at 2/ | none out | none map";
    play(&rt, alloc, &mut files, "much code", session)
}

#[test]
fn too_many_functions(rt: HostRuntime) -> Result<(), Fail> {
    let alloc = rt.alloc();
    let session = "\
$ run --symbols in | 221 TooLarge 3 0 0 refused 28 TooLarge at 3/ \
| $ rewrite in profile out map | 221 TooLarge 3 0 0 refused 28 TooLarge at 3/ | none out | none map";
    play(
        &rt,
        alloc,
        &mut returning(alloc, 1, SHORT, 200_001, 4)?,
        "many functions",
        session,
    )
}

// A map of the example's instructions to themselves, which as a profile has four lines that are ignored.
const HEADERS: &str = "\
# Files with 65,001 section headers, and with as many program headers, which stand behind all else.
like exit7
profile 10078 4 10078
profile 1007c 4 1007c
profile 10080 4 10080
profile 10084 4 10084
- patch 3c e9fd | size 3f7ae0 => 221 TooLarge 5 0 0 refused 28 TooLarge at 5/
- headers last | patch 38 e9fd | size 378c58 => 221 TooLarge 5 0 0 refused 28 TooLarge at 5/";

// The answers of the commands that write no program.
const READ: &str = "\
$ run in | 7 Ended(7) [ended 7 after 4 steps]/ | $ run --symbols in | 7 Ended(7) [ended 7 after 4 steps]/ \
| $ record in out | 7 Ended(7) [ended 7 after 4 steps]/ | $ repair in profile out | 0 Ok 2 links, total change 0/ \
| $ lookup in 10078 | 0 Ok none/ | $ frames in 10078 | 0 Ok none/ | $ verify in in profile | 0 Ok faithful/";

#[test]
fn too_many_headers(rt: HostRuntime) -> Result<(), Fail> {
    let alloc = rt.alloc();
    let commands = ["$ rewrite in profile out map", "$ map in profile"];
    commands_refuse(&rt, alloc, &commands, HEADERS)?;
    for row in &rows(alloc, HEADERS)? {
        let mut files = files_with(alloc, &row.words, input(&rt, alloc, row)?)?;
        play(&rt, alloc, &mut files, &row.words, READ)?;
    }
    Ok(())
}

// The number of sections with the same name, and the length of the name.
const NAMED: usize = 4_100;

const NAME_LENGTH: usize = 1_000_000;

// A file of `NAMED` sections of one instruction, which returns. The first section has the name, and the headers of the
// others, which are at the end of the file before the header of `.shstrtab`, get the offset of this name.
fn named_alike(alloc: Global) -> Result<Vec<u8>, Fail> {
    let back = [0x67, 0x80, 0, 0];
    let name = vec![in alloc; b'n'; NAME_LENGTH]?;
    let mut sections = Vec::new(alloc);
    sections.push(Section::code(&name, CODE, &back))?;
    let mut start = CODE;
    for _ in 1..NAMED {
        start = start.saturating_add(4);
        sections.push(Section::code(b"", start, &back))?;
    }
    let mut file = ElfFile::new(alloc, CODE);
    file.add_segment(PF_R | PF_X, 0, BASE, &sections)?;
    let mut bytes = file.build(alloc)?;
    let mut header = bytes.len().saturating_sub((NAMED + 1) * SHDR_SIZE);
    for _ in 0..NAMED {
        patch(&mut bytes, header, &1u32.to_le_bytes());
        header = header.saturating_add(SHDR_SIZE);
    }
    Ok(bytes)
}

// Each section of code gets a name of its own in the output: 4,100 names of more than 1,000,000 bytes each.
#[test]
fn names_that_are_too_long(rt: HostRuntime) -> Result<(), Fail> {
    let alloc = rt.alloc();
    let mut files = files_with(alloc, "", named_alike(alloc)?)?;
    let session = "\
$ rewrite in profile out map | 221 TooLarge 6 0 0 refused 28 TooLarge at 6/ | none out | none map";
    play(&rt, alloc, &mut files, "long names", session)
}
