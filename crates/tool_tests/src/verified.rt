// Outputs and maps that are checked: faithful, or the first clause that is false, at its lowest place.
use crate::sessions::{files_with, play, play_rows};
use rb_io::MemFiles;
use std::alloc::Global;
use std::process::Abort;
use std::test::Fail;
use test_files::bytes::patch;
use test_files::words::file_in_words;

// A file with itself as the output, and with lines of the profile as the map.
const JUDGED: &str = "\
# A map of its instructions to themselves, in any order.
like exit7
profile 10084 4 10084
profile 10078 4 10078
profile 10080 4 10080
profile 1007c 4 1007c
- => $ verify in in profile | 0 Ok faithful/ | none out

# Texts that are no maps, or not of this code.
like exit7
- profile 10078 4
  => $ verify in in profile | 228 Unfaithful(MapText, 1) unfaithful MapText at 1/
- profile 10078 4 10078
  profile 1007C 4 1007c
  => $ verify in in profile | 228 Unfaithful(MapText, 2) unfaithful MapText at 2/
- => $ verify in in profile | 228 Unfaithful(MapSpan, 65656) unfaithful MapSpan at 10078/
- profile 10078 4 10078
  profile 1007c 4 1007a
  => $ verify in in profile | 228 Unfaithful(MapSpan, 65658) unfaithful MapSpan at 1007a/

# Files that are refused.
like exit7
- => $ verify profile in profile | 221 NotElf 0 0 0 refused 1 NotElf at 0/
- => $ verify in profile profile | 221 NotElf 0 0 0 refused 1 NotElf at 0 in OUT/";

#[test]
fn files_are_judged(rt: HostRuntime) -> Result<(), Fail> {
    play_rows(&rt, rt.alloc(), JUDGED)
}

const LOOP: &str = "\
profile 1 @10078 c 1 @10078 4 0 3
profile 1 @10078 4 1 @10078 10 0 1";

// The loop, rewritten: its branch is inverted, and the jump is left out.
fn rewritten(rt: &impl Abort, alloc: Global) -> Result<MemFiles, Fail> {
    let words = "\
code .text 10078 addi a0,zero,3; beq a0,zero,12; addi a0,a0,-1; jal zero,-8; exit";
    let mut files = files_with(alloc, LOOP, file_in_words(alloc, words)?)?;
    let session = "$ rewrite in profile out map | $ verify in out map | 0 Ok faithful/ \
| text map 10090 8 10078/10098 4 10080/1009c 0 10084/1009c 4 1007c/100a0 4 10088/100a4 4 1008c/";
    play(rt, alloc, &mut files, "the loop", session)?;
    Ok(files)
}

// The branch at the end of the loop, which was inverted, gets its old condition back.
#[test]
fn a_changed_branch_is_found(rt: HostRuntime) -> Result<(), Fail> {
    let alloc = rt.alloc();
    let mut files = rewritten(&rt, alloc)?;
    let mut changed = Vec::from_slice(alloc, files.content("out").ok_or("no output")?)?;
    patch(&mut changed, 0x9c, &[0xe3, 0x0e, 0x05, 0xfe]);
    files.put(String::from_str(alloc, "changed")?, changed)?;
    let session = "$ verify in changed map \
| 228 Unfaithful(Instruction, 65660) unfaithful Instruction at 1007c/";
    play(&rt, alloc, &mut files, "a changed branch", session)
}

#[test]
fn a_missing_line_is_found(rt: HostRuntime) -> Result<(), Fail> {
    let alloc = rt.alloc();
    let mut files = rewritten(&rt, alloc)?;
    let map = b"10090 8 10078\n10098 4 10080\n1009c 4 1007c\n100a0 4 10088\n100a4 4 1008c\n";
    files.put(
        String::from_str(alloc, "shorter")?,
        Vec::from_slice(alloc, map)?,
    )?;
    let session =
        "$ verify in out shorter | 228 Unfaithful(MapSpan, 65668) unfaithful MapSpan at 10084/";
    play(&rt, alloc, &mut files, "a missing line", session)
}
