// Calls of files and streams that fail, each in turn: the answer of a command, and the files that are written by then.
use crate::sessions::{files_with, play, play_rows};
use std::alloc::Global;
use std::process::Abort;
use std::test::Fail;
use test_files::words::file_in_words;

// The reads and writes of files are numbered together, from 1. The last number is the number of a command's calls plus
// 1.
const FILES: &str = "\
# The input and the profile are read, the output and the map are written, and a line is printed.
like countdown
profile 1 @10078 c 1 @10078 4 0 3
profile 1 @10078 4 1 @10078 10 0 1
- fail files 1 => $ rewrite in profile out map | 222 ReadFault | none out | none map
- fail files 2 => $ rewrite in profile out map | 222 ReadFault | none out | none map
- fail files 3 => $ rewrite in profile out map | 223 WriteFault | none out | none map
- fail files 4 => $ rewrite in profile out map | 223 WriteFault | none map
     | bytes out 90 130530006f0080001305f5ffe31e05fe9308d00573000000 | $ run out | 0 Ended(0) [ended 0 after 11 steps]/
- fail files 5 => $ rewrite in profile out map
     | 0 Ok moved 1 functions, 6 instructions, 24 bytes; 3 hot blocks; 0 profile lines ignored/
- fail printed 1 => $ rewrite in profile out map | 223 WriteFault
     | bytes out 90 130530006f0080001305f5ffe31e05fe9308d00573000000
     | text map 10090 8 10078/10098 4 10080/1009c 0 10084/1009c 4 1007c/100a0 4 10088/100a4 4 1008c/
- fail printed 2 => $ rewrite in profile out map
     | 0 Ok moved 1 functions, 6 instructions, 24 bytes; 3 hot blocks; 0 profile lines ignored/
- room printed a => $ rewrite in profile out map | 223 WriteFault moved 1 fu
     | bytes out 90 130530006f0080001305f5ffe31e05fe9308d00573000000
     | text map 10090 8 10078/10098 4 10080/1009c 0 10084/1009c 4 1007c/100a0 4 10088/100a4 4 1008c/
- fail files 1 => $ map in profile | 222 ReadFault
- fail files 2 => $ map in profile | 222 ReadFault
- fail files 3 => $ map in profile
     | 0 Ok 10090 8 10078/10098 4 10080/1009c 0 10084/1009c 4 1007c/100a0 4 10088/100a4 4 1008c/

# Names that aren't there, and files that have no room.
like countdown
- => $ rewrite nothing profile out map | 222 ReadFault | none out | none map
- => $ rewrite in nothing out map | 222 ReadFault | none out | none map
- => $ rewrite in profile nowhere map | 223 WriteFault | none nowhere | none map
- => $ rewrite in profile out nowhere | 223 WriteFault | none nowhere | bytes out 0 7f454c46
- room files 8 => $ rewrite in profile out map | 223 WriteFault | none out | none map

# The program is read, and of a recorded run the profile is written.
like countdown
- fail files 1 => $ run in | 222 ReadFault | $ run --symbols in | 0 Ended(0) [ended 0 after 13 steps]/
- fail files 2 => $ run in | 0 Ended(0) [ended 0 after 13 steps]/ | $ run --symbols in | 222 ReadFault
- fail files 1 => $ record in out | 222 ReadFault | none out
- fail files 2 => $ record in out | 223 WriteFault | none out
- fail files 3 => $ record in out | 0 Ended(0) [ended 0 after 13 steps]/

# The program and its profile are read, and another profile is written.
like countdown
profile 1 @10078 4 1 @10078 8 0 3
profile 1 @10078 c 1 @10078 4 0 3
- fail files 1 => $ repair in profile out | 222 ReadFault | none out
- fail files 2 => $ repair in profile out | 222 ReadFault | none out
- fail files 3 => $ repair in profile out | 223 WriteFault | none out
- fail files 4 => $ repair in profile out
     | 0 Ok price 10078 0/price 1007c 0/price 10080 0/price 10088 0/link - 10078 0 0/link 10078 1007c 0 0/\
link 1007c 10080 3 3/link 1007c 10088 0 0/link 10080 1007c 3 3/link 10088 - 0 0/6 links, total change 0/

# The input, the output and the map are read.
like exit7
profile 10078 4 10078
profile 1007c 4 1007c
profile 10080 4 10080
profile 10084 4 10084
- fail files 1 => $ verify in in profile | 222 ReadFault
- fail files 2 => $ verify in in profile | 222 ReadFault
- fail files 3 => $ verify in in profile | 222 ReadFault
- fail files 4 => $ verify in in profile | 0 Ok faithful/

# A file is read; a sample and its profile are written.
like exit7
- fail files 1 => $ lookup in 10078 | 222 ReadFault
- fail files 2 => $ lookup in 10078 | 0 Ok none/
- fail files 1 => $ frames in 10078 | 222 ReadFault
- fail files 2 => $ frames in 10078 | 0 Ok none/
- fail files 1 => $ sample 1 out map | 223 WriteFault | none out | none map
- fail files 2 => $ sample 1 out map | 223 WriteFault | none map | $ run out | 5 Ended(5) [ended 5 after 15 steps]/
- fail files 3 => $ sample 1 out map | 0 Ok sample 1/";

// A line that standard output doesn't accept, or not completely: files are written before it. Each command has an
// output of its own.
const OUTPUT: &str = "\
# A map, and what a repair changed.
like countdown
profile 1 @10078 c 1 @10078 4 0 3
profile 1 @10078 4 1 @10078 8 0 3
profile 1 @10078 4 1 @10078 10 0 5
- fail printed 1 => $ map in profile | 223 WriteFault
- fail printed 2 => $ map in profile
     | 0 Ok 10090 8 10078/10098 4 10080/1009c 0 10084/1009c 4 1007c/100a0 4 10088/100a4 4 1008c/
- room printed 15 => $ map in profile | 223 WriteFault 10090 8 10078/10098 4
- fail printed 1 => $ repair in profile out | 223 WriteFault
     | text out 1 @10078 4 1 @10078 8 0 3/1 @10078 c 1 @10078 4 0 3/
- room printed 8 => $ repair in profile out | 223 WriteFault price 10
     | text out 1 @10078 4 1 @10078 8 0 3/1 @10078 c 1 @10078 4 0 3/

# A repair where nothing was counted.
like exit7
- fail printed 1 => $ repair in profile out | 223 WriteFault | text out
- fail printed 2 => $ repair in profile out | 0 Ok 2 links, total change 0/ | text out

# What a program writes, and the line behind it.
like greeting
- fail printed 1 => $ run in | 223 WriteFault | $ run --symbols in | 223 WriteFault
     | $ record in out | 223 WriteFault | none out
- fail printed 2 => $ run in | 223 WriteFault hi | $ run --symbols in | 223 WriteFault hi
     | $ record in out | 223 WriteFault hi | text out
- fail printed 3 => $ run in | 0 Ended(0) hi[ended 0 after 9 steps]/
     | $ run --symbols in | 0 Ended(0) hi[ended 0 after 9 steps]/
     | $ record in out | 0 Ended(0) hi[ended 0 after 9 steps]/
- room printed 1 => $ run in | 223 WriteFault h | $ run --symbols in | 223 WriteFault h
     | $ record in out | 223 WriteFault h | none out
- room printed 19 => $ run in | 223 WriteFault hi[ended 0 after 9 steps]
     | $ record in out | 223 WriteFault hi[ended 0 after 9 steps] | text out

# The line behind a run that traps or is stuck, and behind one that has no steps left.
- code .text 10078 ebreak | room printed 4 => $ run in | 223 WriteFault [tra | $ run --symbols in | 223 WriteFault [stu
     | $ record in out | 223 WriteFault [tra | text out
- like countdown | fail printed 1 => $ run --steps 1 in | 223 WriteFault | $ run --symbols --steps 1 in | 223 WriteFault
     | $ record --steps 1 in out | 223 WriteFault | text out 1 @10078 0 1 @10078 4 0 1/
- like countdown | fail printed 2 => $ run --steps 1 in | 226 OutOfSteps [out of steps after 1 steps]/
     | $ run --symbols --steps 1 in | 226 OutOfSteps [out of steps after 1 steps]/
     | $ record --steps 1 in out | 226 OutOfSteps [out of steps after 1 steps]/

# A verdict, and a refusal of the output.
like exit7
- profile 10078 4 10078 | profile 1007c 4 1007c | profile 10080 4 10080 | profile 10084 4 10084 | room printed 8
  => $ verify in in profile | 223 WriteFault faithful
- profile 10078 4 | fail printed 1 => $ verify in in profile | 223 WriteFault
- profile 10078 4 | fail printed 2
  => $ verify in in profile | 228 Unfaithful(MapText, 1) unfaithful MapText at 1/
- fail printed 1 => $ verify in profile profile | 223 WriteFault
- room printed 18 => $ verify in profile profile | 223 WriteFault refused 1 NotElf at 0 in
- fail printed 2 => $ verify in profile profile | 221 NotElf 0 0 0 refused 1 NotElf at 0 in OUT/

# What is said of an address, and which sample was made.
like exit7
- fail printed 1 => $ lookup in 10078 | 223 WriteFault | $ frames in 10078 | 223 WriteFault
     | $ sample 1 out map | 223 WriteFault | bytes out 0 7f454c46 | ends map /1 _start 8 1 f0 0 0 1/
- fail printed 2 => $ lookup in 10078 | 0 Ok none/ | $ frames in 10078 | 0 Ok none/
     | $ sample 1 out map | 0 Ok sample 1/
- room printed 2 => $ lookup in 10078 | 223 WriteFault no | $ frames in 10078 | 223 WriteFault no
     | $ sample 1 out map | 223 WriteFault sa | bytes out 0 7f454c46 | ends map /1 _start 8 1 f0 0 0 1/

# A refusal, and how the program is used.
like exit7
size 6
- fail printed 1 => $ rewrite in profile out map | 223 WriteFault | none out | none map
     | $ map in profile | 223 WriteFault
     | $ run in | 223 WriteFault | $ run --symbols in | 223 WriteFault | $ record in out | 223 WriteFault | none out
     | $ repair in profile out | 223 WriteFault | none out | $ verify in in profile | 223 WriteFault
     | $ lookup in 10078 | 223 WriteFault | $ frames in 10078 | 223 WriteFault | $ nothing | 223 WriteFault
- fail printed 2 => $ rewrite in profile out map | 221 NotElf 0 0 0 refused 1 NotElf at 0/
     | $ map in profile | 221 NotElf 0 0 0 refused 1 NotElf at 0/
     | $ run in | 221 NotElf 0 0 0 refused 1 NotElf at 0/ | $ run --symbols in | 221 NotElf 0 0 0 refused 1 NotElf at 0/
     | $ record in out | 221 NotElf 0 0 0 refused 1 NotElf at 0/
     | $ repair in profile out | 221 NotElf 0 0 0 refused 1 NotElf at 0/
     | $ verify in in profile | 221 NotElf 0 0 0 refused 1 NotElf at 0/
     | $ lookup in 10078 | 221 NotElf 0 0 0 refused 1 NotElf at 0/
     | $ frames in 10078 | 221 NotElf 0 0 0 refused 1 NotElf at 0/
     | $ nothing
     | 220 Usage usage: rewrite IN PROFILE OUT MAP, map IN PROFILE, run [--symbols] [--steps N] FILE [WORDS], \
lookup FILE ADDR, sample N OUT PROFILE, record [--steps N] FILE OUT [WORDS], repair IN PROFILE OUT, verify IN OUT MAP, \
frames FILE ADDR/
- room printed 6 => $ rewrite in profile out map | 223 WriteFault refuse | none out | none map
     | $ nothing | 223 WriteFault usage:";

// Calls of standard input are numbered separately.
const INPUT: &str = "\
# A program that copies its input byte by byte. A fourth read finds its end, and a fifth isn't made.
code .text 10078 addi sp,sp,-16; addi a0,zero,0; addi a1,sp,0; addi a2,zero,1; addi a7,zero,63; ecall; beq a0,zero,20; \
addi a0,zero,1; addi a7,zero,64; ecall; jal zero,-36; exit
input abc
- fail input 1 => $ run in | 222 ReadFault | $ run --symbols in | 222 ReadFault
     | $ record in out | 222 ReadFault | none out
- fail input 2 => $ run in | 222 ReadFault a | $ run --symbols in | 222 ReadFault a
     | $ record in out | 222 ReadFault a | none out
- fail input 3 => $ run in | 222 ReadFault ab | $ run --symbols in | 222 ReadFault ab
     | $ record in out | 222 ReadFault ab | none out
- fail input 4 => $ run in | 222 ReadFault abc | $ run --symbols in | 222 ReadFault abc
     | $ record in out | 222 ReadFault abc | none out
- fail input 5 => $ run in | 0 Ended(0) abc[ended 0 after 39 steps]/
     | $ run --symbols in | 0 Ended(0) abc[ended 0 after 39 steps]/
     | $ record in out | 0 Ended(0) abc[ended 0 after 39 steps]/

# A program that doesn't read, and one that has no steps left for its read.
- like countdown | fail input 1 => $ run in | 0 Ended(0) [ended 0 after 13 steps]/
- code .text 10078 addi a1,sp,-16; addi a2,zero,1; addi a7,zero,63; ecall; exit | fail input 1
  => $ run --steps 3 in | 226 OutOfSteps [out of steps after 3 steps]/ | $ run --steps 4 in | 222 ReadFault
     | $ run --symbols --steps 4 in | 222 ReadFault | $ record --steps 4 in out | 222 ReadFault | none out";

// Prints the map of a program of 65 instructions, each of which has a line, with a call of standard output that fails:
// checks the answer, and the number of lines written by then.
fn check_long_map(
    rt: &impl Abort,
    alloc: Global,
    failing: u64,
    status: &str,
    lines: usize,
) -> Result<(), Fail> {
    let words = format!(in alloc;
        "code .text 10078 .rept 63 nop; exit\nroom printed 400\nfail printed {failing}"
    )?;
    let mut session = format!(in alloc; "$ map in profile | {status} ")?;
    let mut out: u64 = 0x10180;
    let mut input: u64 = 0x10078;
    for _ in 0..lines {
        let line = format!(in alloc; "{out:x} 4 {input:x}/")?;
        session.push_str(&line)?;
        out = out.saturating_add(4);
        input = input.saturating_add(4);
    }
    let mut files = files_with(alloc, &words, file_in_words(alloc, &words)?)?;
    play(rt, alloc, &mut files, &words, &session)
}

// A map is printed in pieces of 64 lines.
#[test]
fn pieces_of_a_map(rt: HostRuntime) -> Result<(), Fail> {
    let alloc = rt.alloc();
    check_long_map(&rt, alloc, 1, "223 WriteFault", 0)?;
    check_long_map(&rt, alloc, 2, "223 WriteFault", 64)?;
    check_long_map(&rt, alloc, 3, "0 Ok", 65)
}

#[test]
fn calls_that_fail(rt: HostRuntime) -> Result<(), Fail> {
    play_rows(&rt, rt.alloc(), FILES)?;
    play_rows(&rt, rt.alloc(), OUTPUT)?;
    play_rows(&rt, rt.alloc(), INPUT)
}
