// The smallest example, rewritten to a file that is given in full; maps that are printed; and files that aren't
// rewritten.
use crate::sessions::{files_with, play, play_rows};
use std::alloc::Global;
use std::test::Fail;
use test_files::words::{file_in_words, hexadecimal, push_bytes};

// The example with its code moved, worked out by hand: the segment grows to a0 and is followed by the names, with
// `.old.text` and `.text` at their end, and four section headers at c8, of which the first is unchanged. A line is the
// width of its numbers and the numbers, or bytes.
const MOVED: &str = "\
bytes 7f454c46020101000000000000000000
2 2 f3
4 1
8 10090 40 c8
4 0
2 40 38 1 40 4 2
# the segment
4 1 5
8 0 10000 10000 a0 a0 1000
# LUI a0,0; ADDI a0,a0,7; ADDI a7,x0,93; ECALL, and at 90 again
bytes 37050000130575009308d00573000000
bytes 0000000000000000
bytes 37050000130575009308d00573000000
# `.text`, `.shstrtab`, `.old.text`, `.text`, with a zero byte before and after each
bytes 002e74657874002e736873747274616200
bytes 2e6f6c642e74657874002e7465787400
bytes 00000000000000
# the null section
8 0 0 0 0 0 0 0 0
# `.old.text`
4 11 1
8 6 10078 78 10
4 0 0
8 4 0
# `.shstrtab`
4 7 3
8 0 0 a0 21
4 0 0
8 1 0
# `.text`
4 1b 1
8 6 10090 90 10
4 0 0
8 10 0";

// Appends the bytes of numbers, each of `width` bytes.
fn push_numbers(bytes: &mut Vec<u8>, width: &str, numbers: &str) -> Result<(), Fail> {
    let width = width.parse::<usize>()?;
    for number in numbers.split(' ') {
        let number = hexadecimal(number)?;
        for byte in number.to_le_bytes().iter().take(width) {
            bytes.push(*byte)?;
        }
    }
    Ok(())
}

fn moved(alloc: Global) -> Result<Vec<u8>, Fail> {
    let mut bytes = Vec::new(alloc);
    for line in MOVED.lines() {
        match line.split_once(' ') {
            Some(("#", _)) => {}
            Some(("bytes", digits)) => push_bytes(&mut bytes, digits)?,
            Some((width, numbers)) => push_numbers(&mut bytes, width, numbers)?,
            None => return Err(Fail::new("no numbers")),
        }
    }
    Ok(bytes)
}

const SESSION: &str = "\
$ rewrite in profile out map \
| 0 Ok moved 1 functions, 4 instructions, 16 bytes; 0 hot blocks; 0 profile lines ignored/ \
| text map 10090 4 10078/10094 4 1007c/10098 4 10080/1009c 4 10084/ \
| $ run in | 7 Ended(7) [ended 7 after 4 steps]/ | $ run out | 7 Ended(7) [ended 7 after 4 steps]/ \
| $ run --symbols out | 221 AlreadyMoved 1 0 0 refused 14 AlreadyMoved at 1/ \
| $ rewrite out profile again map | 221 AlreadyMoved 1 0 0 refused 14 AlreadyMoved at 1/ | none again";

#[test]
fn the_example_is_rewritten(rt: HostRuntime) -> Result<(), Fail> {
    let alloc = rt.alloc();
    let input = file_in_words(alloc, "code .text 10078 lui a0,0; addi a0,a0,7; exit")?;
    let mut files = files_with(alloc, "", input)?;
    play(&rt, alloc, &mut files, "the smallest example", SESSION)?;
    let written = files.content("out").ok_or("no output")?;
    assert_eq!(rt; written, moved(alloc)?.as_slice());
    Ok(())
}

const MAPS: &str = "\
# A map that is printed.
like exit7
- => $ map in profile | 0 Ok 10090 4 10078/10094 4 1007c/10098 4 10080/1009c 4 10084/ | none out

# A map of a loop.
like countdown
profile 1 @10078 c 1 @10078 4 0 3
profile 1 @10078 4 1 @10078 10 0 1
- => $ map in profile | none out
     | 0 Ok 10090 8 10078/10098 4 10080/1009c 0 10084/1009c 4 1007c/100a0 4 10088/100a4 4 1008c/

# The names of sections would stand at a multiple of 2^40.
like exit7
- patch 150 0000000000010000 => $ rewrite in profile out map | 224 NoMemory | none out";

#[test]
fn maps_are_printed(rt: HostRuntime) -> Result<(), Fail> {
    play_rows(&rt, rt.alloc(), MAPS)
}
