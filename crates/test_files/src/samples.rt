// Descriptions of functions that call one another in a row, as a compiler and a linker lay them out. Read-only data
// follows the code, and another segment has a pointer to each function.
use crate::error::BuildError;
use std::alloc::Global;

// A function of 48 bytes that adds 5 to an even number and 3 to an odd one, and then calls the next function.
const NEXT: &str = "\
addi sp,sp,-16; sd ra,8(sp); andi t0,a0,1; beq t0,zero,12; addi a0,a0,3; jal zero,8; addi a0,a0,5; auipc ra,0; \
jalr ra,20(ra); ld ra,8(sp); addi sp,sp,16; jalr zero,0(ra); ";

// The last function, which calls none, and the entry point after it.
const LAST: &str = "\
addi sp,sp,-16; sd ra,8(sp); andi t0,a0,1; beq t0,zero,12; addi a0,a0,3; jal zero,8; addi a0,a0,5; nop; nop; \
ld ra,8(sp); addi sp,sp,16; jalr zero,0(ra); addi a0,zero,0; ";

// The address of the code.
const CODE: u64 = 0x11000;

// The pointers to the functions.
const POINTERS: u64 = 0x80_0000;

/// The number of functions before the entry point, and the parts that depend on it.
#[derive(Clone, Copy)]
pub struct Sample {
    functions: u8,
    /// The entry point's call of the first function.
    call: &'static str,
    /// The number of bytes of read-only data.
    size: u64,
}

pub const ONE_FUNCTION: Sample = Sample {
    functions: 1,
    call: "auipc ra,0; jalr ra,-52(ra)",
    size: 80,
};

pub const THREE_FUNCTIONS: Sample = Sample {
    functions: 3,
    call: "auipc ra,0; jalr ra,-148(ra)",
    size: 160,
};

// The call goes back by 12c4, which is 1000 and 2c4.
pub const HUNDRED_FUNCTIONS: Sample = Sample {
    functions: 100,
    call: "auipc ra,-1; jalr ra,-708(ra)",
    size: 4040,
};

// The address of a function.
fn address(number: u8) -> u64 {
    CODE + number as u64 * 48
}

// Appends the code and the addresses of all parts.
fn push_code_lines(alloc: Global, words: &mut String, sample: &Sample) -> Result<(), BuildError> {
    words.push_str("code .text 11000 ")?;
    for _ in 1..sample.functions {
        words.push_str(NEXT)?;
    }
    words.push_str(LAST)?;
    words.push_str(sample.call)?;
    let start = address(sample.functions);
    let lines = format!(in alloc;
        "; exit\nzeros .rodata {:x} {:x}\nsegment rw 4000 800000\n",
        start.saturating_add(24),
        sample.size
    )?;
    words.push_str(&lines)?;
    let lines = format!(in alloc;
        "entry {start:x}\nfunction _start {start:x} 14\nprofile 1 _start 8 1 f00 0 0 1\n"
    )?;
    words.push_str(&lines)?;
    Ok(())
}

// Appends the pointers to the functions, in hexadecimal.
fn push_pointers(alloc: Global, words: &mut String, count: u8) -> Result<(), BuildError> {
    words.push_str("writable .data 800000 ")?;
    for number in 0..count {
        let pointer = address(number).swap_bytes();
        words.push_str(&format!(in alloc; "{pointer:016x}")?)?;
    }
    words.push('\n')?;
    Ok(())
}

// Appends the symbol of a function, its pointer's relocation, and the path of its run, which adds 5 and 3 in turn.
fn push_function(alloc: Global, words: &mut String, number: u8) -> Result<(), BuildError> {
    let start = address(number);
    let pointer = POINTERS + 8 * number as u64;
    let lines = format!(in alloc;
        "function f{number:02} {start:x} 30\nreloc {pointer:x} 64 @f{number:02}\n"
    )?;
    words.push_str(&lines)?;
    let lines = if number % 2 == 0 {
        format!(in alloc;
            "profile 1 f{number:02} c 1 f{number:02} 18 0 1\nprofile 1 f{number:02} 18 1 f{number:02} 1c 0 1\n"
        )?
    } else {
        format!(in alloc;
            "profile 1 f{number:02} c 1 f{number:02} 10 0 1\nprofile 1 f{number:02} 14 1 f{number:02} 1c 0 1\n"
        )?
    };
    words.push_str(&lines)?;
    Ok(())
}

// Appends the relocation of a function's call of the next one, and its line in the profile.
fn push_call(alloc: Global, words: &mut String, number: u8) -> Result<(), BuildError> {
    let call = address(number).saturating_add(0x1c);
    let next = number as u32 + 1;
    let lines = format!(in alloc;
        "reloc {call:x} CALL_PLT @f{next:02}\nprofile 1 f{number:02} 20 1 f{next:02} 0 0 1\n"
    )?;
    words.push_str(&lines)?;
    Ok(())
}

/// The description of the file, with a symbol for each function and a relocation for each call and pointer, and the
/// profile of its run.
pub fn sample_in_words(alloc: Global, sample: &Sample) -> Result<String, BuildError> {
    let mut words = String::new(alloc);
    push_code_lines(alloc, &mut words, sample)?;
    push_pointers(alloc, &mut words, sample.functions)?;
    for number in 0..sample.functions {
        push_function(alloc, &mut words, number)?;
    }
    for number in 1..sample.functions {
        push_call(alloc, &mut words, number - 1)?;
    }
    let call = format!(in alloc;
        "reloc {:x} CALL_PLT @f00\n",
        address(sample.functions).saturating_add(4)
    )?;
    words.push_str(&call)?;
    Ok(words)
}
