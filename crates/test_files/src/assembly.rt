// Assembles instructions. ISA manual, "RV32/64G Instruction Set Listings"; psABI, "Integer Register Convention".
use crate::bytes::push_u32;
use crate::error::BuildError;

// A line is a mnemonic, the format of its instruction, and in hexadecimal the bits that don't depend on operands.
const INSTRUCTIONS: &str = "\
lui U 37
auipc U 17
jal J 6f
jalr I 67
beq B 63
bne B 1063
bge B 5063
bgeu B 7063
lbu I 4003
lw I 2003
ld I 3003
sw S 2023
sd S 3023
addi I 13
sltiu I 3013
andi I 7013
slli I 1013
srli I 5013
sraiw I 4000501b
add R 33
sub R 40000033
sll R 1033
slt R 2033
sltu R 3033
xor R 4033
srl R 5033
sra R 40005033
or R 6033
and R 7033
addw R 3b
subw R 4000003b
sllw R 103b
srlw R 503b
sraw R 4000503b
mul R 2000033
mulh R 2001033
mulhsu R 2002033
mulhu R 2003033
div R 2004033
divu R 2005033
rem R 2006033
remu R 2007033
mulw R 200003b
divw R 200403b
divuw R 200503b
remw R 200603b
remuw R 200703b
nop N 13
ecall N 73
ebreak N 100073";

// The registers by number.
const REGISTERS: &str = "\
zero ra sp gp tp t0 t1 t2 s0 s1 a0 a1 a2 a3 a4 a5 a6 a7 s2 s3 s4 s5 s6 s7 s8 s9 s10 s11 t3 t4 t5 t6";

/// A number in hexadecimal.
pub fn hexadecimal(text: &str) -> Result<u64, BuildError> {
    u64::from_str_radix(text, 16).ok().ok_or(BuildError::NoWord)
}

/// A number in decimal.
pub fn decimal(text: &str) -> Result<u32, BuildError> {
    text.parse::<u32>().ok().ok_or(BuildError::NoWord)
}

// The number of a register, or a decimal number in two's complement.
fn operand(text: &str) -> Option<u64> {
    for (number, name) in REGISTERS.split(' ').enumerate() {
        if name == text {
            return Some(number as u64);
        }
    }
    let number = text.parse::<i64>().ok()?;
    Some(number.cast_unsigned())
}

// Three operands: `a, b, c`, or `a, c(b)`; for `a, b` the third is 0.
fn operands(text: &str) -> Option<[u64; 3]> {
    let Some((first, rest)) = text.split_once(',') else {
        return Some([0; 3]);
    };
    let (second, third) = if let Some((offset, base)) = rest.split_once('(') {
        let (base, _) = base.split_once(')')?;
        (base, offset)
    } else if let Some(both) = rest.split_once(',') {
        both
    } else {
        (rest, "0")
    };
    Some([operand(first)?, operand(second)?, operand(third)?])
}

// The bits of an instruction's operands at their positions in its word.
fn place_operands(format: &str, [a, b, c]: [u64; 3]) -> u64 {
    match format.as_bytes().first() {
        Some(b'R') => a << 7 | b << 15 | c << 20,
        Some(b'I') => a << 7 | b << 15 | (c & 0xfff) << 20,
        Some(b'S') => (c & 0x1f) << 7 | b << 15 | a << 20 | (c >> 5 & 0x7f) << 25,
        Some(b'B') => {
            let low = (c >> 11 & 1) << 7 | (c >> 1 & 0xf) << 8;
            low | a << 15 | b << 20 | (c >> 5 & 0x3f) << 25 | (c >> 12 & 1) << 31
        }
        Some(b'U') => a << 7 | (b & 0xf_ffff) << 12,
        Some(b'J') => {
            let low = (b >> 12 & 0xff) << 12 | (b >> 11 & 1) << 20;
            a << 7 | low | (b >> 1 & 0x3ff) << 21 | (b >> 20 & 1) << 31
        }
        _ => 0,
    }
}

// The word of an instruction.
fn instruction(mnemonic: &str, rest: &str) -> Option<u32> {
    for line in INSTRUCTIONS.lines() {
        let mut columns = line.split(' ');
        if columns.next() == Some(mnemonic) {
            let format = columns.next()?;
            let fixed = u64::from_str_radix(columns.next()?, 16).ok()?;
            let word = fixed | place_operands(format, operands(rest)?);
            return u32::try_from(word).ok();
        }
    }
    None
}

// The encoding of an instruction (a word, a halfword, or a mnemonic with operands), and its length in bytes.
fn encoded(mnemonic: &str, rest: &str) -> Result<(u32, usize), BuildError> {
    if mnemonic == ".half" {
        return Ok(((hexadecimal(rest)? % 0x1_0000) as u32, 2));
    }
    if mnemonic == ".word" {
        return Ok(((hexadecimal(rest)? % 0x1_0000_0000) as u32, 4));
    }
    let word = instruction(mnemonic, rest).ok_or(BuildError::NoWord)?;
    Ok((word, 4))
}

/// Appends instructions. `.rept N` repeats the instruction after it, and `exit` stands for `addi a7,zero,93; ecall`,
/// which ends the program with the status in a0.
pub fn push_assembly(code: &mut Vec<u8>, text: &str) -> Result<(), BuildError> {
    for line in text.split("; ") {
        let mut words = line.split(' ');
        let mut first = words.next().unwrap_or("");
        let mut count = 1;
        if first == "exit" {
            push_u32(code, 0x05d0_0893)?;
            first = "ecall";
        } else if first == ".rept" {
            count = decimal(words.next().unwrap_or(""))?;
            first = words.next().unwrap_or("");
        }
        let (word, size) = encoded(first, words.next().unwrap_or(""))?;
        for _ in 0..count {
            for byte in word.to_le_bytes().iter().take(size) {
                code.push(*byte)?;
            }
        }
    }
    Ok(())
}
