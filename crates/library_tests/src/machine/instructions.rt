// Tests results of instructions that checks/machine_results.py takes from qemu.
use crate::machine::results::RESULTS;
use crate::machine::running::run_in_words;
use rv_machine::Stepped;
use std::alloc::Global;
use std::test::Fail;
use test_files::bytes::push_u64s;
use test_files::words::hexadecimal;

// An instruction, the values of x11 and of x12 before it, and its result.
#[derive(Clone, Copy)]
struct Row {
    word: u64,
    left: u64,
    right: u64,
    result: u64,
}

fn parse(line: &str) -> Option<Row> {
    let mut numbers = line.split(' ');
    Some(Row {
        word: hexadecimal(numbers.next()?).ok()?,
        left: hexadecimal(numbers.next()?).ok()?,
        right: hexadecimal(numbers.next()?).ok()?,
        result: hexadecimal(numbers.next()?).ok()?,
    })
}

// The instruction after the tested one, so that a0 shows its effect: LI a0,1 after a branch, which skips it if taken;
// LD a0,16(s0) after a store; and a NOP after others.
fn follow(word: u64) -> &'static str {
    match word % 128 {
        0x63 => "addi a0,zero,1",
        0x23 => "ld a0,16(s0)",
        _ => "nop",
    }
}

// The description of the file. The operands of each row are loaded from the data, and its result is stored there. At
// the end come write(1, data, s0 - data) and exit(0).
fn file(alloc: Global) -> Result<String, Fail> {
    let mut code = String::from_str(alloc, "flags 1\ncode .text 100b0 lui s0,80")?;
    let mut data = String::from_str(alloc, "\nsegment rw 3000 50000\nwritable .data 50000 ")?;
    for line in RESULTS.lines() {
        let row = parse(line).ok_or("no row")?;
        let (word, then) = (row.word, follow(row.word));
        let part = format!(in alloc;
            "; ld a1,0(s0); ld a2,8(s0); addi a0,zero,0; .word {word:x}; {then}; sd a0,16(s0); addi s0,s0,24"
        )?;
        code.push_str(&part)?;
        let (left, right) = (row.left.swap_bytes(), row.right.swap_bytes());
        data.push_str(&format!(in alloc; "{left:016x}{right:016x}0000000000000000")?)?;
    }
    code.push_str(
        "; addi a7,zero,64; addi a0,zero,1; lui a1,80; sub a2,s0,a1; ecall; addi a7,zero,93; addi a0,zero,0; ecall",
    )?;
    code.push_str(&data)?;
    Ok(code)
}

#[test]
fn results_are_those_of_qemu(rt: HostRuntime) -> Result<(), Fail> {
    let alloc = rt.alloc();
    let run = run_in_words(alloc, &file(alloc)?)?;
    assert_eq!(rt; run.ran.end, Stepped::Ended(0));
    assert_eq!(rt; run.taken.len(), 303 * 24);
    for (got, line) in run.taken.chunks(24).zip(RESULTS.lines()) {
        let row = parse(line).ok_or("no row")?;
        let mut want = Vec::new(alloc);
        push_u64s(&mut want, &[row.left, row.right, row.result])?;
        assert_eq!(rt; got, want.as_slice(), "{line}");
    }
    Ok(())
}
