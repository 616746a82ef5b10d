// Tests the arithmetic of rv_code.
use rv_code::{Extension, Inst, op_value, taken};
use rv_decode::decode;
use std::alloc::Global;
use std::process::Abort;
use std::test::Fail;
use test_files::assembly::push_assembly;
use test_files::words::hexadecimal;

// An instruction, the values of its two operands, and its result.
const VALUES: &str = "\
# ISA manual, section 13.2, the table of divisions by zero and of overflow.
divu a0,a1,a2 = 14 0 ffffffffffffffff
remu a0,a1,a2 = 14 0 14
div a0,a1,a2 = 14 0 ffffffffffffffff
rem a0,a1,a2 = 14 0 14
div a0,a1,a2 = 8000000000000000 ffffffffffffffff 8000000000000000
rem a0,a1,a2 = 8000000000000000 ffffffffffffffff 0
divuw a0,a1,a2 = ffffffff00000014 100000000 ffffffffffffffff
remuw a0,a1,a2 = ffffffff80000014 100000000 ffffffff80000014
divw a0,a1,a2 = 14 0 ffffffffffffffff
remw a0,a1,a2 = 80000014 0 ffffffff80000014
divw a0,a1,a2 = 80000000 ffffffffffffffff ffffffff80000000
remw a0,a1,a2 = 80000000 ffffffffffffffff 0
# Quotients round toward zero, and remainders have the dividend's sign: of -20, 20, 6 and -6.
div a0,a1,a2 = ffffffffffffffec 6 fffffffffffffffd
div a0,a1,a2 = 14 fffffffffffffffa fffffffffffffffd
div a0,a1,a2 = ffffffffffffffec fffffffffffffffa 3
rem a0,a1,a2 = ffffffffffffffec 6 fffffffffffffffe
rem a0,a1,a2 = 14 fffffffffffffffa 2
divw a0,a1,a2 = ffffffffffffffec 6 fffffffffffffffd
remw a0,a1,a2 = ffffffffffffffec fffffffffffffffa fffffffffffffffe
divu a0,a1,a2 = ffffffffffffffec 6 2aaaaaaaaaaaaaa7
divuw a0,a1,a2 = ffffffffffffffec 6 2aaaaaa7
# The high 64 bits of products, which were worked out apart, as whole numbers.
mulh a0,a1,a2 = aaaaaaaaaaaaaaab 2fe7d ffffffffffff0081
mulhsu a0,a1,a2 = aaaaaaaaaaaaaaab 2fe7d ffffffffffff0081
mulhu a0,a1,a2 = aaaaaaaaaaaaaaab 2fe7d 1fefe
mulh a0,a1,a2 = ffffffff80000000 ffffffffffff8000 0
mulhsu a0,a1,a2 = ffffffff80000000 ffffffffffff8000 ffffffff80000000
mulhu a0,a1,a2 = ffffffff80000000 ffffffffffff8000 ffffffff7fff8000
mulh a0,a1,a2 = 8000000000000000 8000000000000000 4000000000000000
mul a0,a1,a2 = ffffffffffffffff ffffffffffffffff 1
mulw a0,a1,a2 = 80000000 3 ffffffff80000000
# Shifts, comparisons and cuts to words.
sll a0,a1,a2 = 1 3f 8000000000000000
sll a0,a1,a2 = 1 40 1
srl a0,a1,a2 = 8000000000000000 3f 1
sra a0,a1,a2 = 8000000000000000 3f ffffffffffffffff
sllw a0,a1,a2 = 1 1f ffffffff80000000
sllw a0,a1,a2 = 1 20 1
srlw a0,a1,a2 = ffffffffffffffff 4 fffffff
sraw a0,a1,a2 = 80000000 1f ffffffffffffffff
sraw a0,a1,a2 = 17fffffff 20 7fffffff
addw a0,a1,a2 = 7fffffff 1 ffffffff80000000
subw a0,a1,a2 = 0 1 ffffffffffffffff
add a0,a1,a2 = ffffffffffffffff 1 0
sub a0,a1,a2 = 0 1 ffffffffffffffff
slt a0,a1,a2 = ffffffffffffffff 0 1
sltu a0,a1,a2 = ffffffffffffffff 0 0
xor a0,a1,a2 = ff0 ff f0f
or a0,a1,a2 = ff0 ff fff
and a0,a1,a2 = ff0 ff f0
# With an immediate, which is the second operand; and an instruction that computes nothing.
sltiu a0,a1,-1 = 5 ffffffffffffffff 1
sraiw a0,a1,4 = 80000000 4 fffffffff8000000
ecall = 5 6 0";

// Whether a branch is taken: 1 or 0.
const TAKEN: &str = "\
bge a0,a1,-8 = ffffffffffffffff 0 0
bgeu a0,a1,-8 = ffffffffffffffff 0 1
bge a0,a1,-8 = 7 7 1
ebreak = 7 7 0";

// The instruction of a line.
fn instruction(alloc: Global, text: &str) -> Result<Inst, Fail> {
    let mut code = Vec::new(alloc);
    push_assembly(&mut code, text)?;
    let word: [u8; 4] = code.as_slice().try_into()?;
    let word = u32::from_le_bytes(word);
    let halves = ((word % 65536) as u16, (word / 65536) as u16);
    let (inst, _) = decode(halves.0, Some(halves.1)).ok_or("no instruction")?;
    Ok(inst)
}

fn check_lines(
    rt: &impl Abort,
    alloc: Global,
    table: &str,
    are_branches: bool,
) -> Result<(), Fail> {
    for line in table.lines() {
        if let Some((text, numbers)) = line.split_once(" = ") {
            let inst = instruction(alloc, text)?;
            let mut numbers = numbers.split(' ');
            let left = hexadecimal(numbers.next().unwrap_or(""))?;
            let right = hexadecimal(numbers.next().unwrap_or(""))?;
            let wanted = hexadecimal(numbers.next().unwrap_or(""))?;
            let result = if are_branches {
                taken(&inst, left, right) as u64
            } else {
                op_value(&inst, left, right)
            };
            assert_eq!(rt; result, wanted, "{line}");
        }
    }
    Ok(())
}

#[test]
fn computes_and_branches_as_the_instruction_says(rt: HostRuntime) -> Result<(), Fail> {
    check_lines(&rt, rt.alloc(), VALUES, false)?;
    check_lines(&rt, rt.alloc(), TAKEN, true)
}

#[test]
fn extends_loaded_numbers(rt: HostRuntime) {
    assert_eq!(rt; Extension::Signed8.extend(0x80), 0xffff_ffff_ffff_ff80);
    assert_eq!(rt; Extension::Zero8.extend(0x80), 0x80);
    assert_eq!(rt; Extension::Signed16.extend(0x7fff), 0x7fff);
    assert_eq!(rt; Extension::Zero16.extend(0x8000), 0x8000);
    assert_eq!(rt;
        Extension::Signed32.extend(0x8000_0000),
        0xffff_ffff_8000_0000
    );
    assert_eq!(rt; Extension::Zero32.extend(0x8000_0000), 0x8000_0000);
    assert_eq!(rt; Extension::Whole64.extend(1 << 63), 1 << 63);
    assert_eq!(rt; Extension::Signed16.bytes(), 2);
}
