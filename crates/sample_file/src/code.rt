// The code of a sample: its instructions with their addresses, and the parts of addresses that they have.
ghost use Rattle.std.specs.Prelude.{◌≡◌, ◌+◌, ◌-◌, ◌*◌, ◌<◌, ◌≤◌, ◌^◌, pos, ◌-ℤ◌, ◌≤ℤ◌};
ghost use Rattle.rv_code.specs.isa.HiLo.{hi20, lo12};
ghost use Rattle.sample_file.specs.SampleCode.{placed, plain, call_high, call_low, next_high, next_low, function_insts};
ghost use Rattle.sample_file.specs.SampleCode.{start_insts};

use crate::places::{CODE, function_at};
use rb_bytes::fault::NoMemory;
use rb_bytes::little::put_u32;
use rv_code::{Inst, Placed, RETURN_ADDRESS, Role, STACK_POINTER, Width, ZERO};
use rv_encode::{Word, encode};
use std::alloc::Global;

// Registers by their ABI names. psABI, "Integer Register Convention".
const T0: u8 = 5;

const A0: u8 = 10;

const A7: u8 = 17;

// The number of the system call that exits.
const EXIT: i64 = 93;

fn placed(addr: u64, inst: Inst, role: Role) -> Placed
    ensures { result ≡ placed addr inst role }
{
    Placed {
        addr,
        len: 4,
        inst,
        role,
    }
}

fn plain(addr: u64, inst: Inst) -> Placed
    ensures { result ≡ plain addr inst }
{
    placed(addr, inst, Role::Plain)
}

// The distance of `to` from `from`.
fn distance(to: u64, from: u64) -> i64
    requires to_low { to < 2 ^ 62 }
    requires from_low { from < 2 ^ 62 }
    ensures { result ≡ pos to -ℤ pos from }
{
    to as i64 - from as i64
}

// The upper part of a number, rounded so that the lower part fits in 12 bits with a sign.
fn upper(v: i64) -> i64
    requires { v ≤ℤ pos (2 ^ 62) }
    ensures { result ≡ hi20 v }
{
    (v + 0x800) >> 12
}

// The lower part of a number: the number minus its upper part.
fn lower(v: i64) -> i64
    requires low { (pos 0 -ℤ pos (2 ^ 62)) ≤ℤ v }
    requires high { v ≤ℤ pos (2 ^ 62) }
    ensures { result ≡ lo12 v }
{
    v - 4096 * upper(v)
}

// The AUIPC of a call of the function at `to`.
fn call_high(at: u64, to: u64) -> Placed
    requires at_low { at < 2 ^ 62 }
    requires to_low { to < 2 ^ 62 }
    ensures { result ≡ call_high at to }
{
    let imm = upper(distance(to, at));
    let inst = Inst::Auipc {
        rd: RETURN_ADDRESS,
        imm,
    };
    placed(at, inst, Role::CallHi { target: to })
}

// The JALR after the AUIPC at `at`.
fn call_low(at: u64, to: u64) -> Placed
    requires at_low { at < 2 ^ 62 }
    requires to_low { to < 2 ^ 62 }
    ensures { result ≡ call_low at to }
{
    let imm = lower(distance(to, at));
    let inst = Inst::Jalr {
        rd: RETURN_ADDRESS,
        rs1: RETURN_ADDRESS,
        imm,
    };
    placed(at + 4, inst, Role::CallLo { hi: at, target: to })
}

const NOP: Inst = Inst::Addi {
    rd: ZERO,
    rs1: ZERO,
    imm: 0,
};

// `next_high` and `next_low` are the two instructions that call the function at `to`; in the last function they are two
// nops. `at` is the address of the first one for both calls.
fn next_high(is_last: bool, at: u64, to: u64) -> Placed
    requires at_low { at < 2 ^ 62 }
    requires to_low { to < 2 ^ 62 }
    ensures { result ≡ next_high is_last at to }
{
    if is_last {
        plain(at, NOP)
    } else {
        call_high(at, to)
    }
}

fn next_low(is_last: bool, at: u64, to: u64) -> Placed
    requires at_low { at < 2 ^ 62 }
    requires to_low { to < 2 ^ 62 }
    ensures { result ≡ next_low is_last at to }
{
    if is_last {
        plain(at + 4, NOP)
    } else {
        call_low(at, to)
    }
}

fn addi(rd: u8, rs1: u8, imm: i64) -> Inst
    ensures { result ≡ Inst.Addi rd rs1 imm }
{
    Inst::Addi { rd, rs1, imm }
}

// Sets T0 to 1 if the argument is odd, otherwise to 0.
fn is_odd() -> Inst
    ensures { result ≡ Inst.Andi 5 10 (pos 1) }
{
    Inst::Andi {
        rd: T0,
        rs1: A0,
        imm: 1,
    }
}

// Skips the two instructions for odd numbers: the target is 12 bytes after the branch.
fn skip_if_even() -> Inst
    ensures { result ≡ Inst.Beq 5 0 (pos 12) }
{
    Inst::Beq {
        rs1: T0,
        rs2: ZERO,
        imm: 12,
    }
}

fn save() -> Inst
    ensures { result ≡ Inst.Sd 2 1 (pos 8) }
{
    Inst::Sd {
        rs1: STACK_POINTER,
        rs2: RETURN_ADDRESS,
        imm: 8,
    }
}

fn restore() -> Inst
    ensures { result ≡ Inst.Ld 1 2 (pos 8) }
{
    Inst::Ld {
        rd: RETURN_ADDRESS,
        rs1: STACK_POINTER,
        imm: 8,
    }
}

fn ret() -> Inst
    ensures { result ≡ Inst.Jalr 0 1 (pos 0) }
{
    Inst::Jalr {
        rd: ZERO,
        rs1: RETURN_ADDRESS,
        imm: 0,
    }
}

/// The function at address `a`, which calls the one at `next` unless it is the last one.
pub fn function_insts(is_last: bool, a: u64, next: u64) -> [Placed; 12]
    requires a_low { a < 2 ^ 32 }
    requires next_low { next < 2 ^ 32 }
    ensures { result ≡ function_insts is_last a next }
{
    [
        plain(a, addi(STACK_POINTER, STACK_POINTER, -16)),
        plain(a + 4, save()),
        plain(a + 8, is_odd()),
        plain(a + 0xc, skip_if_even()),
        plain(a + 0x10, addi(A0, A0, 3)),
        plain(a + 0x14, Inst::Jal { rd: ZERO, imm: 8 }),
        plain(a + 0x18, addi(A0, A0, 5)),
        next_high(is_last, a + 0x1c, next),
        next_low(is_last, a + 0x1c, next),
        plain(a + 0x24, restore()),
        plain(a + 0x28, addi(STACK_POINTER, STACK_POINTER, 16)),
        plain(a + 0x2c, ret()),
    ]
}

/// The code at the entry point, which calls the first function and exits with its result.
pub fn start_insts(a: u64) -> [Placed; 5]
    requires { a < 2 ^ 32 }
    ensures { result ≡ start_insts a }
{
    [
        plain(a, addi(A0, ZERO, 0)),
        call_high(a + 4, CODE),
        call_low(a + 4, CODE),
        plain(a + 0xc, addi(A7, ZERO, EXIT)),
        plain(a + 0x10, Inst::Ecall),
    ]
}

// Appends the bytes of instructions.
fn put_insts(code: &mut Vec<u8>, insts: &[Placed]) -> Result<(), NoMemory> {
    for placed in insts {
        match encode(&placed.inst, Width::Full) {
            Some(Word::Full(word)) => put_u32(code, word)?,
            // Unreachable: each instruction of a sample has an encoding of four bytes.
            _ => return Err(NoMemory),
        }
    }
    Ok(())
}

/// The bytes of the code of a sample with `n` functions.
pub fn code(alloc: Global, n: u64) -> Result<Vec<u8>, NoMemory>
    requires { n ≤ 1000 }
{
    let mut code = Vec::new(alloc);
    for k in 0..n {
        let insts = function_insts(k + 1 == n, function_at(k), function_at(k + 1));
        put_insts(&mut code, &insts)?;
    }
    put_insts(&mut code, &start_insts(function_at(n)))?;
    Ok(code)
}
