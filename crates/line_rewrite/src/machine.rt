// The state machine. DWARF 5, sections 6.2.2 and 6.2.5.
ghost use Rattle.std.specs.Prelude.{◌≡◌, ◌<◌, ◌≤◌, ◌+◌, ◌*◌, ◌%◌, ◌^◌, IsFalse, IsTrue, None, Some};
ghost use Rattle.std.specs.Int.{w64, cast_unsigned};
ghost use Rattle.line_rewrite.specs.LineMachine.{start, advanced, address_advance, line_advance, after_op};
ghost use Rattle.line_rewrite.specs.LineMachine.{after_row, effect_of};

use crate::coding::Coding;
use crate::effect::Effect;
use crate::operation::LineOp;
use crate::registers::Registers;

/// The registers at the start of a sequence.
pub fn start(coding: &Coding) -> Registers
    ensures { result ≡ start coding.now }
{
    Registers {
        address: 0,
        file: 1,
        line: 1,
        column: 0,
        is_stmt: coding.default_is_stmt,
        basic_block: false,
        prologue_end: false,
        epilogue_begin: false,
        isa: 0,
        discriminator: 0,
    }
}

// Advances the address by `n` bytes; `false` if it would pass 64 bits.
fn advance(n: u64, registers: &mut Registers) -> bool
    ensures stays { IsTrue result → Some registers.new ≡ advanced n registers.old }
    ensures passes { IsFalse result → None ≡ advanced n registers.old }
{
    match registers.address.checked_add(n) {
        Some(address) => {
            registers.address = address;
            true
        }
        None => false,
    }
}

// The line advanced by `by`, modulo 2^64.
fn lined(by: i64, line: u64) -> u64
    ensures { result ≡ (line + cast_unsigned w64 by) % 2 ^ 64 }
{
    line.wrapping_add(by.cast_unsigned())
}

// The address advance of a special opcode.
fn address_advance(coding: &Coding, adjusted: u8) -> u64
    requires { 0 < coding.now.line_range }
    ensures { result ≡ address_advance coding.now adjusted }
{
    (adjusted / coding.line_range) as u64 * coding.minimum_instruction_length as u64
}

// The line advance of a special opcode.
fn line_advance(coding: &Coding, adjusted: u8) -> i64
    requires { 0 < coding.now.line_range }
    ensures { result ≡ line_advance coding.now adjusted }
{
    coding.line_base as i64 + (adjusted % coding.line_range) as i64
}

// Advances the address by `n` instructions of the least length; `false` if it would pass 64 bits.
fn advance_by(coding: &Coding, n: u64, registers: &mut Registers) -> bool
    ensures stays { IsTrue result →
        Some registers.new ≡ advanced (n * coding.now.minimum_instruction_length) registers.old }
    ensures passes { IsFalse result → None ≡ advanced (n * coding.now.minimum_instruction_length) registers.old }
{
    match n.checked_mul(coding.minimum_instruction_length as u64) {
        Some(by) => advance(by, registers),
        None => false,
    }
}

/// Changes the registers to those after an operation. If it appends a row, they are that row. `false` if the address
/// would pass 64 bits.
pub fn step(coding: &Coding, op: LineOp, registers: &mut Registers) -> bool
    requires { 0 < coding.now.line_range }
    ensures stays { IsTrue result → Some registers.new ≡ after_op coding.now op registers.old }
    ensures passes { IsFalse result → None ≡ after_op coding.now op registers.old }
{
    match op {
        LineOp::Special(adjusted) => {
            registers.line = lined(line_advance(coding, adjusted), registers.line);
            return advance(address_advance(coding, adjusted), registers);
        }
        LineOp::AdvancePc(n) => return advance_by(coding, n, registers),
        LineOp::ConstAddPc => {
            return advance(address_advance(coding, 255 - coding.opcode_base), registers);
        }
        LineOp::FixedAdvancePc(n) => return advance(n as u64, registers),
        LineOp::SetAddress(address) => registers.address = address,
        LineOp::AdvanceLine(by) => registers.line = lined(by, registers.line),
        LineOp::SetFile(file) => registers.file = file,
        LineOp::SetColumn(column) => registers.column = column,
        LineOp::NegateStmt => registers.is_stmt = !registers.is_stmt,
        LineOp::SetBasicBlock => registers.basic_block = true,
        LineOp::SetPrologueEnd => registers.prologue_end = true,
        LineOp::SetEpilogueBegin => registers.epilogue_begin = true,
        LineOp::SetIsa(isa) => registers.isa = isa,
        LineOp::SetDiscriminator(discriminator) => registers.discriminator = discriminator,
        LineOp::Copy | LineOp::EndSequence | LineOp::Unknown => {}
    }
    true
}

/// The effect of an operation on the table.
pub fn effect_of(op: LineOp) -> Effect
    ensures { result ≡ effect_of op }
{
    match op {
        LineOp::Special(_) | LineOp::Copy => Effect::Appends,
        LineOp::EndSequence => Effect::Ends,
        _ => Effect::Sets,
    }
}

/// The registers after a row was appended: some flags and the discriminator only hold for one row.
pub fn after_row(registers: Registers) -> Registers
    ensures { result ≡ after_row registers }
{
    Registers {
        basic_block: false,
        prologue_end: false,
        epilogue_begin: false,
        discriminator: 0,
        ..registers
    }
}
