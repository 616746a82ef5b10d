// The machine between two steps, and its registers.
ghost use Rattle.std.specs.Prelude.{◌≡◌, ◌<◌, ℕ, List};

use crate::stepped::Stepped;
use rv_code::{Cause, Operand};
use rv_memory::memory::Memory;

/// A machine that runs an ELF file: the instructions of RV64IMC and a few system calls of Linux.
#[derive(Drop)]
pub struct Machine<'a> {
    pub(crate) pc: u64,
    pub(crate) registers: [u64; 32],
    pub(crate) memory: Memory<'a>,
}

impl<'a> Machine<'a> {
    ghost use Rattle.rv_code.specs.isa.TwosComplement.{unsigned64};
    ghost use Rattle.rv_code.specs.machine.Step.{operand, address, goes_to, writes_register};
    ghost use Rattle.rv_machine.specs.State.{state_of, registers_of};
    ghost use Rattle.rv_machine.specs.StepResults.{Becomes};

    /// The address of the next instruction.
    pub fn pc(&self) -> u64
        ensures { (input : List ℕ) → result ≡ (state_of self.now input).pc }
    {
        self.pc
    }

    /// The value of a register, 0 for numbers past 31.
    pub(crate) fn register(&self, register: u8) -> u64
        ensures { result ≡ registers_of self.now register }
    {
        if register < 32 {
            self.registers[register as usize]
        } else {
            0
        }
    }

    pub(crate) fn operand(&self, source: Operand) -> u64
        ensures { (input : List ℕ) → result ≡ operand (state_of self.now input) source }
    {
        match source {
            Operand::Register(register) => self.register(register),
            Operand::Immediate(imm) => imm.cast_unsigned(),
        }
    }

    // The sum of a register and an offset, modulo 2^64.
    pub(crate) fn address(&self, rs1: u8, imm: i64) -> u64
        ensures { (input : List ℕ) → result ≡ address (state_of self.now input) rs1 (unsigned64 imm) }
    {
        self.register(rs1).wrapping_add(imm.cast_unsigned())
    }

    pub(crate) fn go_to(&mut self, next: u64) -> Stepped
        ensures { (input : List ℕ) → Becomes (goes_to (state_of self.old input) next) result self.old self.new input }
    {
        self.pc = next;
        Stepped::Going
    }

    // Writes `value` to register `rd`, and goes on at `next`. Register 0 stays 0.
    pub(crate) fn write_register(&mut self, rd: u8, value: u64, next: u64) -> Stepped
        requires { rd < 32 }
        ensures { (input : List ℕ) →
            Becomes (writes_register (state_of self.old input) next rd value) result self.old self.new input }
    {
        if rd != 0 {
            self.registers[rd as usize] = value;
        }
        self.pc = next;
        Stepped::Going
    }

    pub(crate) fn trap(&self, cause: Cause) -> Stepped
        ensures { result ≡ Stepped.Trap self.now.pc cause }
    {
        Stepped::Trap(self.pc, cause)
    }
}
