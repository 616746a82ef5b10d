// The machine between two steps, and its registers.
ghost use Rattle.std.specs.Prelude.{◌≡◌, ℕ, List};

use crate::inst_index::InstIndex;
use crate::memory::SymMemory;
use crate::outcome::{Reason, SymStepped};
use crate::value::Value;

/// One for each `u8`, so that a look-up needs no bounds check. No instruction names a register past 31.
pub(crate) const REGISTERS: usize = 256;

/// A machine that runs a file's functions, with code addresses as symbols.
#[derive(Drop)]
pub struct SymMachine<'a> {
    pub(crate) pc: u64,
    pub(crate) registers: [Value; REGISTERS],
    pub(crate) memory: SymMemory<'a>,
    pub(crate) code: InstIndex<'a>,
}

/// What a step changes if it leaves memory unchanged: one register and the pc. Register 0 isn't written.
#[derive(Clone, Copy)]
pub struct Change {
    pub rd: u8,
    pub value: Value,
    pub next: u64,
}

impl<'a> SymMachine<'a> {
    ghost use Rattle.sym_machine.specs.SymStep.{writes_register};
    ghost use Rattle.sym_machine.specs.MachineState.{state_of, registers_of, Becomes, changes};

    /// The address of the next instruction.
    pub fn pc(&self) -> u64
        ensures { (input : List ℕ) → result ≡ (state_of self.now input).pc }
    {
        self.pc
    }

    /// The value of a register.
    pub(crate) fn register(&self, register: u8) -> Value
        ensures { result ≡ registers_of self.now register }
    {
        self.registers[register as usize]
    }

    pub(crate) fn stuck(&self, why: Reason) -> SymStepped
        ensures { result ≡ SymStepped.Stuck self.now.pc why }
    {
        SymStepped::Stuck(self.pc, why)
    }

    // Writes `value` to register `rd`, and goes on at `next`. Register 0 stays unchanged.
    pub(crate) fn write_register(&mut self, rd: u8, value: Value, next: u64) -> SymStepped
        ensures code { self.new.code ≡ self.old.code }
        ensures answer { (input : List ℕ) →
            Becomes (writes_register (state_of self.old input) next rd value) result self.old self.new input }
    {
        if rd != 0 {
            self.registers[rd as usize] = value;
        }
        self.pc = next;
        SymStepped::Going
    }

    // Applies the change of an instruction, or is stuck.
    pub(crate) fn apply(&mut self, change: Result<Change, Reason>) -> SymStepped
        ensures code { self.new.code ≡ self.old.code }
        ensures answer { (input : List ℕ) → Becomes (changes (state_of self.old input) change) result self.old self.new
            input }
    {
        match change {
            Ok(change) => self.write_register(change.rd, change.value, change.next),
            Err(why) => self.stuck(why),
        }
    }
}
