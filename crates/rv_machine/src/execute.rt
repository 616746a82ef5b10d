// All instructions except system calls.
ghost use Rattle.std.specs.Prelude.{◌≡◌, ◌≢◌, ◌*◌, ◌/◌, ◌<◌, ◌≤◌, ℕ, List};

use crate::machine::Machine;
use crate::stepped::Stepped;
use rv_code::{Action, Cause, Extension, Test};
use rv_memory::rights::Access;

impl<'a> Machine<'a> {
    ghost use Rattle.rv_code.specs.machine.Machine.{all_may, low_bytes, may_read, may_write};
    ghost use Rattle.rv_code.specs.isa.Extension.{bytes_of};
    ghost use Rattle.rv_code.specs.machine.Step.{address, effect, loads, stores};
    ghost use Rattle.rv_code.specs.isa.TwosComplement.{unsigned64};
    ghost use Rattle.rv_machine.specs.State.{state_of, HasRegisters};
    ghost use Rattle.rv_machine.specs.StepResults.{Becomes};

    // Does an instruction. `next` is the address of the instruction after it.
    pub(crate) fn execute(&mut self, action: Action, next: u64) -> Stepped
        requires registers { HasRegisters action }
        requires no_call { action ≢ Action.SystemCall }
        ensures { (input : List ℕ) → Becomes (effect action next (state_of self.old input)) result self.old self.new
            input }
    {
        match action {
            Action::Compute {
                op,
                rd,
                left,
                right,
            } => {
                let value = op.apply(self.operand(left), self.operand(right));
                self.write_register(rd, value, next)
            }
            Action::Branch {
                test,
                wanted,
                rs1,
                rs2,
                imm,
            } => {
                let target = self.pc.wrapping_add(imm.cast_unsigned());
                let met = test.holds(self.register(rs1), self.register(rs2));
                self.go_to(if met == wanted { target } else { next })
            }
            Action::Jump { rd, imm } => {
                let target = self.pc.wrapping_add(imm.cast_unsigned());
                self.write_register(rd, next, target)
            }
            Action::JumpTo { rd, rs1, imm } => {
                let target = self.jump_target(rs1, imm);
                self.write_register(rd, next, target)
            }
            Action::Upper { rd, imm } => {
                let value = imm.cast_unsigned().wrapping_mul(4096);
                self.write_register(rd, value, next)
            }
            Action::UpperPc { rd, imm } => {
                let value = self.pc.wrapping_add(imm.cast_unsigned().wrapping_mul(4096));
                self.write_register(rd, value, next)
            }
            Action::Load {
                extension,
                rd,
                rs1,
                imm,
            } => {
                let address = self.address(rs1, imm);
                self.load_number(extension, rd, address, next)
            }
            Action::Store {
                bytes,
                rs1,
                rs2,
                imm,
            } => {
                let address = self.address(rs1, imm);
                let value = self.register(rs2);
                self.store_number(bytes, value, address, next)
            }
            Action::Fence => self.go_to(next),
            Action::SystemCall => unreachable!(),
            Action::Breakpoint => self.trap(Cause::Break),
        }
    }

    // The target of an indirect jump, with its lowest bit cleared. ISA manual, section 2.5.1.
    fn jump_target(&self, rs1: u8, imm: i64) -> u64
        ensures { (input : List ℕ) → result ≡ address (state_of self.now input) rs1 (unsigned64 imm) / 2 * 2 }
    {
        self.address(rs1, imm) / 2 * 2
    }

    fn load_number(&mut self, extension: Extension, rd: u8, address: u64, next: u64) -> Stepped
        requires { rd < 32 }
        ensures { (input : List ℕ) → let s = state_of self.old input in
            Becomes (loads s next rd extension address (all_may (may_read s) address (bytes_of extension)))
            result self.old self.new input }
    {
        let count = extension.bytes();
        if !self.memory.may_all(Access::Read, address, count as usize) {
            return self.trap(Cause::Load);
        }
        let number = self.memory.number(address, count);
        self.write_register(rd, extension.extend(number), next)
    }

    // Stores the low `count` bytes of `value` at `address`.
    fn store_number(&mut self, count: u8, value: u64, address: u64, next: u64) -> Stepped
        requires { count ≤ 8 }
        ensures { (input : List ℕ) → let s = state_of self.old input in
            Becomes (stores s next address (low_bytes count value) (all_may (may_write s) address count))
            result self.old self.new input }
    {
        if !self.memory.may_all(Access::Write, address, count as usize) {
            return self.trap(Cause::Store);
        }
        if self.memory.store(address, count, value).is_err() {
            return Stepped::Memory;
        }
        self.pc = next;
        Stepped::Going
    }
}
