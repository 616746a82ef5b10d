// The instructions that leave memory unchanged, except system calls.
ghost use Rattle.std.specs.Prelude.{◌≡◌, ◌≤◌, ◌*◌, ◌%◌, ◌^◌, ℕ, List, Ok, Some, None, Result};
ghost use Rattle.sym_machine.specs.SymStep.{goes_to};

use crate::accesses::piece;
use crate::arithmetic::on_constant;
use crate::branches::tested;
use crate::jumps::pointer;
use crate::machine::{Change, SymMachine};
use crate::outcome::Reason;
use crate::parts::{is_lower, upper_of_address, upper_of_distance};
use crate::symbols::number;
use crate::value::{CodeSymbol, Pointer, Value};
use rv_code::{Action, Extension, Op, Operand, Role, Test};
use rv_memory::rights::Access;

// Goes to a pc and leaves the registers unchanged: a write to register 0 has no effect.
fn go_to(next: u64) -> Change
    ensures { result ≡ record { rd = 0; value = Value.Num 0; next = next } }
{
    Change {
        rd: 0,
        value: Value::Num(0),
        next,
    }
}

impl<'a> SymMachine<'a> {
    ghost use Rattle.rv_code.specs.machine.Machine.{plus, all_may, may_read, memory_bytes};
    ghost use Rattle.rv_code.specs.isa.Extension.{bytes_of};
    ghost use Rattle.rv_code.specs.isa.TwosComplement.{unsigned64};
    ghost use Rattle.sym_machine.specs.Rules.{combined, base_of, computed, place, loaded_symbol};
    ghost use Rattle.sym_machine.specs.SymStep.{effect, needs, writes_register, branches, jumps, jumps_to, loads};
    ghost use Rattle.sym_machine.specs.SymStep.{loads_at};
    ghost use Rattle.sym_machine.specs.MachineState.{state_of, registers_of, funcs_of, changes};
    ghost use Rattle.sym_machine.specs.internal.Memory.{memory_at};
    ghost use Rattle.sym_machine.specs.internal.Accesses.{ChangesRegistersOnly};
    ghost use Rattle.sym_machine.specs.Rules.{upper_of_distance, upper_of_address, tested};

    // The change that an instruction with this role makes. `next` is the address of the instruction after it.
    pub(crate) fn change(&self, role: Role, action: Action, next: u64) -> Result<Change, Reason>
        requires { ChangesRegistersOnly action }
        ensures { (input : List ℕ) →
            changes (state_of self.now input) result ≡ effect (funcs_of self.now) role action next
            (state_of self.now input) }
    {
        match action {
            Action::Compute {
                op,
                rd,
                left,
                right,
            } => self.compute(role, op, rd, left, right, next),
            Action::Branch {
                test,
                wanted,
                rs1,
                rs2,
                imm,
            } => self.branch(test, wanted, rs1, rs2, imm.cast_unsigned(), next),
            Action::Jump { rd, imm } => self.jump_by(rd, imm.cast_unsigned()),
            Action::JumpTo { rd, rs1, imm } => {
                self.jump_to(role, rd, self.register(rs1), imm.cast_unsigned())
            }
            Action::Upper { rd, imm } => self.upper(role, rd, imm.cast_unsigned(), next),
            Action::UpperPc { rd, .. } => self.upper_pc(role, rd, next),
            Action::Load {
                extension,
                rd,
                rs1,
                imm,
            } => self.load_value(
                role,
                extension,
                rd,
                self.register(rs1),
                imm.cast_unsigned(),
                next,
            ),
            Action::Store { .. } => unreachable!(),
            Action::Fence => Ok(go_to(next)),
            Action::SystemCall => unreachable!(),
            Action::Breakpoint => Err(Reason::Break),
        }
    }

    fn operand(&self, operand: Operand) -> Value
        ensures { result ≡ base_of (registers_of self.now) operand }
    {
        match operand {
            Operand::Register(register) => self.register(register),
            Operand::Immediate(imm) => Value::Num(imm.cast_unsigned()),
        }
    }

    // The result of an operation on its operands. No instruction has an immediate as its first operand.
    fn combined(&self, op: Op, left: Operand, right: Operand) -> Option<Value>
        ensures { result ≡ combined (funcs_of self.now) (registers_of self.now) op left right }
    {
        match left {
            Operand::Register(first) => match right {
                Operand::Register(second) => self.on_registers(op, first, second),
                Operand::Immediate(imm) => on_constant(
                    op,
                    self.register(first),
                    imm.cast_unsigned(),
                ),
            },
            Operand::Immediate(_) => None,
        }
    }

    fn on_registers(&self, op: Op, first: u8, second: u8) -> Option<Value>
        ensures { result
            ≡ combined (funcs_of self.now) (registers_of self.now) op (Operand.Register first)
            (Operand.Register second) }
    {
        let left = self.register(first);
        let right = self.register(second);
        if first == 0 {
            self.code.on_zero(op, left, right)
        } else {
            self.code.on_registers(op, left, right)
        }
    }

    fn computed(&self, role: Role, op: Op, left: Operand, right: Operand) -> Option<Value>
        ensures { result ≡ computed (funcs_of self.now) role (registers_of self.now) op left right }
    {
        if is_lower(role) {
            self.code.joined(role, self.operand(left))
        } else {
            self.combined(op, left, right)
        }
    }

    fn compute(
        &self,
        role: Role,
        op: Op,
        rd: u8,
        left: Operand,
        right: Operand,
        next: u64,
    ) -> Result<Change, Reason>
        ensures { (input : List ℕ) → let s = state_of self.now input in
            changes s result
            ≡ needs s Reason.Operate (computed (funcs_of self.now) role (registers_of self.now) op left right)
            (writes_register s next rd) }
    {
        match self.computed(role, op, left, right) {
            Some(value) => Ok(Change { rd, value, next }),
            None => Err(Reason::Operate),
        }
    }

    fn branch(
        &self,
        test: Test,
        wanted: bool,
        rs1: u8,
        rs2: u8,
        offset: u64,
        next: u64,
    ) -> Result<Change, Reason>
        ensures { (input : List ℕ) → let s = state_of self.now input in
            changes s result
            ≡ branches s next (plus s.pc offset) wanted
            (tested test (registers_of self.now rs1) (registers_of self.now rs2)) }
    {
        match tested(test, self.register(rs1), self.register(rs2)) {
            Some(holds) => Ok(go_to(self.way(wanted, holds, offset, next))),
            None => Err(Reason::Compare),
        }
    }

    // The pc after a branch: its target if `holds` is `wanted`, otherwise `next`.
    fn way(&self, wanted: bool, holds: bool, offset: u64, next: u64) -> u64
        ensures { (input : List ℕ) → let s = state_of self.now input in
            branches s next (plus s.pc offset) wanted (Some holds) ≡ goes_to s result }
    {
        let target = self.pc.wrapping_add(offset);
        if wanted {
            if holds { target } else { next }
        } else {
            if holds { next } else { target }
        }
    }

    fn jump_by(&self, rd: u8, offset: u64) -> Result<Change, Reason>
        ensures { (input : List ℕ) → let s = state_of self.now input in
            changes s result ≡ jumps s rd (plus s.pc offset) }
    {
        Ok(self.jump(rd, self.pc.wrapping_add(offset)))
    }

    // A jump to `target` that saves the return address in `rd`.
    fn jump(&self, rd: u8, target: u64) -> Change
        ensures { (input : List ℕ) → changes (state_of self.now input) (Ok result) ≡ jumps
            (state_of self.now input) rd target }
    {
        Change {
            rd,
            value: Value::Sym(CodeSymbol::Points(Pointer::Ret(self.pc))),
            next: target,
        }
    }

    fn jump_to(&self, role: Role, rd: u8, base: Value, offset: u64) -> Result<Change, Reason>
        ensures { (input : List ℕ) →
            changes (state_of self.now input) result
            ≡ jumps_to (funcs_of self.now) (state_of self.now input) role rd base offset }
    {
        let Some(value) = self.code.goal(role, base) else {
            return Err(Reason::Operate);
        };
        let Some(to) = pointer(role, offset, value) else {
            return Err(Reason::NotCode);
        };
        let Some(target) = self.code.destination(to) else {
            return Err(Reason::EndOfFunction);
        };
        Ok(self.jump(rd, target))
    }

    fn upper(&self, role: Role, rd: u8, imm: u64, next: u64) -> Result<Change, Reason>
        ensures { (input : List ℕ) → let s = state_of self.now input in
            changes s result ≡ writes_register s next rd (upper_of_address role (imm * 4096 % 2 ^ 64)) }
    {
        let value = upper_of_address(role, imm.wrapping_mul(4096));
        Ok(Change { rd, value, next })
    }

    fn upper_pc(&self, role: Role, rd: u8, next: u64) -> Result<Change, Reason>
        ensures { (input : List ℕ) → let s = state_of self.now input in
            changes s result ≡ needs s Reason.Operate (upper_of_distance role s.pc) (writes_register s next rd) }
    {
        match upper_of_distance(role, self.pc) {
            Some(value) => Ok(Change { rd, value, next }),
            None => Err(Reason::Operate),
        }
    }

    fn load_value(
        &self,
        role: Role,
        extension: Extension,
        rd: u8,
        base: Value,
        offset: u64,
        next: u64,
    ) -> Result<Change, Reason>
        ensures { (input : List ℕ) → let s = state_of self.now input in
            changes s result ≡ loads s next extension rd (place (funcs_of self.now) role base offset) }
    {
        let Some(at) = self.code.address_of(role, base, offset) else {
            return Err(Reason::Operate);
        };
        let Some(address) = number(at) else {
            return Err(Reason::Access);
        };
        self.load_at(extension, rd, address, next)
    }

    fn load_at(
        &self,
        extension: Extension,
        rd: u8,
        address: u64,
        next: u64,
    ) -> Result<Change, Reason>
        ensures { (input : List ℕ) → let s = state_of self.now input in
            changes s result ≡ loads_at s next extension rd address }
    {
        let count = extension.bytes();
        if !self
            .memory
            .bytes
            .may_all(Access::Read, address, count as usize)
        {
            return Err(Reason::Access);
        }
        if let Some(number) = self.memory.number(address, count) {
            let value = Value::Num(extension.extend(number));
            return Ok(Change { rd, value, next });
        }
        if self.memory.has_hidden(address, count as usize) {
            return Err(Reason::Hidden);
        }
        let value = self
            .loaded_symbol(extension, address, count)
            .ok_or(Reason::Mixed)?;
        Ok(Change { rd, value, next })
    }

    fn loaded_symbol(&self, extension: Extension, address: u64, count: u8) -> Option<Value>
        requires { count ≤ 8 }
        ensures { result ≡ loaded_symbol extension (memory_bytes (memory_at self.now.memory) address count) }
    {
        let bytes = self.memory.symbol(address, count)?;
        piece(extension, bytes)
    }
}
