// Stores.
ghost use Rattle.std.specs.Prelude.{◌≡◌, ◌≤◌, ℕ, List, true};

use crate::accesses::{Stored, what_to_store};
use crate::machine::SymMachine;
use crate::outcome::{Reason, SymStepped};
use crate::symbols::number;
use crate::value::Value;
use rv_code::Role;
use rv_memory::rights::Access;

impl<'a> SymMachine<'a> {
    ghost use Rattle.sym_machine.specs.Rules.{place};
    ghost use Rattle.sym_machine.specs.SymStep.{stores, stores_at};
    ghost use Rattle.sym_machine.specs.MachineState.{state_of, funcs_of, Becomes};
    ghost use Rattle.sym_machine.specs.internal.Accesses.{stored_bytes};

    // Stores the `count` low bytes of a value.
    pub(crate) fn store(
        &mut self,
        role: Role,
        count: u8,
        base: Value,
        offset: u64,
        value: Value,
        next: u64,
    ) -> SymStepped
        requires { count ≤ 8 }
        ensures answer { (input : List ℕ) → let s = state_of self.old input in
            Becomes (stores s next count value (place (funcs_of self.old) role base offset)) result self.old self.new
            input }
        ensures code { self.new.code ≡ self.old.code }
    {
        let Some(at) = self.code.address_of(role, base, offset) else {
            return self.stuck(Reason::Operate);
        };
        let Some(stored) = what_to_store(count, value) else {
            return self.stuck(Reason::Operate);
        };
        let Some(address) = number(at) else {
            return self.stuck(Reason::Access);
        };
        self.store_at(count, stored, address, next)
    }

    fn store_at(&mut self, count: u8, stored: Stored, address: u64, next: u64) -> SymStepped
        requires { count ≤ 8 }
        ensures answer { (input : List ℕ) → let s = state_of self.old input in
            Becomes (stores_at s next count (stored_bytes count stored) address) result self.old self.new input }
        ensures code { self.new.code ≡ self.old.code }
    {
        if !self
            .memory
            .bytes
            .may_all(Access::Write, address, count as usize)
        {
            return self.stuck(Reason::Access);
        }
        if self.memory.store(address, count, stored).is_err() {
            return SymStepped::Memory;
        }
        self.pc = next;
        SymStepped::Going
    }
}
