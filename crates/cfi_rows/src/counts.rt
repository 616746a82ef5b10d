// Counts of the instructions of an entry.
ghost use Rattle.std.specs.Prelude.{◌≡◌, ◌≤◌, ◌<◌, ◌^◌, ◌+◌, ◌-◌, ◌++◌, ℕ, List, [], ◌∷◌, length, IfOk, OnOk, Some};
ghost use Rattle.std.specs.Prelude.{None, min, sum_by, flat_map};
ghost use Rattle.std.specs.Option.{option_to_list};
ghost use Rattle.cfi_rows.specs.EntryCounts as spec;
ghost use Rattle.cfi_rows.specs.RegisterSets.{AreIn, AreCounted};

use crate::instruction::Instruction;
use crate::registers::Registers;
use crate::row::{Cfa, Rule};
use rb_bytes::fault::NoMemory;
use std::alloc::Global;
use std::collections::BTreeSet;

impl Registers {
    // Adds a register, unless it is there or among those that are known already.
    fn add(&mut self, known: &BTreeSet<u64>, register: u64) -> Result<(), NoMemory>
        requires { self.old.count < 2 ^ 63 }
        ensures added { OnOk result ((xs ys : List ℕ) → AreIn xs known.now → AreCounted xs ys known.now self.old →
            AreCounted xs (ys ++ register ∷ []) known.now self.new) }
        ensures more { self.new.count ≤ self.old.count + 1 }
    {
        if known.contains(&register) || self.set.contains(&register) {
            return Ok(());
        }
        self.set.insert(register)?;
        self.count += 1;
        Ok(())
    }
}

impl Registers {
    // Adds the register that gets a rule, if one does.
    fn add_set(&mut self, known: &BTreeSet<u64>, instruction: &Instruction) -> Result<(), NoMemory>
        requires { self.old.count < 2 ^ 63 }
        ensures added { OnOk result ((xs ys : List ℕ) → AreIn xs known.now → AreCounted xs ys known.now self.old →
            AreCounted xs (ys ++ spec.registers_set instruction.now) known.now self.new) }
        ensures more { self.new.count ≤ self.old.count + 1 }
    {
        match instruction.register_set() {
            Some(register) => self.add(known, register),
            None => Ok(()),
        }
    }
}

/// The registers that instructions give a rule, without the registers in `known`.
pub(crate) fn new_registers(
    alloc: Global,
    known: &BTreeSet<u64>,
    instructions: &[Instruction],
) -> Result<Registers, NoMemory>
    ensures counted { IfOk result (λ r. (xs : List ℕ) → AreIn xs known.now →
        AreCounted xs (flat_map spec.registers_set instructions.now) known.now r) }
    ensures few { IfOk result (λ r. r.count < 2 ^ 63) }
{
    let mut registers = Registers {
        set: BTreeSet::new(alloc),
        count: 0,
    };
    for instruction in instructions {
        registers.add_set(known, instruction)?;
    }
    Ok(registers)
}

/// How many bytes the expressions of instructions have together, or 2^64 - 1 if that passes 64 bits.
pub(crate) fn expression_bytes(instructions: &[Instruction]) -> u64
    ensures { result ≡ min (sum_by spec.bytes_in instructions.now) (2 ^ 64 - 1) }
{
    let mut sum: u64 = 0;
    for instruction in instructions {
        sum = sum.saturating_add(instruction.expression_len() as u64);
    }
    sum
}

impl Instruction {
    // The register that the instruction gives a rule, if it gives one.
    fn register_set(&self) -> Option<u64>
        ensures { option_to_list result ≡ spec.registers_set self.now }
    {
        match self {
            Instruction::SetRule(register, _) => Some(*register),
            Instruction::Advance(_) => None,
            Instruction::SetLoc(_) => None,
            Instruction::DefCfa(_) => None,
            Instruction::DefCfaRegister(_) => None,
            Instruction::DefCfaOffset(_) => None,
            Instruction::Restore(_) => None,
            Instruction::RememberState => None,
            Instruction::RestoreState => None,
            Instruction::Nop => None,
        }
    }

    // How many bytes its expression has.
    fn expression_len(&self) -> usize
        ensures { result ≡ spec.bytes_in self.now }
    {
        match self {
            Instruction::SetRule(_, rule) => rule.expression_len(),
            Instruction::DefCfa(cfa) => cfa.expression_len(),
            Instruction::Advance(_) => 0,
            Instruction::SetLoc(_) => 0,
            Instruction::DefCfaRegister(_) => 0,
            Instruction::DefCfaOffset(_) => 0,
            Instruction::Restore(_) => 0,
            Instruction::RememberState => 0,
            Instruction::RestoreState => 0,
            Instruction::Nop => 0,
        }
    }
}

impl Cfa {
    fn expression_len(&self) -> usize
        ensures { result ≡ spec.cfa_bytes self.now }
    {
        match self {
            Cfa::Reg { reg: _, offset: _ } => 0,
            Cfa::Expr(expression) => expression.bytes.len(),
        }
    }
}

impl Rule {
    fn expression_len(&self) -> usize
        ensures { result ≡ spec.rule_bytes self.now }
    {
        match self {
            Rule::Undefined => 0,
            Rule::Same => 0,
            Rule::Offset(_) => 0,
            Rule::ValOffset(_) => 0,
            Rule::Reg(_) => 0,
            Rule::Expr(expression) => expression.bytes.len(),
            Rule::ValExpr(expression) => expression.bytes.len(),
        }
    }
}
