// The rows of an FDE as its instructions run: by the changes of rules that lead from one row to the next.
ghost use Rattle.std.specs.Prelude.{◌≡◌, [], ◌∷◌, List, Option, Some, None, reverse, option_map, IfErr, OnOk};
ghost use Rattle.std.specs.Rc.{rc_value};
ghost use Rattle.cfi_rows.specs.FrameRows as spec;
ghost use Rattle.cfi_rows.specs.Reads.{Fails};
ghost use Rattle.cfi_rows.specs.RuleChanges.{after_changes};
ghost use Rattle.cfi_rows.specs.RowMachines.{state_of};
ghost use Rattle.cfi_rows.specs.RowHistories.{Keeps, Goes, told, before};

use crate::failed::Failed;
use crate::instruction::Instruction;
use crate::machine::Machine;
use crate::row::{Cfa, Rule};
use crate::rules::{Change, RuleMap};
use rb_bytes::fault::NoMemory;
use std::alloc::Global;
use std::rc::Rc;

/// A row: its start, how the canonical frame address is found, and how many changes of rules led to it.
#[derive(Drop)]
pub struct KeptRow {
    pub start: u64,
    pub cfa: Rc<Cfa>,
    pub changes: usize,
}

/// The rules after the first `changes` changes.
#[derive(Drop)]
pub struct KeptRules {
    pub changes: usize,
    pub rules: RuleMap,
}

/// The rows so far, all changes of rules, and the rules after some of them.
#[derive(Drop)]
pub struct RowHistory {
    pub rows: Vec<KeptRow>,
    pub changes: Vec<Change>,
    /// Rules are kept once the changes since those kept last are as many as the rules, and some more. So all that is
    /// kept takes no more room than the changes, and finding a row's rules takes little longer than copying them.
    pub kept: Vec<KeptRules>,
}

// The least number of changes between rules that are kept.
const KEPT_EVERY: usize = 4;

impl RowHistory {
    pub(crate) fn new(alloc: Global) -> RowHistory
        ensures keeps { Keeps result [] }
        ensures none { told result ≡ [] }
    {
        RowHistory {
            rows: Vec::new(alloc),
            changes: Vec::new(alloc),
            kept: Vec::new(alloc),
        }
    }

    /// Does one instruction of a machine, and adds the row that it ends and the changes of rules that it makes.
    pub(crate) fn run(
        &mut self,
        alloc: Global,
        machine: &mut Machine,
        instruction: &Instruction,
    ) -> Result<(), Failed>
        ensures keeps { OnOk result (Keeps self.old machine.old.rules → Keeps self.new machine.new.rules) }
        ensures rows { OnOk result (Keeps self.old machine.old.rules → (is : List Instruction) →
            before (told self.old) (spec.rows [] (instruction.now ∷ is) (state_of machine.old))
            ≡ before (told self.new) (spec.rows [] is (state_of machine.new))) }
        ensures err { IfErr result (λ e. Fails e ((is : List Instruction) →
            spec.rows [] (instruction.now ∷ is) (state_of machine.old) ≡ None)) }
    {
        self.end_row(machine, instruction)?;
        self.add_changes(alloc, machine, instruction)?;
        machine.step(alloc, instruction)?;
        self.keep_rules(machine)?;
        Ok(())
    }

    // Adds the row that a machine has reached, if an instruction ends it.
    fn end_row(&mut self, machine: &Machine, instruction: &Instruction) -> Result<(), Failed>
        ensures keeps { OnOk result (Keeps self.old machine.now.rules → Keeps self.new machine.now.rules) }
        ensures rows { OnOk result (Keeps self.old machine.now.rules → (more : Option (List spec.PlacedRow)) →
            before (told self.old) (spec.and_rows (spec.ends_row instruction.now) (state_of machine.now) more)
            ≡ before (told self.new) more) }
        ensures err { IfErr result (λ e. Fails e ((more : Option (List spec.PlacedRow)) →
            spec.and_rows (spec.ends_row instruction.now) (state_of machine.now) more ≡ None)) }
    {
        if instruction.ends_row() {
            return self.add_row(machine);
        }
        Ok(())
    }

    /// Adds the row that a machine has reached; it has to have a frame address.
    pub(crate) fn add_row(&mut self, machine: &Machine) -> Result<(), Failed>
        ensures keeps { OnOk result (Keeps self.old machine.now.rules → Keeps self.new machine.now.rules) }
        ensures rows { OnOk result (Keeps self.old machine.now.rules → (more : Option (List spec.PlacedRow)) →
            before (told self.old) (spec.prepended machine.now.location (spec.row_of (state_of machine.now).known) more)
            ≡ before (told self.new) more) }
        ensures err { IfErr result (λ e. Fails e ((more : Option (List spec.PlacedRow)) →
            spec.prepended machine.now.location (spec.row_of (state_of machine.now).known) more ≡ None)) }
    {
        let Some(cfa) = &machine.cfa else {
            return Err(Failed::Malformed);
        };
        let cfa = cfa.clone()?;
        let changes = self.changes.len();
        self.rows.push(KeptRow {
            start: machine.location,
            cfa,
            changes,
        })?;
        Ok(())
    }

    // Adds the changes that an instruction is about to make.
    fn add_changes(
        &mut self,
        alloc: Global,
        machine: &Machine,
        instruction: &Instruction,
    ) -> Result<(), NoMemory>
        ensures { OnOk result ((t : spec.State) → Keeps self.old machine.now.rules →
            spec.step [] instruction.now (state_of machine.now) ≡ Some t → Goes self.old self.new t.known.rules) }
    {
        match instruction {
            Instruction::SetRule(register, rule) => {
                self.add_change(*register, Some(Rc::new(alloc, rule.copy(alloc)?)?))
            }
            Instruction::Restore(register) => self.add_change(*register, None),
            Instruction::RestoreState => self.add_undone(&machine.changes),
            Instruction::Advance(_) => Ok(()),
            Instruction::SetLoc(_) => Ok(()),
            Instruction::DefCfa(_) => Ok(()),
            Instruction::DefCfaRegister(_) => Ok(()),
            Instruction::DefCfaOffset(_) => Ok(()),
            Instruction::RememberState => Ok(()),
            Instruction::Nop => Ok(()),
        }
    }

    fn add_change(&mut self, register: u64, rule: Option<Rc<Rule>>) -> Result<(), NoMemory>
        ensures { OnOk result ((rules : spec.Rules) → Keeps self.old rules →
            Goes self.old self.new (spec.restored register (option_map rc_value rule) rules)) }
    {
        self.changes.push(Change { register, rule })?;
        Ok(())
    }

    // Adds the changes that take others back, the last one first.
    fn add_undone(&mut self, changes: &[Change]) -> Result<(), NoMemory>
        ensures { OnOk result ((rules : spec.Rules) → Keeps self.old rules →
            Goes self.old self.new (after_changes rules (reverse changes.now))) }
    {
        for count in 0..changes.len() {
            let change = &changes[changes.len() - 1 - count];
            let rule = change.shared_rule()?;
            self.add_change(change.register, rule)?;
        }
        Ok(())
    }

    // Keeps the rules of a machine, if enough changes were made since rules were kept last.
    fn keep_rules(&mut self, machine: &Machine) -> Result<(), NoMemory>
        ensures { OnOk result (Keeps self.old machine.now.rules → Goes self.old self.new machine.now.rules) }
    {
        let changes = self.changes.len();
        let last = match self.kept.last() {
            Some(kept) => kept.changes,
            None => 0,
        };
        if changes.saturating_sub(last) < KEPT_EVERY + machine.rules.len() {
            return Ok(());
        }
        let rules = machine.rules.shared()?;
        self.kept.push(KeptRules { changes, rules })?;
        Ok(())
    }
}
