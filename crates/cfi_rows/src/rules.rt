// The rules of registers, and how they are changed and put back.
ghost use Rattle.std.specs.Prelude.{◌≡◌, ◌<◌, ◌^◌, [], length, reverse, option_map, IfOk, OnOk};
ghost use Rattle.std.specs.Rc.{rc_value};
ghost use Rattle.cfi_rows.specs.FrameRows.{rule_of, with_rule, without_rule, restored};
ghost use Rattle.cfi_rows.specs.RuleEntries.{Ascend};
ghost use Rattle.cfi_rows.specs.RuleChanges.{after_changes, over};

use crate::row::Rule;
use rb_bytes::fault::NoMemory;
use std::alloc::Global;
use std::collections::BTreeMap;
use std::marker::Model;
use std::rc::Rc;

/// The rules of registers. A rule is shared by all that hold it.
#[derive(Drop)]
pub struct RuleMap {
    by_register: BTreeMap<u64, Rc<Rule>>,
}

impl Model for RuleMap {
    ghost use Rattle.std.specs.Prelude.{map};
    ghost use Rattle.std.specs.Rc.{rc_value};
    ghost use Rattle.cfi_rows.specs.FrameRows.{Rules};
    ghost use Rattle.cfi_rows.specs.RuleEntries.{valued};

    ghost Value = { Rules };

    ghost view = { λ r. map (valued rc_value) r.by_register.entries };
}

/// A change of the rule of a register: the rule that it gets, or that it gets none.
#[derive(Drop)]
pub struct Change {
    pub register: u64,
    pub rule: Option<Rc<Rule>>,
}

impl Change {
    /// The rule that the register gets, shared and not copied.
    pub(crate) fn shared_rule(&self) -> Result<Option<Rc<Rule>>, NoMemory>
        ensures { IfOk result (λ rule. option_map rc_value rule ≡ option_map rc_value self.now.rule) }
    {
        match &self.rule {
            Some(rule) => Ok(Some(rule.clone()?)),
            None => Ok(None),
        }
    }
}

impl RuleMap {
    pub(crate) fn new(alloc: Global) -> RuleMap
        ensures { result ≡ [] }
    {
        RuleMap {
            by_register: BTreeMap::new(alloc),
        }
    }

    /// A map of these rules, which are shared and not copied.
    pub(crate) fn shared(&self) -> Result<RuleMap, NoMemory>
        ensures { IfOk result (λ rules. rules ≡ self.now) }
    {
        let by_register = self.by_register.clone()?;
        Ok(RuleMap { by_register })
    }

    /// How many registers have a rule. A clause says that they ascend.
    pub(crate) fn len(&self) -> usize
        ensures count { result ≡ length self.now }
        ensures small { result < 2 ^ 63 }
        ensures ascends { Ascend 0 self.now }
    {
        self.by_register.len()
    }

    /// Other rules, overridden by these.
    pub(crate) fn over(self, others: &RuleMap) -> Result<RuleMap, NoMemory>
        ensures { IfOk result (λ rules. rules ≡ over others.now self) }
    {
        if self.len() == 0 {
            return others.shared();
        }
        if others.len() == 0 {
            return Ok(self);
        }
        let mut rules = others.shared()?;
        for (register, rule) in self.by_register.iter() {
            rules.replace(*register, Some(rule.clone()?))?;
        }
        Ok(rules)
    }

    /// Gives a register a rule, or takes its rule away. Answers the change that undoes this.
    pub(crate) fn replace(
        &mut self,
        register: u64,
        rule: Option<Rc<Rule>>,
    ) -> Result<Change, NoMemory>
        ensures replaced { OnOk result (self.new ≡ restored register (option_map rc_value rule) self.old) }
        ensures undone { IfOk result (λ change.
            restored change.register (option_map rc_value change.rule) self.new ≡ self.old) }
    {
        let before = match rule {
            Some(rule) => self.set(register, rule)?,
            None => self.remove(register),
        };
        Ok(Change {
            register,
            rule: before,
        })
    }

    // Gives a register a rule, and answers the one that it had.
    fn set(&mut self, register: u64, rule: Rc<Rule>) -> Result<Option<Rc<Rule>>, NoMemory>
        ensures set { OnOk result (self.new ≡ with_rule register (rc_value rule) self.old) }
        ensures had { IfOk result (λ had. option_map rc_value had ≡ rule_of register self.old) }
        ensures ascends { Ascend 0 self.old }
    {
        Ok(self.by_register.insert(register, rule)?)
    }

    // Takes the rule of a register away, and answers it.
    fn remove(&mut self, register: u64) -> Option<Rc<Rule>>
        ensures removed { self.new ≡ without_rule register self.old }
        ensures had { option_map rc_value result ≡ rule_of register self.old }
        ensures ascends { Ascend 0 self.old }
    {
        if self.by_register.len() == 0 {
            return None;
        }
        self.by_register.remove(&register)
    }

    /// Takes changes back, the last one first.
    pub(crate) fn undo(&mut self, changes: Vec<Change>) -> Result<(), NoMemory>
        ensures { OnOk result (self.new ≡ after_changes self.old (reverse changes.items)) }
    {
        let mut left = changes;
        while let Some(change) = left.pop() {
            self.replace(change.register, change.rule)?;
        }
        Ok(())
    }

    /// All of them, ascending by register.
    pub(crate) fn copied(&self, alloc: Global) -> Result<Vec<(u64, Rule)>, NoMemory>
        ensures { IfOk result (λ rules. rules.items ≡ self.now) }
    {
        let mut rules = Vec::new(alloc);
        for (register, rule) in self.by_register.iter() {
            rules.push((*register, rule.copy(alloc)?))?;
        }
        Ok(rules)
    }
}
