// The machine that the instructions of frame entries run on. DWARF 5, section 6.4.2.
ghost use Rattle.std.specs.Prelude.{◌≡◌, ◌+◌, [], ◌∷◌, cond, nat_le, None, Some, option_map, IfOk, IfErr, OnOk};
ghost use Rattle.std.specs.Rc.{rc_value};
ghost use Rattle.cfi_rows.specs.FrameRows as spec;
ghost use Rattle.cfi_rows.specs.Reads.{Fails};
ghost use Rattle.cfi_rows.specs.RowMachines.{state_of};

use crate::failed::Failed;
use crate::instruction::Instruction;
use crate::row::{Cfa, Rule};
use crate::rules::{Change, RuleMap};
use rb_bytes::fault::NoMemory;
use std::alloc::Global;
use std::mem;
use std::rc::Rc;

/// The state known at a point of a program: how the canonical frame address is found, and the rules of registers.
#[derive(Drop)]
pub struct Known {
    pub cfa: Option<Rc<Cfa>>,
    pub rules: RuleMap,
}

/// A state that was remembered: how the frame address was found in it, and what changes of rules led to it
/// from the one that was remembered before it.
#[derive(Drop)]
pub struct Saved {
    pub cfa: Option<Rc<Cfa>>,
    pub changes: Vec<Change>,
}

/// A program under way. The states that it remembered are kept as what has changed since, so that remembering one
/// takes the same time whatever the number of rules.
#[derive(Drop)]
pub struct Machine {
    pub location: u64,
    pub cfa: Option<Rc<Cfa>>,
    pub rules: RuleMap,
    /// The changes of rules since a state was remembered last.
    pub changes: Vec<Change>,
    pub saved: Vec<Saved>,
}

// The same frame address rule, if there is one, shared and not copied.
fn shared(cfa: &Option<Rc<Cfa>>) -> Result<Option<Rc<Cfa>>, NoMemory>
    ensures { IfOk result (λ copy. option_map rc_value copy ≡ option_map rc_value cfa.now) }
{
    match cfa {
        Some(cfa) => Ok(Some(cfa.clone()?)),
        None => Ok(None),
    }
}

// A frame address rule by a register and an offset, with another register; none of other rules.
fn with_register(cfa: &Option<Rc<Cfa>>, register: u64) -> Option<Cfa>
    ensures { result ≡ spec.with_register register (option_map rc_value cfa.now) }
{
    let cfa = cfa.as_ref()?;
    match cfa.as_ref() {
        Cfa::Reg { reg: _, offset } => Some(Cfa::Reg {
            reg: register,
            offset: *offset,
        }),
        Cfa::Expr(_) => None,
    }
}

// A frame address rule by a register and an offset, with another offset; none of other rules.
fn with_offset(cfa: &Option<Rc<Cfa>>, offset: i64) -> Option<Cfa>
    ensures { result ≡ spec.with_offset offset (option_map rc_value cfa.now) }
{
    let cfa = cfa.as_ref()?;
    match cfa.as_ref() {
        Cfa::Reg { reg, offset: _ } => Some(Cfa::Reg { reg: *reg, offset }),
        Cfa::Expr(_) => None,
    }
}

impl Machine {
    /// The machine at the start of a program, with no rules of registers.
    pub(crate) fn begin(
        alloc: Global,
        location: u64,
        cfa: &Option<Rc<Cfa>>,
    ) -> Result<Machine, NoMemory>
        ensures { IfOk result (λ m. state_of m ≡ spec.begins location
            (record { cfa = option_map rc_value cfa.now; rules = [] })) }
    {
        Ok(Machine {
            location,
            cfa: shared(cfa)?,
            rules: RuleMap::new(alloc),
            changes: Vec::new(alloc),
            saved: Vec::new(alloc),
        })
    }

    /// Does one instruction, as if there were no initial rules: `Restore` takes a register's rule away. The rules of
    /// a CIE are put below its FDE's when a row is asked for.
    pub(crate) fn step(&mut self, alloc: Global, instruction: &Instruction) -> Result<(), Failed>
        ensures ok { OnOk result (spec.step [] instruction.now (state_of self.old) ≡ Some (state_of self.new)) }
        ensures err { IfErr result (λ e. Fails e (spec.step [] instruction.now (state_of self.old) ≡ None)) }
    {
        match instruction {
            Instruction::Advance(bytes) => self.advance(*bytes),
            Instruction::SetLoc(address) => self.go_to(*address),
            Instruction::DefCfa(cfa) => Ok(self.define(alloc, cfa.copy(alloc)?)?),
            Instruction::DefCfaRegister(register) => match with_register(&self.cfa, *register) {
                Some(cfa) => Ok(self.define(alloc, cfa)?),
                None => Err(Failed::Malformed),
            },
            Instruction::DefCfaOffset(offset) => match with_offset(&self.cfa, *offset) {
                Some(cfa) => Ok(self.define(alloc, cfa)?),
                None => Err(Failed::Malformed),
            },
            Instruction::SetRule(register, rule) => {
                Ok(self.replace_rule(*register, Some(Rc::new(alloc, rule.copy(alloc)?)?))?)
            }
            Instruction::Restore(register) => Ok(self.replace_rule(*register, None)?),
            Instruction::RememberState => Ok(self.remember(alloc)?),
            Instruction::RestoreState => self.restore(),
            Instruction::Nop => Ok(()),
        }
    }

    fn advance(&mut self, bytes: u64) -> Result<(), Failed>
        ensures ok { OnOk result (spec.moved_to (self.old.location + bytes) (state_of self.old) ≡ Some
            (state_of self.new)) }
        ensures err { IfErr result (λ e. Fails e (spec.moved_to (self.old.location + bytes) (state_of self.old)
            ≡ None)) }
    {
        self.location = self.location.checked_add(bytes).ok_or(Failed::Malformed)?;
        Ok(())
    }

    fn go_to(&mut self, address: u64) -> Result<(), Failed>
        ensures ok { OnOk result (cond (nat_le self.old.location address) (spec.moved_to address (state_of self.old)) None
            ≡ Some (state_of self.new)) }
        ensures err { IfErr result (λ e. Fails e (cond (nat_le self.old.location address)
            (spec.moved_to address (state_of self.old)) None ≡ None)) }
    {
        if address < self.location {
            return Err(Failed::Malformed);
        }
        self.location = address;
        Ok(())
    }

    fn define(&mut self, alloc: Global, cfa: Cfa) -> Result<(), NoMemory>
        ensures { OnOk result (spec.with_cfa (state_of self.old) cfa ≡ state_of self.new) }
    {
        self.cfa = Some(Rc::new(alloc, cfa)?);
        Ok(())
    }

    fn replace_rule(&mut self, register: u64, rule: Option<Rc<Rule>>) -> Result<(), NoMemory>
        ensures { OnOk result (spec.with_rules (state_of self.old)
            (spec.restored register (option_map rc_value rule) self.old.rules) ≡ state_of self.new) }
    {
        let change = self.rules.replace(register, rule)?;
        self.changes.push(change)?;
        Ok(())
    }

    fn remember(&mut self, alloc: Global) -> Result<(), NoMemory>
        ensures { OnOk result (record {
          location = (state_of self.old).location;
          known = (state_of self.old).known;
          saved = (state_of self.old).known ∷ (state_of self.old).saved;
        } ≡ state_of self.new) }
    {
        let cfa = shared(&self.cfa)?;
        let changes = mem::replace(&mut self.changes, Vec::new(alloc));
        self.saved.push(Saved { cfa, changes })?;
        Ok(())
    }

    fn restore(&mut self) -> Result<(), Failed>
        ensures ok { OnOk result (spec.take_back (state_of self.old) (state_of self.old).saved ≡ Some
            (state_of self.new)) }
        ensures err { IfErr result (λ e. Fails e (spec.take_back (state_of self.old) (state_of self.old).saved
            ≡ None)) }
    {
        let Some(saved) = self.saved.pop() else {
            return Err(Failed::Malformed);
        };
        self.cfa = saved.cfa;
        let changes = mem::replace(&mut self.changes, saved.changes);
        self.rules.undo(changes)?;
        Ok(())
    }
}
