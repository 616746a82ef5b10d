// One step.
ghost use Rattle.std.specs.Prelude.{◌≡◌, ◌≤◌, ℕ, List, Bool, false};

use crate::known::KnownInsts;
use crate::machine::SymMachine;
use crate::outcome::{Reason, SymStepped};
use rb_io::{Sink, Source};
use run_core::InputEnd;
use rv_code::{Action, Role};

impl<'a> SymMachine<'a> {
    ghost use Rattle.std.specs.Prelude.{◌≢◌};
    ghost use Rattle.rv_code.specs.isa.Action.{action_of};
    ghost use Rattle.rv_code.specs.declared.inst.Inst.{Inst};
    ghost use Rattle.run_core.specs.Inputs.{outside_of};
    ghost use Rattle.sym_machine.specs.SymStep.{SymSteps, effect};
    ghost use Rattle.sym_machine.specs.MachineState.{state_of, funcs_of, Becomes, StepAnswers};
    ghost use Rattle.sym_machine.specs.internal.KnownInsts.{AreKnown};

    /// Does the instruction at the pc. Input is read from `input`, and output is written to `out`.
    ///
    /// After `Memory`, `Stuck` and `Ended` the machine is unchanged; after the two faults nothing is said about its
    /// state. A read asks `input` even if an earlier read found the end of the input; [`SymMachine::run`] doesn't.
    pub fn step<I: Source, O: Sink>(&mut self, input: &mut I, out: &mut O) -> SymStepped
        ensures answer { (ends : Bool) × StepAnswers (SymSteps (funcs_of self.old)) result self.old self.new false ends
            (outside_of (I.seen input.old) (O.seen out.old))
            (outside_of (I.seen input.new) (O.seen out.new)) }
        ensures reads { (I.seen input.old).faults ≤ (I.seen input.new).faults }
        ensures writes { (O.seen out.old).faults ≤ (O.seen out.new).faults }
        ensures funcs { funcs_of self.new ≡ funcs_of self.old }
    {
        let mut known = KnownInsts::none(self.memory.bytes.allocator());
        let mut input_end = InputEnd::new();
        self.step_on(&mut known, &mut input_end, input, out)
    }

    // Does one step, with a cache of instructions, and with the flag that says if the end of the input was found.
    pub(crate) fn step_on<I: Source, O: Sink>(
        &mut self,
        known: &mut KnownInsts,
        input_end: &mut InputEnd,
        input: &mut I,
        out: &mut O,
    ) -> SymStepped
        requires { AreKnown (funcs_of self.old) known.old }
        ensures known { AreKnown (funcs_of self.new) known.new }
        ensures answer { StepAnswers (SymSteps (funcs_of self.old)) result self.old self.new
            input_end.old.reached input_end.new.reached
            (outside_of (I.seen input.old) (O.seen out.old))
            (outside_of (I.seen input.new) (O.seen out.new)) }
        ensures reads { (I.seen input.old).faults ≤ (I.seen input.new).faults }
        ensures writes { (O.seen out.old).faults ≤ (O.seen out.new).faults }
        ensures funcs { funcs_of self.new ≡ funcs_of self.old }
    {
        let Some(inst) = known.find(&self.code, self.pc) else {
            return self.stuck(Reason::FellOff);
        };
        let next = self.pc.wrapping_add(inst.length as u64);
        if matches!(inst.action, Action::SystemCall) {
            self.system_call(next, input_end, input, out)
        } else {
            self.execute(inst.role, inst.action, next)
        }
    }

    // Does an instruction with this role. `next` is the address of the instruction after it.
    fn execute(&mut self, role: Role, action: Action, next: u64) -> SymStepped
        requires no_call { action ≢ Action.SystemCall }
        requires action { (i : Inst) × (action ≡ action_of i) }
        ensures answer { (input : List ℕ) →
            Becomes (effect (funcs_of self.old) role action next (state_of self.old input)) result self.old self.new
            input }
        ensures code { self.new.code ≡ self.old.code }
    {
        match action {
            Action::Store {
                bytes,
                rs1,
                rs2,
                imm,
            } => {
                let base = self.register(rs1);
                let value = self.register(rs2);
                self.store(role, bytes, base, imm.cast_unsigned(), value, next)
            }
            Action::SystemCall => unreachable!(),
            _ => {
                let change = self.change(role, action, next);
                self.apply(change)
            }
        }
    }
}
