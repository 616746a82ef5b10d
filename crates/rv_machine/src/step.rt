// One step.
ghost use Rattle.std.specs.Prelude.{◌≡◌, ◌≤◌, ℕ, List, Bool, false};

use crate::known::KnownActions;
use crate::machine::Machine;
use crate::stepped::Stepped;
use rb_io::{Sink, Source};
use run_core::InputEnd;
use rv_code::{Action, Cause};

impl<'a> Machine<'a> {
    ghost use Rattle.rv_code.specs.machine.Step.{Steps};
    ghost use Rattle.rv_code.specs.machine.DeterminedRuns.{HasOneOutcome};
    ghost use Rattle.run_core.specs.Inputs.{outside_of};
    ghost use Rattle.rv_machine.specs.KnownInsts.{AreKnown};
    ghost use Rattle.rv_machine.specs.State.{state_of};
    ghost use Rattle.rv_machine.specs.StepResults.{StepAnswers};

    /// Does the instruction at the pc. Input is read from `input`, and output is written to `out`.
    ///
    /// After `Memory`, `Trap` and `Ended` the machine is unchanged; after the two faults nothing is said about its
    /// state. A read asks `input` even if an earlier read found the end of the input; [`Machine::run`] doesn't.
    pub fn step<I: Source, O: Sink>(&mut self, input: &mut I, out: &mut O) -> Stepped
        ensures answer { (ends : Bool) × StepAnswers Steps result self.old self.new false ends
            (outside_of (I.seen input.old) (O.seen out.old))
            (outside_of (I.seen input.new) (O.seen out.new)) }
        ensures determined { (bytes : List ℕ) → HasOneOutcome Steps (state_of self.old bytes) }
        ensures reads { (I.seen input.old).faults ≤ (I.seen input.new).faults }
        ensures writes { (O.seen out.old).faults ≤ (O.seen out.new).faults }
    {
        let mut known = KnownActions::none(self.memory.allocator());
        let mut input_end = InputEnd::new();
        self.step_known(&mut known, &mut input_end, input, out)
    }

    /// Does one step, with a cache of decoded instructions, and with the flag that says if the end of the input was
    /// found.
    pub fn step_known<I: Source, O: Sink>(
        &mut self,
        known: &mut KnownActions,
        input_end: &mut InputEnd,
        input: &mut I,
        out: &mut O,
    ) -> Stepped
        requires { AreKnown known.old }
        ensures known { AreKnown known.new }
        ensures answer { StepAnswers Steps result self.old self.new input_end.old.reached input_end.new.reached
            (outside_of (I.seen input.old) (O.seen out.old))
            (outside_of (I.seen input.new) (O.seen out.new)) }
        ensures determined { (bytes : List ℕ) → HasOneOutcome Steps (state_of self.old bytes) }
        ensures reads { (I.seen input.old).faults ≤ (I.seen input.new).faults }
        ensures writes { (O.seen out.old).faults ≤ (O.seen out.new).faults }
    {
        let Some((half, next)) = self.fetch() else {
            return self.trap(Cause::Fetch);
        };
        let Some((action, length)) = known.find(half, next) else {
            return self.trap(Cause::Illegal);
        };
        let after = self.pc.wrapping_add(length as u64);
        if matches!(action, Action::SystemCall) {
            self.system_call(after, input_end, input, out)
        } else {
            self.execute(action, after)
        }
    }
}
