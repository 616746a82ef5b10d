// Runs of many steps.
ghost use Rattle.std.specs.Prelude.{◌≡◌, ◌≤◌, ℕ, List};

use crate::known::KnownActions;
use crate::machine::Machine;
use crate::stepped::Stepped;
use rb_io::{Sink, Source};
use run_core::InputEnd;

/// The result of a run.
#[derive(Clone, Copy)]
pub struct Ran {
    /// The result of the last step. `Going` means that the limit of steps was reached.
    pub end: Stepped,
    /// The number of steps done. A step that ends the program is counted, one that traps or fails isn't.
    pub steps: u64,
}

impl Ran {
    ghost use Rattle.std.specs.Prelude.{◌-◌, ◌<◌, ◌^◌};
    ghost use Rattle.run_core.specs.Runs.{steps_done};
    ghost use Rattle.rv_machine.specs.StepResults.{answered};

    /// A run that ended in the step after `steps` others.
    pub fn ended(end: Stepped, steps: u64) -> Ran
        requires { steps < 2 ^ 64 - 1 }
        ensures end { result.end ≡ end }
        ensures steps { result.steps ≡ steps_done (answered end) steps }
    {
        match end {
            Stepped::Ended(_) => Ran {
                end,
                steps: steps + 1,
            },
            _ => Ran { end, steps },
        }
    }
}

impl<'a> Machine<'a> {
    ghost use Rattle.rv_code.specs.machine.Step.{Steps};
    ghost use Rattle.run_core.specs.Inputs.{outside_of};
    ghost use Rattle.run_core.specs.Runs.{RunsSomeInput};
    ghost use Rattle.rv_machine.specs.State.{state_of};
    ghost use Rattle.rv_machine.specs.StepResults.{answered};

    /// Does at most `limit` steps. Once a read finds the end of the input, all later reads of the run do, too.
    pub fn run<I: Source, O: Sink>(&mut self, limit: u64, input: &mut I, out: &mut O) -> Ran
        ensures answer { RunsSomeInput state_of Steps (answered result.end) limit result.steps self.old self.new
            (outside_of (I.seen input.old) (O.seen out.old))
            (outside_of (I.seen input.new) (O.seen out.new)) }
        ensures reads { (I.seen input.old).faults ≤ (I.seen input.new).faults }
        ensures writes { (O.seen out.old).faults ≤ (O.seen out.new).faults }
    {
        let mut known = KnownActions::new(self.memory.allocator());
        let mut input_end = InputEnd::new();
        let mut steps = 0;
        while steps < limit {
            match self.step_known(&mut known, &mut input_end, input, out) {
                Stepped::Going => steps += 1,
                end => return Ran::ended(end, steps),
            }
        }
        Ran {
            end: Stepped::Going,
            steps,
        }
    }
}
