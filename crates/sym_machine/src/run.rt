// Runs of many steps.
ghost use Rattle.std.specs.Prelude.{◌≡◌, ◌≤◌, ℕ, List};

use crate::known::KnownInsts;
use crate::machine::SymMachine;
use crate::outcome::{SymRan, SymStepped};
use rb_io::{Sink, Source};
use run_core::InputEnd;

impl<'a> SymMachine<'a> {
    ghost use Rattle.run_core.specs.Inputs.{outside_of};
    ghost use Rattle.run_core.specs.Runs.{RunsSomeInput};
    ghost use Rattle.sym_machine.specs.SymStep.{SymSteps};
    ghost use Rattle.sym_machine.specs.MachineState.{state_of, funcs_of, answered};

    /// Does at most `limit` steps. Once a read finds the end of the input, all later reads of the run do, too.
    pub fn run<I: Source, O: Sink>(&mut self, limit: u64, input: &mut I, out: &mut O) -> SymRan
        ensures answer { RunsSomeInput state_of (SymSteps (funcs_of self.old)) (answered result.end) limit result.steps
            self.old self.new (outside_of (I.seen input.old) (O.seen out.old))
            (outside_of (I.seen input.new) (O.seen out.new)) }
        ensures reads { (I.seen input.old).faults ≤ (I.seen input.new).faults }
        ensures writes { (O.seen out.old).faults ≤ (O.seen out.new).faults }
        ensures funcs { funcs_of self.new ≡ funcs_of self.old }
    {
        let mut known = KnownInsts::new(self.memory.bytes.allocator());
        let mut input_end = InputEnd::new();
        let mut steps = 0;
        while steps < limit {
            match self.step_on(&mut known, &mut input_end, input, out) {
                SymStepped::Going => steps += 1,
                end => return SymRan::ended(end, steps),
            }
        }
        SymRan {
            end: SymStepped::Going,
            steps,
        }
    }
}
