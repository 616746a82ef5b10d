// System calls. Linux, syscall(2) and asm-generic/unistd.h.
ghost use Rattle.std.specs.Prelude.{◌≡◌, ◌<◌, ◌≤◌, ◌==◌, ◌||◌, ℕ, List, Bool, true};
ghost use Rattle.rb_io.specs.Views.{SourceSeen, SinkSeen};

use crate::machine::Machine;
use crate::stepped::Stepped;
use rb_io::{Got, Put, Sink, Source, print_all};
use run_core::InputEnd;
use run_core::calls::{
    A0, A1, A2, A7, BAD_FILE, MOST_MOVED, NO_SUCH_CALL, SystemCall, is_input, is_output,
};
use rv_code::Cause;
use rv_memory::rights::Access;

impl<'a> Machine<'a> {
    ghost use Rattle.rv_code.specs.machine.Machine.{set_register, call_of, Read, Write, Unknown, Exit, Brk};
    ghost use Rattle.rv_code.specs.machine.Step.{a0, a7, calls, refuses_file, sets_break};
    ghost use Rattle.rv_code.specs.machine.Step.{buffer_size, read_call, write_call, effect};
    ghost use Rattle.run_core.specs.Inputs.{outside_of};
    ghost use Rattle.run_core.specs.States.{Same};
    ghost use Rattle.rv_machine.specs.State.{state_of, registers_of};
    ghost use Rattle.rv_machine.specs.StepResults.{Becomes, StepAnswers};

    // Returns from a system call with `value` in `a0`, and goes on at `next`.
    fn return_value(&mut self, value: u64, next: u64) -> Stepped
        ensures going { result ≡ Stepped.Going }
        ensures state { (input : List ℕ) → Same
            (record (state_of self.old input) { pc = next; registers = set_register a0 value (registers_of self.old) })
            (state_of self.new input) }
    {
        self.registers[A0 as usize] = value;
        self.pc = next;
        Stepped::Going
    }

    fn brk(&mut self, next: u64) -> Stepped
        ensures { (input : List ℕ) → Becomes (calls (state_of self.old input) next Brk) result self.old self.new input }
    {
        let to = self.register(A0);
        self.memory.set_break(to);
        self.return_value(self.memory.program_break, next)
    }

    fn exit(&self) -> Stepped
        ensures { (input : List ℕ) (next : ℕ) →
            Becomes (calls (state_of self.now input) next Exit) result self.now self.now input }
    {
        Stepped::Ended((self.register(A0) % 256) as u8)
    }

    fn refuse_call(&mut self, next: u64) -> Stepped
        ensures { (input : List ℕ) → Becomes (calls (state_of self.old input) next Unknown) result self.old self.new
            input }
    {
        self.registers[A0 as usize] = NO_SUCH_CALL;
        self.pc = next;
        Stepped::Going
    }

    fn refuse_file(&mut self, next: u64) -> Stepped
        ensures { (input : List ℕ) (number : ℕ) →
            Becomes (refuses_file (state_of self.old input) next number) result self.old self.new input }
    {
        self.registers[A0 as usize] = BAD_FILE;
        self.pc = next;
        Stepped::Going
    }

    // The largest number of bytes that a call moves: the size of its buffer (the third argument), limited to
    // `MOST_MOVED`.
    fn buffer_size(&self) -> usize
        ensures is { (input : List ℕ) → result ≡ buffer_size (state_of self.now input) }
        ensures few { result ≤ 65536 }
    {
        self.register(A2).min(MOST_MOVED) as usize
    }

    // Reads standard input into the buffer. Memory for the bytes is reserved before anything is read.
    fn read_input<I: Source>(
        &mut self,
        next: u64,
        input_end: &mut InputEnd,
        input: &mut I,
    ) -> Stepped
        ensures answer { (output : SinkSeen) → StepAnswers (λ s o. o ≡ read_call s next true) result self.old self.new
            input_end.old.reached input_end.new.reached
            (outside_of (I.seen input.old) output)
            (outside_of (I.seen input.new) output) }
        ensures count { (I.seen input.old).faults ≤ (I.seen input.new).faults }
    {
        let address = self.register(A1);
        let count = self.buffer_size();
        if !self.memory.may_all(Access::Write, address, count) {
            return self.trap(Cause::Store);
        }
        let Ok(mut buffer) = self.memory.buffer(address, count) else {
            return Stepped::Memory;
        };
        match input_end.fill(input, &mut buffer) {
            Got::Bytes(got) => {
                let (front, _) = buffer.split_at(got);
                self.memory.overwrite(address, front);
                self.return_value(got as u64, next)
            }
            Got::Failed => Stepped::ReadFault,
        }
    }

    // Writes the buffer to standard output.
    fn write_output<O: Sink>(&mut self, next: u64, out: &mut O) -> Stepped
        ensures answer { (input : SourceSeen) (ended : Bool) →
            StepAnswers (λ s o. o ≡ write_call s next true) result self.old self.new ended ended
            (outside_of input (O.seen out.old))
            (outside_of input (O.seen out.new)) }
        ensures count { (O.seen out.old).faults ≤ (O.seen out.new).faults }
    {
        let address = self.register(A1);
        let count = self.buffer_size();
        if !self.memory.may_all(Access::Read, address, count) {
            return self.trap(Cause::Load);
        }
        let Ok(bytes) = self.memory.bytes(address, count) else {
            return Stepped::Memory;
        };
        match print_all(out, &bytes) {
            Put::Took(count) => self.return_value(count as u64, next),
            Put::Failed => Stepped::WriteFault,
        }
    }

    fn read<I: Source>(&mut self, next: u64, input_end: &mut InputEnd, input: &mut I) -> Stepped
        ensures answer { (output : SinkSeen) → StepAnswers (λ s o. o ≡ calls s next Read) result self.old self.new
            input_end.old.reached input_end.new.reached
            (outside_of (I.seen input.old) output)
            (outside_of (I.seen input.new) output) }
        ensures count { (I.seen input.old).faults ≤ (I.seen input.new).faults }
    {
        if is_input(self.register(A0)) {
            self.read_input(next, input_end, input)
        } else {
            self.refuse_file(next)
        }
    }

    fn write<O: Sink>(&mut self, next: u64, out: &mut O) -> Stepped
        ensures answer { (input : SourceSeen) (ended : Bool) →
            StepAnswers (λ s o. o ≡ calls s next Write) result self.old self.new ended ended
            (outside_of input (O.seen out.old))
            (outside_of input (O.seen out.new)) }
        ensures count { (O.seen out.old).faults ≤ (O.seen out.new).faults }
    {
        if is_output(self.register(A0)) {
            self.write_output(next, out)
        } else {
            self.refuse_file(next)
        }
    }

    /// Does the system call whose number is in `a7`.
    pub(crate) fn system_call<I: Source, O: Sink>(
        &mut self,
        next: u64,
        input_end: &mut InputEnd,
        input: &mut I,
        out: &mut O,
    ) -> Stepped
        ensures answer { StepAnswers (λ s o. o ≡ calls s next (call_of (s.registers a7))) result self.old self.new
            input_end.old.reached input_end.new.reached
            (outside_of (I.seen input.old) (O.seen out.old))
            (outside_of (I.seen input.new) (O.seen out.new)) }
        ensures reads { (I.seen input.old).faults ≤ (I.seen input.new).faults }
        ensures writes { (O.seen out.old).faults ≤ (O.seen out.new).faults }
    {
        match SystemCall::of(self.register(A7)) {
            SystemCall::Read => self.read(next, input_end, input),
            SystemCall::Write => self.write(next, out),
            SystemCall::Exit => self.exit(),
            SystemCall::Brk => self.brk(next),
            SystemCall::Unknown => self.refuse_call(next),
        }
    }
}
