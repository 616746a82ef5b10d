// System calls. Linux, syscall(2) and asm-generic/unistd.h.
ghost use Rattle.std.specs.Prelude.{◌≡◌, ◌<◌, ◌≤◌, ◌==◌, ◌||◌, ℕ, List, Bool, Option, min, take};
ghost use Rattle.rb_io.specs.Views.{SourceSeen, SinkSeen};

use crate::machine::SymMachine;
use crate::outcome::{Reason, SymStepped};
use crate::symbols::number;
use crate::value::Value;
use rb_io::{Got, Put, Sink, Source, print_all};
use run_core::InputEnd;
use run_core::calls::{
    A0, A1, A2, A7, BAD_FILE, MOST_MOVED, NO_SUCH_CALL, SystemCall, is_input, is_output,
};
use rv_memory::rights::Access;

/// The arguments of a call that moves bytes between a file and a buffer.
#[derive(Clone, Copy)]
pub(crate) struct Buffer {
    pub file: u64,
    pub address: u64,
    pub size: u64,
}

impl Buffer {
    ghost use Rattle.rv_code.specs.machine.Machine.{most_moved};

    // The largest number of bytes that the call may move.
    fn count(self) -> usize
        ensures is { result ≡ min self.size most_moved }
        ensures few { result ≤ 65536 }
    {
        self.size.min(MOST_MOVED) as usize
    }
}

impl<'a> SymMachine<'a> {
    ghost use Rattle.rv_code.specs.machine.Machine.{set_register, call_of, Read, Write, Unknown};
    ghost use Rattle.rv_code.specs.machine.Machine.{Exit, Brk, memory_bytes, most_moved};
    ghost use Rattle.rv_code.specs.machine.Step.{a0, a7};
    ghost use Rattle.run_core.specs.Inputs.{outside_of};
    ghost use Rattle.run_core.specs.States.{Same};
    ghost use Rattle.sym_machine.specs.declared.value.Value.TheVariants.{Num};
    ghost use Rattle.sym_machine.specs.SymStep.{argument, calls, refuses_file, read_call, reads_input, write_call};
    ghost use Rattle.sym_machine.specs.SymStep.{writes_output};
    ghost use Rattle.sym_machine.specs.MachineState.{state_of, registers_of, Becomes, StepAnswers};
    ghost use Rattle.sym_machine.specs.internal.Calls.{buffer_in};
    ghost use Rattle.sym_machine.specs.Values.{number};

    // The number in an argument's register, if its value is a number.
    fn argument(&self, register: u8) -> Option<u64>
        ensures { result ≡ number (registers_of self.now register) }
    {
        number(self.register(register))
    }

    fn buffer(&self) -> Option<Buffer>
        ensures { result ≡ buffer_in (registers_of self.now) }
    {
        Some(Buffer {
            file: self.argument(A0)?,
            address: self.argument(A1)?,
            size: self.argument(A2)?,
        })
    }

    // Returns from a system call with `value` in `a0`, and goes on at `next`.
    fn return_value(&mut self, value: u64, next: u64) -> SymStepped
        ensures going { result ≡ SymStepped.Going }
        ensures state { (input : List ℕ) → Same
            (record (state_of self.old input) {
              pc = next;
              registers = set_register a0 (Num value) (registers_of self.old);
            })
            (state_of self.new input) }
        ensures code { self.new.code ≡ self.old.code }
    {
        self.registers[A0 as usize] = Value::Num(value);
        self.pc = next;
        SymStepped::Going
    }

    fn brk(&mut self, next: u64) -> SymStepped
        ensures answer { (input : List ℕ) →
            Becomes (calls (state_of self.old input) next 214 Brk) result self.old self.new input }
        ensures code { self.new.code ≡ self.old.code }
    {
        let Some(to) = self.argument(A0) else {
            return self.stuck(Reason::CallArg);
        };
        self.memory.set_break(to);
        self.return_value(self.memory.bytes.program_break, next)
    }

    fn exit(&self) -> SymStepped
        ensures { (input : List ℕ) (next : ℕ) →
            Becomes (calls (state_of self.now input) next 93 Exit) result self.now self.now input }
    {
        match self.argument(A0) {
            Some(status) => SymStepped::Ended((status % 256) as u8),
            None => self.stuck(Reason::CallArg),
        }
    }

    fn refuse_call(&mut self, next: u64) -> SymStepped
        ensures answer { (input : List ℕ) (n : ℕ) →
            Becomes (calls (state_of self.old input) next n Unknown) result self.old self.new input }
        ensures code { self.new.code ≡ self.old.code }
    {
        self.return_value(NO_SUCH_CALL, next)
    }

    fn refuse_file(&mut self, next: u64) -> SymStepped
        ensures answer { (input : List ℕ) (number file at size : ℕ) →
            Becomes (refuses_file (state_of self.old input) next number file at size) result self.old self.new input }
        ensures code { self.new.code ≡ self.old.code }
    {
        self.return_value(BAD_FILE, next)
    }

    // Reads standard input into the buffer. Memory for the bytes is reserved before anything is read.
    fn read_input<I: Source>(
        &mut self,
        buffer: Buffer,
        next: u64,
        input_end: &mut InputEnd,
        input: &mut I,
    ) -> SymStepped
        ensures answer { (output : SinkSeen) → StepAnswers
            (λ s o. o ≡ reads_input s next buffer.address buffer.size (take (min buffer.size most_moved) s.input))
            result self.old self.new
            input_end.old.reached input_end.new.reached
            (outside_of (I.seen input.old) output)
            (outside_of (I.seen input.new) output) }
        ensures count { (I.seen input.old).faults ≤ (I.seen input.new).faults }
        ensures code { self.new.code ≡ self.old.code }
    {
        let address = buffer.address;
        let count = buffer.count();
        if !self.memory.bytes.may_all(Access::Write, address, count) {
            return self.stuck(Reason::Access);
        }
        let Ok(mut bytes) = self.memory.buffer(address, count) else {
            return SymStepped::Memory;
        };
        match input_end.fill(input, &mut bytes) {
            Got::Bytes(got) => {
                let (front, _) = bytes.split_at(got);
                self.memory.overwrite(address, front);
                self.return_value(got as u64, next)
            }
            Got::Failed => SymStepped::ReadFault,
        }
    }

    // Writes the buffer to a file.
    fn write_output<O: Sink>(&mut self, buffer: Buffer, next: u64, out: &mut O) -> SymStepped
        ensures answer { (input : SourceSeen) (ended : Bool) → StepAnswers
            (λ s o. o ≡ writes_output s next buffer.file buffer.address buffer.size
            (memory_bytes s.memory buffer.address (min buffer.size most_moved)))
            result self.old self.new
            ended ended
            (outside_of input (O.seen out.old))
            (outside_of input (O.seen out.new)) }
        ensures count { (O.seen out.old).faults ≤ (O.seen out.new).faults }
        ensures code { self.new.code ≡ self.old.code }
    {
        let address = buffer.address;
        let count = buffer.count();
        if !self.memory.bytes.may_all(Access::Read, address, count) {
            return self.stuck(Reason::Access);
        }
        if self.memory.has_hidden(address, count) {
            return self.stuck(Reason::Hidden);
        }
        if !self.memory.are_numbers(address, count) {
            return self.stuck(Reason::CallArg);
        }
        let Ok(bytes) = self.memory.numbers(address, count) else {
            return SymStepped::Memory;
        };
        match print_all(out, &bytes) {
            Put::Took(count) => self.return_value(count as u64, next),
            Put::Failed => SymStepped::WriteFault,
        }
    }

    fn read<I: Source>(&mut self, next: u64, input_end: &mut InputEnd, input: &mut I) -> SymStepped
        ensures answer { (output : SinkSeen) → StepAnswers (λ s o. o ≡ calls s next 63 Read) result self.old self.new
            input_end.old.reached input_end.new.reached
            (outside_of (I.seen input.old) output)
            (outside_of (I.seen input.new) output) }
        ensures count { (I.seen input.old).faults ≤ (I.seen input.new).faults }
        ensures code { self.new.code ≡ self.old.code }
    {
        let Some(buffer) = self.buffer() else {
            return self.stuck(Reason::CallArg);
        };
        if is_input(buffer.file) {
            self.read_input(buffer, next, input_end, input)
        } else {
            self.refuse_file(next)
        }
    }

    fn write<O: Sink>(&mut self, next: u64, out: &mut O) -> SymStepped
        ensures answer { (input : SourceSeen) (ended : Bool) →
            StepAnswers (λ s o. o ≡ calls s next 64 Write) result self.old self.new
            ended ended
            (outside_of input (O.seen out.old))
            (outside_of input (O.seen out.new)) }
        ensures count { (O.seen out.old).faults ≤ (O.seen out.new).faults }
        ensures code { self.new.code ≡ self.old.code }
    {
        let Some(buffer) = self.buffer() else {
            return self.stuck(Reason::CallArg);
        };
        if is_output(buffer.file) {
            self.write_output(buffer, next, out)
        } else {
            self.refuse_file(next)
        }
    }

    /// Does the system call whose number is in `a7`.
    pub(crate) fn system_call<I: Source, O: Sink>(
        &mut self,
        next: u64,
        input_end: &mut InputEnd,
        input: &mut I,
        out: &mut O,
    ) -> SymStepped
        ensures answer { StepAnswers (λ s o. o ≡ argument s a7 (λ n. calls s next n (call_of n))) result self.old
            self.new
            input_end.old.reached input_end.new.reached
            (outside_of (I.seen input.old) (O.seen out.old))
            (outside_of (I.seen input.new) (O.seen out.new)) }
        ensures reads { (I.seen input.old).faults ≤ (I.seen input.new).faults }
        ensures writes { (O.seen out.old).faults ≤ (O.seen out.new).faults }
        ensures code { self.new.code ≡ self.old.code }
    {
        let Some(number) = self.argument(A7) else {
            return self.stuck(Reason::CallArg);
        };
        match SystemCall::of(number) {
            SystemCall::Read => self.read(next, input_end, input),
            SystemCall::Write => self.write(next, out),
            SystemCall::Exit => self.exit(),
            SystemCall::Brk => self.brk(next),
            SystemCall::Unknown => self.refuse_call(next),
        }
    }
}
