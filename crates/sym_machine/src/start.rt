// A machine before its first step.
ghost use Rattle.std.specs.Prelude.{◌≡◌, ◌≤◌, ◌+◌, ◌^◌, ℕ, List, All, IfOk, map, string_bytes};

use crate::inst_index::InstIndex;
use crate::machine::{REGISTERS, SymMachine};
use crate::memory::SymMemory;
use crate::other_bytes::OtherBytes;
use crate::value::Value;
use elf_image::Elf;
use rb_bytes::fault::NoMemory;
use rv_code::cell::CodeCell;
use rv_code::{Func, STACK_POINTER};
use rv_memory::memory::Memory;
use rv_memory::rights::STACK_END;
use rv_memory::stack::stack_bytes;
use std::alloc::Global;

impl<'a> SymMachine<'a> {
    ghost use Rattle.elf_image.specs.faults.FileFaults.{IsSound};
    ghost use Rattle.elf_image.specs.file.ParsedFile.{IsElfOf};
    ghost use Rattle.rv_code.specs.layout.FunctionLists.{AreLaidOut};
    ghost use Rattle.rv_memory.specs.Limits.{IsWithinLimits};
    ghost use Rattle.sym_machine.specs.SymStart.{sym_start};
    ghost use Rattle.sym_machine.specs.MachineState.{state_of, funcs_of};

    /// A machine that is about to run a file's functions with these arguments: at most 64 of them, with at most 65536
    /// bytes in all. `tight` says that there is no room for new code after the executable segment.
    pub fn load(
        alloc: Global,
        elf: &'a Elf<'a>,
        funcs: &'a [Func],
        cells: &[CodeCell],
        args: &[String],
        tight: bool,
    ) -> Result<SymMachine<'a>, NoMemory>
        requires read { IsElfOf elf.now.file.now elf.now }
        requires sound { IsSound elf.now.file.now }
        requires limits { IsWithinLimits (map string_bytes args.now) }
        requires laid_out { AreLaidOut funcs.now }
        requires cells { All (λ cell. cell.addr + cell.width ≤ 2 ^ 64) cells.now }
        ensures start { IfOk result (λ m. (input : List ℕ) →
            state_of m input ≡ sym_start elf.now cells.now tight (map string_bytes args.now) input) }
        ensures funcs { IfOk result (λ m. funcs_of m ≡ funcs.now) }
    {
        let bytes = stack_bytes(alloc, elf, args)?;
        let bytes: &[u8] = &bytes;
        let pointer = STACK_END - bytes.len() as u64;
        let mut memory = Memory::new(alloc, elf);
        memory.write(pointer, bytes)?;
        let others = OtherBytes::start(alloc, elf, cells, pointer, args.len(), tight)?;
        let mut registers = [Value::Num(0); REGISTERS];
        registers[STACK_POINTER as usize] = Value::Num(pointer);
        Ok(SymMachine {
            pc: elf.entry,
            registers,
            memory: SymMemory {
                bytes: memory,
                others,
            },
            code: InstIndex::new(funcs),
        })
    }
}
