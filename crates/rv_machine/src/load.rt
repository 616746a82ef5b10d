// A machine before its first step.
ghost use Rattle.std.specs.Prelude.{◌≡◌, ℕ, List, IfOk, map, string_bytes};

use crate::machine::Machine;
use elf_image::Elf;
use rb_bytes::fault::NoMemory;
use rv_code::STACK_POINTER;
use rv_memory::memory::Memory;
use rv_memory::rights::STACK_END;
use rv_memory::stack::stack_bytes;
use std::alloc::Global;

impl<'a> Machine<'a> {
    ghost use Rattle.elf_image.specs.faults.FileFaults.{IsSound};
    ghost use Rattle.elf_image.specs.file.ParsedFile.{IsElfOf};
    ghost use Rattle.rv_memory.specs.Start.{start};
    ghost use Rattle.rv_memory.specs.Limits.{IsWithinLimits};
    ghost use Rattle.rv_machine.specs.State.{state_of};

    /// A machine that is about to run `elf` with these arguments: at most 64 of them, with at most 65536 bytes in all.
    pub fn load(alloc: Global, elf: &'a Elf<'a>, args: &[String]) -> Result<Machine<'a>, NoMemory>
        requires read { IsElfOf elf.now.file.now elf.now }
        requires sound { IsSound elf.now.file.now }
        requires limits { IsWithinLimits (map string_bytes args.now) }
        ensures { IfOk result (λ m. (input : List ℕ) →
            state_of m input ≡ start elf.now.file.now (map string_bytes args.now) input) }
    {
        let bytes = stack_bytes(alloc, elf, args)?;
        let bytes: &[u8] = &bytes;
        let pointer = STACK_END - bytes.len() as u64;
        let mut memory = Memory::new(alloc, elf);
        memory.write(pointer, bytes)?;
        let mut registers = [0; 32];
        registers[STACK_POINTER as usize] = pointer;
        Ok(Machine {
            pc: elf.entry,
            registers,
            memory,
        })
    }
}
