// The state after the instructions of a CIE, with which its FDEs begin. DWARF 5, section 6.4.1.
ghost use Rattle.std.specs.Prelude.{◌≡◌, ◌<◌, ◌^◌, Some, None, Err, IfOk, IfErr, IsOkAnd};
ghost use Rattle.cfi_rows.specs.FrameRows as spec;
ghost use Rattle.cfi_rows.specs.Entries.{cie_at};
ghost use Rattle.cfi_rows.specs.RowMachines.{known_of};
ghost use Rattle.cfi_rows.specs.FramePrograms.{IsCieProgram};
ghost use Rattle.cfi_rows.specs.Reads.{Fails};
ghost use Rattle.cfi_rows.specs.declared.instruction.Malformed.TheVariants.{Entry};

use crate::cie::{Head, read_head};
use crate::decode::instructions;
use crate::failed::Failed;
use crate::instruction::Instruction;
use crate::machine::{Known, Machine};
use rb_bytes::cursor::Cursor;
use std::alloc::Global;

/// The part of a CIE that is kept for the rows of its FDEs: its fields, and the rules with which its FDEs begin.
#[derive(Drop)]
pub struct CieProgram {
    pub head: Head,
    pub known: Known,
}

// The state known after the instructions of a CIE.
fn known_after(alloc: Global, instructions: &[Instruction]) -> Result<Known, Failed>
    ensures known { IfOk result (λ k. spec.known_after instructions.now (Some (spec.begins 0 spec.nothing_known))
        ≡ Some (known_of k)) }
    ensures err { IfErr result (λ e. Fails e (spec.known_after instructions.now
        (Some (spec.begins 0 spec.nothing_known)) ≡ None)) }
{
    let mut machine = Machine::begin(alloc, 0, &None)?;
    for instruction in instructions {
        machine.step(alloc, instruction)?;
    }
    Ok(Known {
        cfa: machine.cfa,
        rules: machine.rules,
    })
}

/// A CIE by its body, the bytes after its id, with its rules; `end` is the address at which they end.
pub(crate) fn read_cie_program(alloc: Global, end: u128, body: &[u8]) -> Result<CieProgram, Failed>
    requires { end < 2 ^ 66 }
    ensures kept { IfOk result (λ k. IsOkAnd (cie_at end body.now) (IsCieProgram k)) }
    ensures err { IfErr result (λ e. Fails e (cie_at end body.now ≡ Err Entry)) }
{
    let mut cursor = Cursor::new(body);
    let head = read_head(end, &mut cursor)?;
    let list = instructions(alloc, &mut cursor, &head.factors(end))?;
    let known = known_after(alloc, &list)?;
    Ok(CieProgram { head, known })
}
