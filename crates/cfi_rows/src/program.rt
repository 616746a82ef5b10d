// The rows that the instructions of an FDE describe, from the state known after its CIE.
// DWARF 5, sections 6.4.1 and 6.4.3.
ghost use Rattle.std.specs.Prelude.{◌≡◌, ◌<◌, ◌^◌, Some, None, Err, IfOk, IfErr};
ghost use Rattle.std.specs.Rc.{rc_value};
ghost use Rattle.cfi_rows.specs.Entries.{Cie, RawEntry, fde_at};
ghost use Rattle.cfi_rows.specs.Reads.{Fails};
ghost use Rattle.cfi_rows.specs.declared.instruction.Malformed.TheVariants.{Entry};
ghost use Rattle.cfi_rows.specs.FramePrograms.{rows_of, IsCieProgram, IsProgram};

use crate::cie_program::CieProgram;
use crate::decode::instructions;
use crate::entry_rows::EntryRows;
use crate::failed::Failed;
use crate::fde::read_fde_head;
use crate::instruction::Instruction;
use crate::machine::Machine;
use crate::row_history::RowHistory;
use rb_bytes::cursor::Cursor;
use std::alloc::Global;
use std::rc::Rc;

/// An FDE to be run: its CIE, the start of its range, and its instructions.
#[derive(Drop)]
pub struct Program {
    pub initial: Rc<CieProgram>,
    pub start: u64,
    pub instructions: Vec<Instruction>,
}

/// An FDE by its CIE and by its body, the bytes after its id; `end` is the address at which they end.
pub(crate) fn read_program(
    alloc: Global,
    cie: Rc<CieProgram>,
    end: u128,
    body: &[u8],
) -> Result<Program, Failed>
    requires { end < 2 ^ 66 }
    ensures program { IfOk result (λ p. (c : Cie) (e : RawEntry) → IsCieProgram (rc_value cie) c → e.body ≡ body.now →
        IfOk (fde_at c end e) (IsProgram p)) }
    ensures err { (c : Cie) (e : RawEntry) → IsCieProgram (rc_value cie) c → e.body ≡ body.now →
        IfErr result (λ x. Fails x (fde_at c end e ≡ Err Entry)) }
{
    let mut cursor = Cursor::new(body);
    let head = read_fde_head(&cie.head.augmentation, end, &mut cursor)?;
    let list = instructions(alloc, &mut cursor, &cie.head.factors(end))?;
    Ok(Program {
        initial: cie,
        start: head.start,
        instructions: list,
    })
}

impl Program {
    /// Runs the instructions, and keeps all rows.
    pub(crate) fn run(&self, alloc: Global) -> Result<EntryRows, Failed>
        ensures rows { IfOk result (λ rows. rows_of self.now ≡ Some rows) }
        ensures err { IfErr result (λ e. Fails e (rows_of self.now ≡ None)) }
    {
        let known = &self.initial.known;
        // Only for the clause of `len` that the rules of the CIE ascend by register, as the rules of rows have to.
        let _ = known.rules.len();
        let mut machine = Machine::begin(alloc, self.start, &known.cfa)?;
        let mut history = RowHistory::new(alloc);
        for instruction in &self.instructions {
            history.run(alloc, &mut machine, instruction)?;
        }
        history.add_row(&machine)?;
        Ok(EntryRows {
            initial: self.initial.clone()?,
            history,
        })
    }
}
