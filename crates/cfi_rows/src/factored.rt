// Operands that a CIE has factors for.
ghost use Rattle.std.specs.Prelude.{◌≡◌, ◌*◌, ℕ, List, IfOk, IfErr, Ok, Err};
ghost use Rattle.cfi_rows.specs.EntryCounts.{bytes_in};
ghost use Rattle.cfi_rows.specs.FrameInstructions.{advance, unsigned_offset, signed_offset};
ghost use Rattle.cfi_rows.specs.Reads.{Fails, context_of};
ghost use Rattle.cfi_rows.specs.declared.instruction.Malformed.TheVariants.{Entry};

use crate::factors::Factors;
use crate::failed::Failed;
use crate::instruction::Instruction;

impl Factors {
    /// An advance by a number of code units.
    pub(crate) fn advance(&self, units: u64) -> Result<Instruction, Failed>
        ensures ok { IfOk result (λ i. (rest : List ℕ) → advance (units * self.now.code) rest ≡ Ok (i, rest)) }
        ensures err { IfErr result (λ e. Fails e ((rest : List ℕ) → advance (units * self.now.code) rest ≡ Err Entry)) }
        ensures none { IfOk result (λ i. bytes_in i ≡ 0) }
    {
        let bytes = units.checked_mul(self.code).ok_or(Failed::Malformed)?;
        Ok(Instruction::Advance(bytes))
    }

    /// A signed number of data units, modulo 2^64.
    pub(crate) fn signed_offset(&self, units: i64) -> i64
        ensures { result ≡ signed_offset (context_of self.now) units }
    {
        units.wrapping_mul(self.data)
    }

    /// An unsigned number of data units, modulo 2^64.
    pub(crate) fn unsigned_offset(&self, units: u64) -> i64
        ensures { result ≡ unsigned_offset (context_of self.now) units }
    {
        self.signed_offset(units.cast_signed())
    }
}
