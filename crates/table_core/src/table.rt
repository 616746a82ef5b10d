// Tables of answers by address.
ghost use Rattle.std.specs.Prelude.{◌≡◌, ◌≤◌, ◌-◌, ◌^◌, ℕ, List, AllPairs, Option, Some, None, IfOk, IsTrue, ◌↔◌};
ghost use Rattle.std.specs.Prelude.{MatchResult, OnOk, option_map};
ghost use Rattle.rb_bytes.specs.declared.fault.FaultKind.{FaultKind};
ghost use Rattle.elf_image.specs.declared.elf.Elf.{Elf};
ghost use Rattle.rb_bytes.specs.FirstFault.{IsFree, IsRefusalBy};
ghost use Rattle.addr_map.specs.MapText.{IsLineBefore};
ghost use Rattle.addr_map.specs.Spans.{ShareNoByte};
ghost use Rattle.addr_map.specs.declared.span.Span.{Span};
ghost use Rattle.answer_runs.specs.declared.run.Run.{Run};
ghost use Rattle.answer_runs.specs.AnswerRuns.{carried, run_at, said_runs, AreLow, IsWithin};
ghost use Rattle.answer_runs.specs.CarriedAnswers.{IsCarried};
ghost use Rattle.table_core.specs.declared.written.Written.{Written};

use crate::written::Written;
use addr_map::AddrMap;
use answer_runs::Run;
use elf_image::elf::Elf;
use rb_bytes::fault::{NoMemory, Refusal};
use std::alloc::Global;

/// The answers of a table by address, and the terms of its law. They are apart from the functions that write the table,
/// so that its weight can be found from runs of its own answers.
pub trait ByAddress: Drop {
    /// An answer, never an empty one.
    type Answer: Drop;

    /// What look-ups remember for those after them.
    type Near: Drop;

    /// The contents of an answer, without the memory that it owns.
    ghost Meaning: { Type 0 };

    ghost said: { Self.Answer → Meaning };

    /// The answer at an address.
    ghost says: { Self → ℕ → Option Meaning };

    /// What is remembered is of the table.
    ghost is_near: { Self → Self.Near → Type 0 };

    /// The answers of the table in a file, by address; none if the file has a fault of the table.
    ghost means: { Elf → Option (ℕ → Option Meaning) };

    /// The places of the faults that reading the table looks for, by their kind.
    ghost has: { Elf → FaultKind → ℕ → Type 0 };

    /// The table may have been read from a file: the file has the same sections and, if they matter, the same cuts.
    ghost comes_from: { Self → Elf → Type 0 };

    /// The maps for which the table can be written.
    ghost allows: { Self → List Span → Type 0 };

    /// The file contains the table that was written for an input and a map.
    ghost stands: { Elf → List Span → Written → Elf → Type 0 };

    /// The second answer, of the new table, is the first, of the old one, carried by a map.
    ghost carries: { List Span → Meaning → Meaning → Type 0 };

    /// The conditions for writing the table with numbers of 32 bits: its sections are no larger than a file may be, and
    /// its weight, or for a loaded table the end of the written bytes, is within its limit.
    ghost fits: { Self → List Span → List (Run Meaning) → Type 0 };

    /// Properties of a table that was written from runs, in any file: the number of its bytes, the lists in it, and the
    /// result of reading its bytes.
    ghost makes: { Self → List Span → List (Run Meaning) → Written → Type 0 };

    /// What a file that contains the table keeps of the input besides answers.
    ghost keeps: { Elf → Elf → Type 0 };

    /// Whether two answers are equal.
    fn same(x: &Self::Answer, y: &Self::Answer) -> bool
        ensures { IsTrue result ↔ (said x.now ≡ said y.now) };

    /// Before the first look-up nothing is remembered.
    fn begin(alloc: Global) -> Self::Near
        ensures { (t : Self) → is_near t result };

    /// The answer at an address, and the last address up to which it certainly stays the same.
    fn find(
        &self,
        alloc: Global,
        near: &mut Self::Near,
        a: u64,
    ) -> Result<(Option<Self::Answer>, u64), NoMemory>
        requires { is_near self.now near.old }
        ensures near { OnOk result (is_near self.now near.new) }
        ensures said { IfOk result (λ r. option_map said r.0 ≡ says self.now a) }
        ensures last { IfOk result (λ r. (x : ℕ) → a ≤ x → x ≤ r.1 → says self.now x ≡ says self.now a) };

    /// The answer at an address.
    fn at(&self, alloc: Global, a: u64) -> Result<Option<Self::Answer>, NoMemory>
        ensures { IfOk result (λ o. option_map said o ≡ says self.now a) }
    {
        let mut near = Self::begin(alloc);
        let (answer, _) = self.find(alloc, &mut near, a)?;
        Ok(answer)
    }

    /// The memory of an answer, in bytes or a few more, with its run and all that it owns; 0 if the table has no limit.
    fn size(_answer: &Self::Answer) -> usize {
        0
    }

    /// The limit of memory, in bytes, of all answers that are asked for when the table is carried.
    fn most_size(&self) -> usize {
        usize::MAX
    }

    /// Whether the table certainly has no answer at any address, such as a table that its file doesn't have. `false`
    /// has no meaning.
    fn is_silent(&self) -> bool
        ensures { IsTrue result → (a : ℕ) → says self.now a ≡ None }
    {
        false
    }

    /// A map that is allowed has no byte at the last address, so each run ends below 2^64.
    ghost is_low: { (t : Self) (spans : List Span) → allows t spans → AreLow spans };
}

/// A table of a file that answers by address, and that can be written for moved code.
///
/// The law is the clause `law` of `write_runs`. Code that writes the file must prove that the file contains the written
/// table.
pub trait AddrTable: ByAddress {
    /// Reads the table, or refuses the file for the table's first fault.
    fn read(alloc: Global, elf: &Elf) -> Result<Self, Refusal>
    where
        Self: Sized,
        ensures reads { MatchResult result (λ t. (Self.means elf.now ≡ Some (Self.says t)) × IsFree (Self.has elf.now))
            (λ e. IsRefusalBy (Self.has elf.now) e) }
        ensures comes { IfOk result (λ t. Self.comes_from t elf.now) };

    /// Writes the table from runs that have the old answers at the owners of their bytes.
    fn write_runs(
        &self,
        alloc: Global,
        runs: &[Run<Self::Answer>],
        map: &AddrMap,
    ) -> Result<Written, NoMemory>
        requires allowed { Self.allows self.now map.now }
        requires ordered { AllPairs IsLineBefore map.now }
        requires disjoint { AllPairs ShareNoByte map.now }
        requires fitting { Self.fits self.now map.now (said_runs Self.said runs.now) }
        requires within { IsWithin 0 runs.now (2 ^ 64 - 1) }
        requires answers { (p : ℕ) → option_map Self.said (run_at runs.now p) ≡ carried (Self.says self.now) map.now p }
        ensures law { IfOk result (λ w. (i f : Elf) → Self.comes_from self.now i → Self.stands i map.now w f →
            IsCarried (Self.carries map.now) map.now (λ p. option_map Self.said (run_at runs.now p)) (Self.means f)
            × IsFree (Self.has f)
            × Self.keeps i f) }
        ensures made { IfOk result (λ w. Self.makes self.now map.now (said_runs Self.said runs.now) w) };
}
