// Relocations that don't fit the instructions or fields that they apply to.
ghost use Rattle.std.specs.Prelude.{◌≡◌, ◌↔◌, ◌||◌, IfOk, IsTrue, All, Contains};
ghost use Rattle.elf_code.specs.FileCode.{AreStarts};
ghost use Rattle.elf_code.specs.Relocations.{HasRelocation, relocations};
ghost use Rattle.elf_image.specs.faults.LowestPlace.{IsLowest};
ghost use Rattle.elf_code.specs.ReferenceFaults.{IsBadField, IsMisfit};
ghost use Rattle.code_starts.specs.LoadedMemory.{IsLow};
ghost use Rattle.rv_reloc.specs.Lows.{AreLows};
ghost use Rattle.rv_reloc.specs.Misfits.{IsMisplaced, IsUnfit, HasBadSymbol};
ghost use Rattle.rv_reloc.specs.NamedAddresses.{AreNamed};
ghost use Rattle.rv_reloc.specs.Pairs.{AreFar};
ghost use Rattle.code_starts.specs.Parts.{AreCodeParts};
ghost use Rattle.rv_reloc.specs.Places.{IsPlaceOf};
ghost use Rattle.rv_reloc.specs.Records.{seen, AreRecords};
ghost use Rattle.rv_reloc.specs.Slots.{AreSlotLabels};
ghost use Rattle.rv_reloc.specs.Tails.{IsKnown};

use crate::absolute::is_bad_absolute;
use crate::bad_entries::lowest_bad_entry;
use crate::calls::is_bad_call;
use crate::differences::is_bad_difference;
use crate::fields::{has_field, known_tails};
use crate::lows::Low;
use crate::named::named_by_lows;
use crate::pairs::{far_uppers, is_far};
use crate::records::Record;
use crate::slots::SlotLabel;
use crate::tails::Known;
use crate::uppers::{is_bad_lower, is_bad_upper};
use code_starts::parts::Part;
use code_starts::start_index::Starts;
use elf_image::Elf;
use elf_image::lowest::{lower, place_if};
use rb_bytes::fault::NoMemory;
use std::alloc::Global;

// Whether a relocation has the index of a symbol that doesn't exist.
fn has_bad_symbol(elf: &Elf, relocation: &Record) -> bool
    ensures { IsTrue result ↔ HasBadSymbol elf.now (seen relocation.now) }
{
    relocation.symbol != 0 && elf.symbols.len() <= relocation.symbol as usize
}

// `||` as a function. The proof of a caller then has a single case instead of one for each short-circuited test.
fn is_either(one: bool, other: bool) -> bool
    ensures { result ≡ (one || other) }
{
    one || other
}

// Whether a relocation isn't on the instructions that it is for, or their immediates are wrong. `near` is a guess for
// its index in `records`.
fn is_misplaced(
    elf: &Elf,
    starts: &Starts,
    parts: &[Part],
    named: &[u64],
    records: &[Record],
    near: usize,
    relocation: &Record,
) -> bool
    requires starts { AreStarts elf.now starts.now }
    requires parts { AreCodeParts elf.now parts.now }
    requires named { AreNamed elf.now named.now }
    requires records { AreRecords elf.now records.now }
    requires counts { Contains (relocations elf.now) (seen relocation.now) }
    ensures { IsTrue result ↔ IsMisplaced elf.now (seen relocation.now) }
{
    let call = is_bad_call(elf, starts, parts, relocation);
    let upper = is_bad_upper(elf, starts, parts, named, relocation);
    let lower = is_bad_lower(elf, starts, parts, records, near, relocation);
    let absolute = is_bad_absolute(elf, starts, parts, relocation);
    is_either(is_either(call, upper), is_either(lower, absolute))
}

// Whether a relocation's symbol doesn't exist, or its field isn't in its section.
fn has_bad_field(elf: &Elf, known: &[Known], relocation: &Record) -> bool
    requires low { IsLow elf.now }
    requires known { All (IsKnown elf.now) known.now }
    ensures { IsTrue result ↔ IsBadField elf.now (seen relocation.now) }
{
    has_bad_symbol(elf, relocation) || !has_field(elf, known, relocation)
}

// Whether a relocation doesn't fit, regardless of the contents of the global offset table. `near` is a guess for its
// index in `records`.
fn is_unfit(
    elf: &Elf,
    starts: &Starts,
    parts: &[Part],
    named: &[u64],
    far: &[u64],
    known: &[Known],
    records: &[Record],
    near: usize,
    relocation: &Record,
) -> bool
    requires low { IsLow elf.now }
    requires starts { AreStarts elf.now starts.now }
    requires parts { AreCodeParts elf.now parts.now }
    requires named { AreNamed elf.now named.now }
    requires far { AreFar elf.now far.now }
    requires known { All (IsKnown elf.now) known.now }
    requires records { AreRecords elf.now records.now }
    requires counts { Contains (relocations elf.now) (seen relocation.now) }
    ensures { IsTrue result ↔ IsUnfit elf.now (seen relocation.now) }
{
    let field = has_bad_field(elf, known, relocation);
    let misplaced = is_misplaced(elf, starts, parts, named, records, near, relocation);
    let far_target = is_far(elf, far, relocation);
    let difference = is_bad_difference(elf, starts, known, records, near, relocation);
    is_either(
        is_either(field, misplaced),
        is_either(far_target, difference),
    )
}

// The lowest place of a relocation that doesn't fit, regardless of the contents of the global offset table.
fn lowest_unfit(
    elf: &Elf,
    starts: &Starts,
    parts: &[Part],
    named: &[u64],
    far: &[u64],
    known: &[Known],
    records: &[Record],
) -> Option<u64>
    requires low { IsLow elf.now }
    requires starts { AreStarts elf.now starts.now }
    requires parts { AreCodeParts elf.now parts.now }
    requires named { AreNamed elf.now named.now }
    requires far { AreFar elf.now far.now }
    requires known { All (IsKnown elf.now) known.now }
    requires records { AreRecords elf.now records.now }
    ensures { IsLowest (IsPlaceOf (λ r. r.place) (λ r. IsUnfit elf.now (seen r)) records.now) result }
{
    let mut lowest = None;
    for (index, relocation) in records.iter().enumerate() {
        let unfit = is_unfit(
            elf, starts, parts, named, far, known, records, index, relocation,
        );
        lowest = lower(lowest, place_if(unfit, relocation.place));
    }
    lowest
}

/// The lowest place of a relocation that doesn't fit what it applies to. `starts`, `parts`, `lows`, `labels` and
/// `records` are those of the file.
pub fn lowest_misfit(
    alloc: Global,
    elf: &Elf,
    starts: &Starts,
    parts: &[Part],
    lows: &[Low],
    labels: &[SlotLabel],
    records: &[Record],
) -> Result<Option<u64>, NoMemory>
    requires low { IsLow elf.now }
    requires starts { AreStarts elf.now starts.now }
    requires parts { AreCodeParts elf.now parts.now }
    requires lows { AreLows elf.now lows.now }
    requires labels { AreSlotLabels elf.now labels.now }
    requires records { AreRecords elf.now records.now }
    ensures { IfOk result (IsLowest (HasRelocation elf.now (IsMisfit elf.now))) }
{
    let named = named_by_lows(alloc, elf, records)?;
    let far = far_uppers(alloc, elf, starts, parts, lows)?;
    let known = known_tails(alloc, elf, records)?;
    let unfit = lowest_unfit(elf, starts, parts, &named, &far, &known, records);
    let entry = lowest_bad_entry(elf, starts, parts, labels, lows);
    Ok(lower(unfit, entry))
}
