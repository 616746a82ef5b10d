// Relocations for the upper and lower parts of distances.
ghost use Rattle.std.specs.Prelude.{◌≡◌, ◌↔◌, IsTrue};
ghost use Rattle.elf_code.specs.FileCode.{AreStarts};
ghost use Rattle.elf_code.specs.ReferenceFaults.{IsBadUpper, IsBadLower, IsUpper};
ghost use Rattle.rv_reloc.specs.NamedAddresses.{AreNamed};
ghost use Rattle.code_starts.specs.Parts.{AreCodeParts};
ghost use Rattle.rv_reloc.specs.Records.{seen, AreRecords};

use crate::index::{has_call, has_upper};
use crate::instructions::auipc_at;
use crate::labels::symbol_value;
use crate::lows::low_of;
use crate::named::is_named;
use crate::records::Record;
use crate::types::{is_pcrel_hi, is_pcrel_lo};
use code_starts::parts::Part;
use code_starts::start_index::Starts;
use elf_image::Elf;

/// Whether a relocation for an upper part isn't on an AUIPC, or no lower part refers to the AUIPC.
pub fn is_bad_upper(
    elf: &Elf,
    starts: &Starts,
    parts: &[Part],
    named: &[u64],
    relocation: &Record,
) -> bool
    requires starts { AreStarts elf.now starts.now }
    requires parts { AreCodeParts elf.now parts.now }
    requires named { AreNamed elf.now named.now }
    ensures { IsTrue result ↔ IsBadUpper elf.now (seen relocation.now) }
{
    if !is_pcrel_hi(relocation.kind) {
        return false;
    }
    match auipc_at(elf, starts, parts, relocation.place) {
        Some(_) => !is_named(named, relocation.place),
        None => true,
    }
}

// Whether there is an AUIPC at an address, with an upper part that isn't part of a call. `near` is a guess for the
// index of its relocation in `records`.
fn is_upper(
    elf: &Elf,
    starts: &Starts,
    parts: &[Part],
    records: &[Record],
    near: usize,
    address: u64,
) -> bool
    requires starts { AreStarts elf.now starts.now }
    requires parts { AreCodeParts elf.now parts.now }
    requires records { AreRecords elf.now records.now }
    ensures { IsTrue result ↔ IsUpper elf.now address }
{
    match auipc_at(elf, starts, parts, address) {
        Some(_) => {
            let upper = has_upper(records, near, address);
            let call = has_call(records, near, address);
            upper && !call
        }
        None => false,
    }
}

/// Whether a relocation for a lower part isn't on an instruction that can have one, or refers to no upper part. `near`
/// is a guess for the index in `records` of the relocation for the upper part.
pub fn is_bad_lower(
    elf: &Elf,
    starts: &Starts,
    parts: &[Part],
    records: &[Record],
    near: usize,
    relocation: &Record,
) -> bool
    requires starts { AreStarts elf.now starts.now }
    requires parts { AreCodeParts elf.now parts.now }
    requires records { AreRecords elf.now records.now }
    ensures { IsTrue result ↔ IsBadLower elf.now (seen relocation.now) }
{
    match low_of(elf, starts, parts, relocation) {
        Some(low) => !is_upper(elf, starts, parts, records, near, low.hi),
        None => is_pcrel_lo(relocation.kind),
    }
}
