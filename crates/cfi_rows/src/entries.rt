// The entries of a frame table up to the first malformed one. LSB, "The .eh_frame section"; DWARF 5, section 6.4.1.
ghost use Rattle.std.specs.Prelude.{◌≡◌, ◌<◌, ◌≤◌, ◌+◌, ◌^◌, ℕ, if◌then◌else◌, List, ◌∷◌, Option, Some, IfOk, IfErr};
ghost use Rattle.std.specs.Prelude.{OnOk, IsOkAnd, Ok, Err};
ghost use Rattle.cfi_rows.specs.Entries as spec;
ghost use Rattle.cfi_rows.specs.Reads.{Fails};
ghost use Rattle.cfi_rows.specs.ReadEntries.{fde_of};
ghost use Rattle.cfi_rows.specs.KeptTables.{KeptAs, AreKept, fde_in, said, said_of, joined};
ghost use Rattle.cfi_rows.specs.declared.instruction.Malformed.TheVariants.{Entry};
ghost use Rattle.table_core.specs.ReadSteps.{is_ok};

use crate::cie::read_cie;
use crate::failed::Failed;
use crate::fde::read_fde;
use crate::frame_table::Fde;
use crate::kept_cie::Cie;
use crate::listed::Listed;
use crate::raw_entry::{RawEntry, walk};
use rb_bytes::fault::NoMemory;
use std::alloc::Global;
use std::collections::BTreeMap;

impl<'a> RawEntry<'a> {
    // Whether it is a CIE.
    fn is_cie(&self, debug: bool) -> bool
        ensures { result ≡ spec.is_cie debug self.now }
    {
        if debug {
            self.id == DEBUG_CIE_ID
        } else {
            self.id == 0
        }
    }

    // The offset of the CIE that an FDE names, if it can be one: in `.eh_frame` an id is the distance back from the id
    // field, which is four bytes after the start of the entry.
    pub(crate) fn cie_place(&self, debug: bool) -> Option<u128>
        ensures { result ≡ spec.cie_place debug self.now }
    {
        if debug {
            return Some(self.id as u128);
        }
        let field = self.place as u128 + 4;
        if self.id as u128 > field {
            return None;
        }
        Some(field - self.id as u128)
    }

    // The address at which it ends, if its section is at `address`. In a malformed file the sum may pass 2^64.
    pub(crate) fn end(&self, address: u64) -> u128
        ensures is { result ≡ spec.end_of address self.now }
        ensures small { result < 2 ^ 66 }
    {
        address as u128 + self.place as u128 + 8 + self.body.len() as u128
    }
}

// The id of a CIE in `.debug_frame`.
const DEBUG_CIE_ID: u32 = 0xffff_ffff;

// A CIE, or none if it is malformed.
fn sound_cie(alloc: Global, end: u128, body: &[u8]) -> Result<Option<Cie>, NoMemory>
    requires { end < 2 ^ 66 }
    ensures { IfOk result (λ cie. KeptAs cie (spec.cie_at end body.now)) }
{
    match read_cie(alloc, end, body) {
        Ok(cie) => Ok(Some(cie)),
        Err(Failed::Malformed) => Ok(None),
        Err(Failed::Memory) => Err(NoMemory),
    }
}

// Whether a CIE isn't malformed.
fn is_sound_cie(alloc: Global, end: u128, body: &[u8]) -> Result<bool, NoMemory>
    requires { end < 2 ^ 66 }
    ensures { IfOk result (λ sound. sound ≡ is_ok (spec.cie_at end body.now)) }
{
    match read_cie(alloc, end, body) {
        Ok(_) => Ok(true),
        Err(Failed::Malformed) => Ok(false),
        Err(Failed::Memory) => Err(NoMemory),
    }
}

// The CIEs among entries, by their places; none for one that is malformed. Of entries at one place the first counts,
// so they are gone through from the last one on. (Entries that were walked have a place each.)
fn read_cies(
    alloc: Global,
    debug: bool,
    address: u64,
    entries: &[RawEntry<'_>],
) -> Result<BTreeMap<u128, Option<Cie>>, NoMemory>
    ensures { IfOk result (λ cies. AreKept debug address entries.now cies) }
{
    let mut cies = BTreeMap::new(alloc);
    for count in 0..entries.len() {
        add_cie(
            alloc,
            debug,
            address,
            &entries[entries.len() - 1 - count],
            &mut cies,
        )?;
    }
    Ok(cies)
}

// Adds an entry, if it is a CIE, to the CIEs of the entries after it.
fn add_cie(
    alloc: Global,
    debug: bool,
    address: u64,
    entry: &RawEntry<'_>,
    cies: &mut BTreeMap<u128, Option<Cie>>,
) -> Result<(), NoMemory>
    ensures { OnOk result ((es : List spec.RawEntry) → AreKept debug address es cies.old →
        AreKept debug address (entry.now ∷ es) cies.new) }
{
    if !entry.is_cie(debug) {
        return Ok(());
    }
    let cie = sound_cie(alloc, entry.end(address), entry.body)?;
    cies.insert(entry.place as u128, cie)?;
    Ok(())
}

// An FDE by its entry, and by the CIEs of all entries. One whose CIE isn't there or is malformed is malformed, too.
fn fde_among(
    alloc: Global,
    debug: bool,
    address: u64,
    cies: &BTreeMap<u128, Option<Cie>>,
    entry: &RawEntry<'_>,
) -> Result<Fde, Failed>
    ensures ok { (es : List spec.RawEntry) → AreKept debug address es cies.now →
        IfOk result (λ f. IsOkAnd (fde_in debug address es entry.now) (λ x. f ≡ fde_of x)) }
    ensures err { (es : List spec.RawEntry) → AreKept debug address es cies.now →
        IfErr result (λ e. Fails e (fde_in debug address es entry.now ≡ Err Entry)) }
{
    let Some(place) = entry.cie_place(debug) else {
        return Err(Failed::Malformed);
    };
    match cies.get(&place) {
        Some(Some(cie)) => read_fde(alloc, cie, entry.end(address), entry),
        Some(None) => Err(Failed::Malformed),
        None => Err(Failed::Malformed),
    }
}

// The entries up to the first malformed one, or up to `broken`, the offset of bytes that are no entry.
fn sound_entries(
    alloc: Global,
    debug: bool,
    address: u64,
    entries: &[RawEntry<'_>],
    broken: Option<u64>,
) -> Result<Listed, NoMemory>
    ensures { IfOk result (λ t. said (spec.frames_from debug address entries.now broken entries.now) ≡ said_of t) }
{
    let all = read_cies(alloc, debug, address, entries)?;
    let mut listed = Listed {
        cies: 0,
        list: Vec::new(alloc),
        bad: None,
    };
    for entry in entries {
        let sound = take_entry(alloc, debug, address, &all, entry, &mut listed)?;
        if !sound {
            listed.bad = Some(entry.place);
            return Ok(listed);
        }
    }
    listed.bad = broken;
    Ok(listed)
}

// Takes an entry to those listed, and answers whether it is sound; a malformed one isn't taken.
fn take_entry(
    alloc: Global,
    debug: bool,
    address: u64,
    cies: &BTreeMap<u128, Option<Cie>>,
    entry: &RawEntry<'_>,
    listed: &mut Listed,
) -> Result<bool, NoMemory>
    requires { listed.old.cies < 2 ^ 63 }
    ensures taken { IfOk result (λ sound. (es rest : List spec.RawEntry) (broken : Option ℕ) →
        AreKept debug address es cies.now →
        joined listed.old.cies listed.old.list.items (said
        (spec.frames_from debug address es broken (entry.now ∷ rest))) ≡
        (if sound then joined listed.new.cies listed.new.list.items
        (said (spec.frames_from debug address es broken rest))
        else record { cies = listed.new.cies; list = listed.new.list.items; bad = Some entry.now.place })) }
    ensures more { listed.new.cies ≤ listed.old.cies + 1 }
{
    if entry.is_cie(debug) {
        if !is_sound_cie(alloc, entry.end(address), entry.body)? {
            return Ok(false);
        }
        listed.cies += 1;
        return Ok(true);
    }
    match fde_among(alloc, debug, address, cies, entry) {
        Ok(fde) => {
            listed.list.push(fde)?;
            Ok(true)
        }
        Err(Failed::Malformed) => Ok(false),
        Err(Failed::Memory) => Err(NoMemory),
    }
}

/// The entries of a frame table, `.debug_frame` if `debug` is true, by the contents and the address of its section.
pub fn read_entries(
    alloc: Global,
    debug: bool,
    address: u64,
    section: &[u8],
) -> Result<Listed, NoMemory>
    ensures { IfOk result (λ t. said (spec.frames debug address section.now) ≡ said_of t) }
{
    let walked = walk(alloc, debug, section)?;
    sound_entries(alloc, debug, address, &walked.entries, walked.broken)
}
