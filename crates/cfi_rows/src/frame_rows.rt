// The rows of all entries of a frame table. DWARF 5, section 6.4.1.
ghost use Rattle.std.specs.Prelude.{◌≡◌, ◌<◌, ◌^◌, IfOk, IfErr, OnOk, IsOkAnd, Some, None, Err, map};
ghost use Rattle.std.specs.Rc.{rc_value};
ghost use Rattle.cfi_rows.specs.Entries.{cie_place, frames};
ghost use Rattle.cfi_rows.specs.ReadEntries.{fde_of};
ghost use Rattle.cfi_rows.specs.FramePrograms as spec;
ghost use Rattle.cfi_rows.specs.Reads.{Fails};
ghost use Rattle.cfi_rows.specs.declared.instruction.Malformed.TheVariants.{Entry};

use crate::cie_program::{CieProgram, read_cie_program};
use crate::entry_rows::EntryRows;
use crate::failed::Failed;
use crate::frame_table::Fde;
use crate::program::{Program, read_program};
use crate::raw_entry::{RawEntry, entry_at};
use rb_bytes::fault::NoMemory;
use std::alloc::Global;
use std::collections::BTreeMap;
use std::rc::Rc;
use table_core::section::Held;

/// The rows of each entry of a table's list, in the order of the list.
pub(crate) fn rows_of(
    alloc: Global,
    debug: bool,
    held: &Held<'_>,
    list: &[Fde],
) -> Result<Vec<EntryRows>, NoMemory>
    requires { list.now ≡ map fde_of (frames debug held.now.address held.now.bytes.now).list }
    ensures { IfOk result (λ all.
        all.items ≡ map (λ f. f.rows) (frames debug held.now.address held.now.bytes.now).list) }
{
    let mut cies = BTreeMap::new(alloc);
    let mut all = Vec::new(alloc);
    for fde in list {
        match rows_standing(alloc, debug, held, fde.place, &mut cies) {
            Ok(rows) => all.push(rows)?,
            Err(Failed::Memory) => return Err(NoMemory),
            // The list has only entries that were read before and weren't malformed.
            Err(Failed::Malformed) => unreachable!(),
        }
    }
    Ok(all)
}

/// The rows of the FDE at a place. Each CIE is read once.
pub(crate) fn rows_standing(
    alloc: Global,
    debug: bool,
    held: &Held<'_>,
    place: u64,
    cies: &mut BTreeMap<u128, Rc<CieProgram>>,
) -> Result<EntryRows, Failed>
    ensures rows { IfOk result (λ rows. spec.AreRead rc_value debug (spec.section_in held.now) cies.old →
        IfOk (spec.fde_standing debug (spec.section_in held.now) place) (λ f. f.rows ≡ rows)) }
    ensures err { IfErr result (λ e. Fails e (spec.AreRead rc_value debug (spec.section_in held.now) cies.old →
        IfOk (spec.fde_standing debug (spec.section_in held.now) place) (λ _. ⊥))) }
    ensures read { OnOk result (spec.AreRead rc_value debug (spec.section_in held.now) cies.old →
        spec.AreRead rc_value debug (spec.section_in held.now) cies.new) }
{
    let program = program_standing(alloc, debug, held, place, cies)?;
    program.run(alloc)
}

// The FDE at a place, to be run.
fn program_standing(
    alloc: Global,
    debug: bool,
    held: &Held<'_>,
    place: u64,
    cies: &mut BTreeMap<u128, Rc<CieProgram>>,
) -> Result<Program, Failed>
    ensures program { IfOk result (λ p. spec.AreRead rc_value debug (spec.section_in held.now) cies.old →
        IfOk (spec.fde_standing debug (spec.section_in held.now) place) (spec.IsProgram p)) }
    ensures err { IfErr result (λ e. Fails e (spec.AreRead rc_value debug (spec.section_in held.now) cies.old →
        IfOk (spec.fde_standing debug (spec.section_in held.now) place) (λ _. ⊥))) }
    ensures read { OnOk result (spec.AreRead rc_value debug (spec.section_in held.now) cies.old →
        spec.AreRead rc_value debug (spec.section_in held.now) cies.new) }
{
    let entry = entry_standing(debug, held.bytes, place as u128)?;
    let cie = cie_of(alloc, debug, held, &entry, cies)?;
    read_program(alloc, cie, entry.end(held.address), entry.body)
}

// The CIE that an FDE names.
fn cie_of(
    alloc: Global,
    debug: bool,
    held: &Held<'_>,
    fde: &RawEntry<'_>,
    cies: &mut BTreeMap<u128, Rc<CieProgram>>,
) -> Result<Rc<CieProgram>, Failed>
    ensures cie { IfOk result (λ k. spec.AreRead rc_value debug (spec.section_in held.now) cies.old →
        IsOkAnd (spec.cie_standing debug (spec.section_in held.now) (cie_place debug fde.now))
        (spec.IsCieProgram (rc_value k))) }
    ensures err { IfErr result (λ e. Fails e
        (spec.cie_standing debug (spec.section_in held.now) (cie_place debug fde.now) ≡ Err Entry)) }
    ensures read { OnOk result (spec.AreRead rc_value debug (spec.section_in held.now) cies.old →
        spec.AreRead rc_value debug (spec.section_in held.now) cies.new) }
{
    match fde.cie_place(debug) {
        Some(place) => cie_standing(alloc, debug, held, place, cies),
        None => Err(Failed::Malformed),
    }
}

// The CIE at a place.
fn cie_standing(
    alloc: Global,
    debug: bool,
    held: &Held<'_>,
    place: u128,
    cies: &mut BTreeMap<u128, Rc<CieProgram>>,
) -> Result<Rc<CieProgram>, Failed>
    ensures cie { IfOk result (λ k. spec.AreRead rc_value debug (spec.section_in held.now) cies.old →
        IsOkAnd (spec.cie_standing debug (spec.section_in held.now) (Some place)) (spec.IsCieProgram (rc_value k))) }
    ensures err { IfErr result (λ e. Fails e
        (spec.cie_standing debug (spec.section_in held.now) (Some place) ≡ Err Entry)) }
    ensures read { OnOk result (spec.AreRead rc_value debug (spec.section_in held.now) cies.old →
        spec.AreRead rc_value debug (spec.section_in held.now) cies.new) }
{
    if let Some(cie) = cies.get(&place) {
        return Ok(cie.clone()?);
    }
    let entry = entry_standing(debug, held.bytes, place)?;
    let program = read_cie_program(alloc, entry.end(held.address), entry.body)?;
    let cie = Rc::new(alloc, program)?;
    cies.insert(place, cie.clone()?)?;
    Ok(cie)
}

// The entry at a place of a section.
#[tactic(auto, using(crate::proofs::StandingEntries::past_end, crate::proofs::StandingEntries::without))]
fn entry_standing<'a>(debug: bool, section: &'a [u8], place: u128) -> Result<RawEntry<'a>, Failed>
    ensures entry { IfOk result (λ e. spec.entry_standing debug section.now place ≡ Some e) }
    ensures err { IfErr result (λ e. Fails e (spec.entry_standing debug section.now place ≡ None)) }
{
    if place > section.len() as u128 {
        return Err(Failed::Malformed);
    }
    let (_, left) = section.split_at(place as usize);
    match entry_at(debug, place as u64, left) {
        Ok((entry, _)) => Ok(entry),
        Err(_) => Err(Failed::Malformed),
    }
}
