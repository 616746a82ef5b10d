// Ranges and locations of a file, read together.
ghost use Rattle.std.specs.Prelude.{◌≡◌, IfErr, IfOk, OnOk};
ghost use Rattle.rb_bytes.specs.FirstFault.{IsFree, IsRefusalBy};
ghost use Rattle.dw_unit.specs.Faults.{HasDwarfFault};
ghost use Rattle.dw_lists.specs.Faults.{location_places};
ghost use Rattle.dw_lists.specs.Tables.{list_sections};
ghost use Rattle.list_units.specs.PlaceReading.{ArePlacesOf};
ghost use Rattle.list_units.specs.RangeReading.{AreRangesOf};

use crate::location_lists::Places;
use crate::range_lists::Ranges;
use dw_lists::list_section::most_kept;
use elf_image::Elf;
use list_units::both_entries::{BothEntries, read_both};
use rb_bytes::fault::Refusal;
use std::alloc::Global;
use table_core::section::contents_of;

/// The ranges and locations of all entries of a file, or the first fault of the sections that they are read from.
pub fn read_entries(alloc: Global, elf: &Elf) -> Result<BothEntries, Refusal>
    ensures ranges { IfOk result (λ r.
        AreRangesOf (list_sections elf.now) r.ranges.groups r.ranges.ranged.items
        r.ranges.indexed.items) }
    ensures places { IfOk result (λ r.
        ArePlacesOf (list_sections elf.now) r.places.groups r.places.kept r.places.named.items
        r.places.indexed.items) }
    ensures fault { IfErr result (IsRefusalBy (HasDwarfFault (location_places (list_sections elf.now)))) }
{
    let info = contents_of(elf, b".debug_info");
    let abbrevs = contents_of(elf, b".debug_abbrev");
    let addr = contents_of(elf, b".debug_addr");
    let ranges = contents_of(elf, b".debug_rnglists");
    let locations = contents_of(elf, b".debug_loclists");
    let most = most_kept(elf.file.len());
    let entries = read_both(alloc, info, abbrevs, addr, ranges, locations, most)?;
    Ok(entries)
}

/// Reads both tables in one walk of the units, or refuses the file for the first fault of the sections, as
/// `Places::read` would.
pub fn read_lists(alloc: Global, elf: &Elf) -> Result<(Ranges, Places), Refusal>
    ensures ranges { IfOk result (λ t. t.0 ≡ list_sections elf.now) }
    ensures places { IfOk result (λ t. t.1 ≡ list_sections elf.now) }
    ensures free { OnOk result (IsFree (HasDwarfFault (location_places (list_sections elf.now)))) }
    ensures fault { IfErr result (IsRefusalBy (HasDwarfFault (location_places (list_sections elf.now)))) }
{
    let entries = read_entries(alloc, elf)?;
    let ranges = Ranges::keep(alloc, elf, entries.ranges)?;
    let places = Places::keep(alloc, elf, entries.places)?;
    Ok((ranges, places))
}
