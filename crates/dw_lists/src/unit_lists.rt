// How units read lists. DWARF 5, sections 7.28 and 7.29.
ghost use Rattle.std.specs.Prelude.{◌≡◌, ◌==◌, ℕ, option_and_then, option_map};
ghost use Rattle.dw_unit.specs.CompUnits as units;
ghost use Rattle.dw_unit.specs.CompUnits.{Unit};
ghost use Rattle.dw_unit.specs.ListedUnits.{plain_unit};
ghost use Rattle.dw_unit.specs.declared.attribute.TheConstants.{DW_AT_addr_base, DW_AT_entry_pc, DW_AT_low_pc};
ghost use Rattle.dw_lists.specs.ListReading.{kind_of};
ghost use Rattle.dw_lists.specs.Lists.{base_address};
ghost use Rattle.dw_lists.specs.Ranges as ranges;
ghost use Rattle.dw_lists.specs.UnitLists.{ReadsLists, own_place};

use crate::addresses::Addresses;
use crate::list_kind::ListKind;
use dw_unit::attribute::{DW_AT_entry_pc, DW_AT_low_pc};
use dw_unit::soundness::bases;
use dw_unit::{Attr, Entry, attr_named, is_address_index};
use table_core::form::DW_FORM_addr;

/// What a unit needs to read lists of a kind, ranges or locations.
#[derive(Clone, Copy)]
pub struct UnitLists<'a> {
    pub addresses: Addresses<'a>,
    /// The base of its list indexes: the offset of its table of offsets, if it has one.
    pub lists: Option<u64>,
    /// The base address of its lists: its low address, or 0.
    pub base: u64,
    /// The offset of its own entry in `.debug_info`.
    pub own: u64,
}

fn address_of(addresses: &Addresses, attr: &Attr) -> Option<u64>
    ensures { (u : Unit) → addresses.now.base ≡ units.base DW_AT_addr_base u →
        result ≡ units.address_of addresses.now.section.now u attr.now }
{
    if attr.form == DW_FORM_addr {
        return Some(attr.value);
    }
    if is_address_index(attr.form) {
        return addresses.at(attr.value);
    }
    None
}

/// The low address of an entry, by its attributes, if it has one that can be found.
pub fn low_pc(addresses: &Addresses, attrs: &[Attr]) -> Option<u64>
    ensures { (u : Unit) (e : units.Entry) → addresses.now.base ≡ units.base DW_AT_addr_base u → e.attrs ≡ attrs.now →
        result ≡ units.low_pc addresses.now.section.now u e }
{
    let low = attr_named(DW_AT_low_pc, attrs)?;
    address_of(addresses, low)
}

fn entry_pc(addresses: &Addresses, attrs: &[Attr]) -> Option<u64>
    ensures { (u : Unit) (e : units.Entry) → addresses.now.base ≡ units.base DW_AT_addr_base u → e.attrs ≡ attrs.now →
        result ≡ option_and_then (units.address_of addresses.now.section.now u) (units.attr DW_AT_entry_pc e) }
{
    let entry = attr_named(DW_AT_entry_pc, attrs)?;
    address_of(addresses, entry)
}

/// The address that an entry names for its first instruction: its DW_AT_entry_pc, or else its DW_AT_low_pc. DWARF 5,
/// section 2.18.
pub fn named_entry(addresses: &Addresses, attrs: &[Attr]) -> Option<u64>
    ensures { (u : Unit) (e : units.Entry) → addresses.now.base ≡ units.base DW_AT_addr_base u → e.attrs ≡ attrs.now →
        result ≡ ranges.named_entry addresses.now.section.now u e }
{
    entry_pc(addresses, attrs).or(low_pc(addresses, attrs))
}

fn base_address(addresses: &Addresses, entries: &[Entry]) -> u64
    ensures { addresses.now.base ≡ units.base DW_AT_addr_base (plain_unit entries.now) →
        result ≡ base_address addresses.now.section.now (plain_unit entries.now) }
{
    match entries.first() {
        Some(own) => low_pc(addresses, &own.attrs).unwrap_or(0),
        None => 0,
    }
}

fn own_place(entries: &[Entry]) -> u64
    ensures { result ≡ own_place (plain_unit entries.now) }
{
    match entries.first() {
        Some(own) => own.place,
        None => 0,
    }
}

/// The base of the list indexes of a kind in the unit of some entries, if it has one.
pub fn lists_base(kind: ListKind, entries: &[Entry]) -> Option<u64>
    ensures { result ≡ units.base (kind_of kind).base_name (plain_unit entries.now) }
{
    let bases = bases(entries);
    match kind {
        ListKind::Ranges => bases.rnglists,
        ListKind::Locations => bases.loclists,
    }
}

/// What the unit of some entries needs to read lists.
pub fn unit_lists<'a>(addr: &'a [u8], kind: ListKind, entries: &[Entry]) -> UnitLists<'a>
    ensures { ReadsLists (kind_of kind) addr.now (plain_unit entries.now) result }
{
    let bases = bases(entries);
    let addresses = Addresses {
        section: addr,
        base: bases.addr,
    };
    UnitLists {
        addresses,
        lists: lists_base(kind, entries),
        base: base_address(&addresses, entries),
        own: own_place(entries),
    }
}
