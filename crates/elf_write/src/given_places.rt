// Whether the tables that are given have a place in a written file, and all other debug tables stay.
ghost use Rattle.std.specs.Prelude.{◌≡◌, ◌==◌, ◌||◌, IsTrue, OnOk};
ghost use Rattle.elf_plan.specs.Contents.{is_at};
ghost use Rattle.elf_plan.specs.KnownSections.{IsOwnOf};
ghost use Rattle.elf_write.specs.TablePlaces as spec;

use elf_image::named::names_debug;
use elf_image::{Elf, Section};
use elf_plan::given_tables::Table;
use elf_plan::name_tables::OwnSections;
use elf_plan::sections::{DEBUG_MACRO, is_left_out, place_replaced};
use elf_plan::unwritable::Unwritable;

// Whether the section at `index` has names or symbols, which are rewritten.
fn is_own_section(own: OwnSections, index: usize) -> bool
    ensures { result ≡ ((own.section_names == index) || (is_at index own.symbols || is_at index own.symbol_names)) }
{
    own.section_names == index || own.symbols == Some(index) || own.symbol_names == Some(index)
}

// Whether a given table can take the place of `section`, which is at `index`: that is neither rewritten nor left out.
fn takes_table(elf: &Elf, own: OwnSections, index: usize, section: &Section) -> bool
    requires { IsOwnOf elf.now own }
    ensures { result ≡ spec.takes_table elf.now index section.now }
{
    !is_own_section(own, index) && !is_left_out(section)
}

fn takes_table_at(elf: &Elf, own: OwnSections, index: usize) -> bool
    requires { IsOwnOf elf.now own }
    ensures { result ≡ spec.takes_table_at elf.now index }
{
    match elf.sections.get(index) {
        Some(section) => takes_table(elf, own, index, section),
        None => false,
    }
}

// Whether the table called `name` has a place: the section that the name means can take it, or there is none.
fn has_place(elf: &Elf, own: OwnSections, name: &[u8]) -> bool
    requires { IsOwnOf elf.now own }
    ensures { result ≡ spec.has_place elf.now name.now }
{
    match place_replaced(&elf.sections, name) {
        Some(index) => takes_table_at(elf, own, index),
        None => true,
    }
}

// Whether each table that is given has a place: it is the unwind table or its index, or the section that its name
// means can hold it, or the input has no such section.
fn are_placed(elf: &Elf, own: OwnSections, tables: &[Table]) -> bool
    requires { IsOwnOf elf.now own }
    ensures { IsTrue result → spec.ArePlaced elf.now tables.now }
{
    tables
        .iter()
        .all(|table| has_place(elf, own, table.0.as_bytes()))
}

// Whether a section is the debug table that its name means; `.debug_macro`, which is always left out, isn't one here.
fn is_debug_table(section: &Section) -> bool
    ensures { result ≡ spec.is_debug_table section.now }
{
    names_debug(section.name) && section.is_meant_by(section.name) && section.name != DEBUG_MACRO
}

// Whether the section at `index`, if it is a debug table, keeps its contents or gets those of a given table.
fn keeps_table_at(elf: &Elf, own: OwnSections, index: usize) -> bool
    requires { IsOwnOf elf.now own }
    ensures { result ≡ spec.keeps_table_at elf.now index }
{
    match elf.sections.get(index) {
        Some(section) => !is_debug_table(section) || takes_table(elf, own, index, section),
        None => true,
    }
}

// Whether each debug table of the input keeps its contents or gets those of a given table.
fn keeps_tables(elf: &Elf, own: OwnSections) -> bool
    requires { IsOwnOf elf.now own }
    ensures { IsTrue result → spec.KeepsTables elf.now }
{
    for i in 0..elf.sections.len() {
        if !keeps_table_at(elf, own, i) {
            return false;
        }
    }
    true
}

/// Answers `Layout` if a table that is given has no place, or a debug table of the input for which none is given
/// wouldn't stay.
pub fn check_places(elf: &Elf, tables: &[Table]) -> Result<(), Unwritable>
    ensures placed { OnOk result (spec.ArePlaced elf.now tables.now) }
    ensures kept { OnOk result (spec.KeepsTables elf.now) }
{
    let own = OwnSections::new(elf)?;
    if are_placed(elf, own, tables) && keeps_tables(elf, own) {
        Ok(())
    } else {
        Err(Unwritable::Layout)
    }
}
