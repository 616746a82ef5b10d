// The tables of abbreviations of the written `.debug_abbrev`.
ghost use Rattle.std.specs.Prelude.{◌≡◌, ◌++◌, ◌∷◌, [], ℕ, Some, OnOk, IfOk, flat_map, filter, length, nat_lt};
ghost use Rattle.std.specs.BTreeMap.{get};
ghost use Rattle.std.specs.List.Sorted.{IsStrictlyIncreasing};
ghost use Rattle.std.specs.Ordering.{nat_cmp};
ghost use Rattle.dw_unit.specs.Changes.{declaration_bytes, is_own, table_bytes};
ghost use Rattle.dw_unit.specs.CompUnits.{Sections};
ghost use Rattle.dw_unit.specs.MapKeys.{HasKeys};
ghost use Rattle.dw_unit.specs.OwnPlaces.{AreOwn};
ghost use Rattle.dw_unit.specs.TablesAt.{told_at};

use crate::new_abbrevs::put_declaration;
use crate::own_declarations::OwnDeclarations;
use crate::table_place::TableAt;
use crate::tables::Tables;
use rb_bytes::fault::NoMemory;
use std::alloc::Global;
use std::collections::BTreeMap;

/// The written `.debug_abbrev`, and the new offset of each table by its old offset.
#[derive(Drop)]
pub struct NewTables {
    pub bytes: Vec<u8>,
    pub(crate) offsets: BTreeMap<u64, u64>,
}

// Appends the declarations of a table with their changes, and the closing zero.
fn put_table(out: &mut Vec<u8>, own: &OwnDeclarations, table: TableAt<'_>) -> Result<(), NoMemory>
    ensures { OnOk result ((s : Sections) → AreOwn s own.now →
        out.new.items ≡ out.old.items ++ (flat_map (λ d. declaration_bytes (is_own s d) d) (told_at table.entry).list
        ++ 0 ∷ [])) }
{
    let list = &table.table.table.list;
    'declarations: for index in table.index..list.len() {
        let declaration = &list[index];
        put_declaration(out, own.has(declaration.place), declaration)?;
    }
    out.push(0)?;
    Ok(())
}

/// Writes the tables of the old offsets `offsets`, which ascend, one after another, each with a closing zero. A table
/// that begins within another gets its own copy.
pub fn new_tables(
    alloc: Global,
    tables: &Tables<'_>,
    offsets: &[u64],
    own: &OwnDeclarations,
) -> Result<NewTables, NoMemory>
    requires rising { IsStrictlyIncreasing offsets.now }
    requires read { HasKeys tables.now.starts offsets.now }
    ensures bytes { IfOk result (λ w. (s : Sections) → s.abbrevs ≡ tables.now.section.now → AreOwn s own.now →
        w.bytes.items ≡ flat_map (table_bytes s) offsets.now) }
    ensures offsets { IfOk result (λ w. (s : Sections) → s.abbrevs ≡ tables.now.section.now → AreOwn s own.now →
        (q n : ℕ) →
        get nat_cmp w.offsets q ≡ Some n → n ≡ length (flat_map (table_bytes s)
        (filter (λ o. nat_lt o q) offsets.now))) }
    ensures found { IfOk result (λ w. HasKeys w.offsets offsets.now) }
{
    let mut bytes = Vec::new(alloc);
    let mut starts = BTreeMap::new(alloc);
    for offset in offsets {
        let table = tables.find(*offset);
        starts.insert(*offset, bytes.len() as u64)?;
        put_table(&mut bytes, own, table.at)?;
    }
    Ok(NewTables {
        bytes,
        offsets: starts,
    })
}

impl NewTables {
    ghost use Rattle.std.specs.BTreeMap.{get};
    ghost use Rattle.std.specs.Ordering.{nat_cmp};
    ghost use Rattle.dw_unit.specs.MapKeys.{HasKey};

    /// The new offset of the table at an old offset.
    pub fn offset(&self, old: u64) -> u64
        requires { HasKey self.now.offsets old }
        ensures { get nat_cmp self.now.offsets old ≡ Some result }
    {
        match self.offsets.get(&old) {
            Some(offset) => *offset,
            None => unreachable!(),
        }
    }
}
