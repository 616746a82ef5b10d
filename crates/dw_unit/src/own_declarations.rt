// The declarations of units' own entries.
ghost use Rattle.std.specs.Prelude.{◌≡◌, ◌<◌, ◌^◌, ℕ, All, IfOk, is_some};
ghost use Rattle.std.specs.BTreeMap.{get};
ghost use Rattle.std.specs.Ordering.{nat_cmp};
ghost use Rattle.dw_unit.specs.CompUnits.{end_of};
ghost use Rattle.dw_unit.specs.MapKeys.{HasOffsets};
ghost use Rattle.dw_unit.specs.OwnPlaces.{AllRead, names_own};

use crate::tables::Tables;
use crate::unit_entries::own_entry;
use rb_bytes::fault::NoMemory;
use std::alloc::Global;
use std::collections::BTreeMap;
use table_core::DebugUnit;

/// The declarations of units' own entries, by their offsets in `.debug_abbrev`.
#[derive(Drop)]
pub struct OwnDeclarations {
    places: BTreeMap<u64, ()>,
}

/// The declarations of the own entries of units that can be read.
pub fn own_declarations(
    alloc: Global,
    tables: &Tables<'_>,
    units: &[DebugUnit<'_>],
) -> Result<OwnDeclarations, NoMemory>
    requires read { AllRead tables.now.section.now units.now }
    requires named { HasOffsets tables.now.starts units.now }
    requires within { All (λ w. end_of w < 2 ^ 64) units.now }
    ensures { IfOk result (λ o. (q : ℕ) → is_some (get nat_cmp o.places q) ≡ names_own tables.now.section.now units.now
        q) }
{
    let mut places = BTreeMap::new(alloc);
    for unit in units {
        if let Some(own) = own_entry(alloc, tables, unit)? {
            places.insert(own.declaration, ())?;
        }
    }
    Ok(OwnDeclarations { places })
}

impl OwnDeclarations {
    ghost use Rattle.std.specs.Prelude.{is_some};
    ghost use Rattle.std.specs.BTreeMap.{get};
    ghost use Rattle.std.specs.Ordering.{nat_cmp};

    /// Whether some unit's own entry has the declaration at offset `place`.
    pub fn has(&self, place: u64) -> bool
        ensures { result ≡ is_some (get nat_cmp self.now.places place) }
    {
        self.places.contains_key(&place)
    }
}
