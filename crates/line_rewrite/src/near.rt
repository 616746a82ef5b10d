// The rows in force at addresses near a look-up.
ghost use Rattle.std.specs.Prelude.{◌≡◌, ◌⊎◌, ◌<◌, ◌≤◌, ℕ, IfOk, IsFalse, IsTrue, OnOk};
ghost use Rattle.line_rewrite.specs.LineMachine as spec;
ghost use Rattle.line_rewrite.specs.NearRows.{AreNear, AreNearAt, Reaches};
ghost use Rattle.line_rewrite.specs.SequenceIndex.{numbered_at, IsIndexOf};
ghost use Rattle.line_rewrite.specs.Walks.{Ascends};

use crate::found::view_at;
use crate::registers::Registers;
use crate::sequence_index::SequenceIndex;
use crate::unit::Unit;
use crate::walk::next_above;
use rb_bytes::fault::NoMemory;
use std::alloc::Global;

/// Rows of one sequence, which decide which of its rows are in force from `low` up to `high`.
#[derive(Drop)]
pub struct NearRows {
    /// The index of its unit.
    pub unit: usize,
    pub low: u64,
    pub high: u64,
    pub rows: Vec<Registers>,
}

/// Before the first look-up: no rows, for no address.
pub fn no_rows(alloc: Global) -> NearRows
    ensures rows { Ascends 0 result.rows.items }
    ensures range { result.high < result.low }
{
    NearRows {
        unit: 0,
        low: 1,
        high: 0,
        rows: Vec::new(alloc),
    }
}

// The rows for an address and for those after it; `None` if no sequence has it.
fn rows_near(
    alloc: Global,
    units: &[Unit],
    index: &SequenceIndex,
    a: u64,
) -> Result<Option<NearRows>, NoMemory>
    requires { IsIndexOf units.now index.now }
    ensures { IfOk result (λ o. AreNearAt units.now a o) }
{
    let (found, last) = index.find(a);
    let Some(place) = found else {
        return Ok(None);
    };
    let Some(view) = view_at(units, place) else {
        return Ok(None);
    };
    let (rows, high) = view.rows_from(alloc, a)?;
    Ok(Some(NearRows {
        unit: place.unit,
        low: a,
        high: high.min(last),
        rows,
    }))
}

impl NearRows {
    /// Looks for rows that decide for an address, unless these do. `false` if no sequence has the address.
    pub fn reach(
        &mut self,
        alloc: Global,
        units: &[Unit],
        index: &SequenceIndex,
        a: u64,
    ) -> Result<bool, NoMemory>
        requires { IsIndexOf units.now index.now }
        ensures near { OnOk result ((self.new ≡ self.old) ⊎ AreNear units.now self.new) }
        ensures reaches { IfOk result (λ there. IsTrue there → Reaches self.new a) }
        ensures lacks { IfOk result (λ there. IsFalse there → numbered_at units.now a ≡ None) }
    {
        if self.low <= a && a <= self.high {
            return Ok(true);
        }
        match rows_near(alloc, units, index, a)? {
            Some(near) => {
                *self = near;
                Ok(true)
            }
            None => Ok(false),
        }
    }

    /// The last address up to which the same rows are certainly in force as at an address that these rows decide for.
    pub fn last_alike(&self, a: u64) -> u64
        requires { Ascends 0 self.now.rows.items }
        ensures alike { (x : ℕ) → a ≤ x → x ≤ result →
            spec.in_force x self.now.rows.items ≡ spec.in_force a self.now.rows.items }
        ensures high { result ≤ self.now.high }
    {
        match next_above(&self.rows, a) {
            Some(next) => (next - 1).min(self.high),
            None => self.high,
        }
    }
}
