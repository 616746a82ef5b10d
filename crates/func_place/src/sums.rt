// Sums over the blocks of units, and the blocks of units.
ghost use Rattle.std.specs.Prelude.{◌≡◌, ℕ, ◌<◌, ◌≤◌, ◌^◌, All, IfOk, length, map, sum};
ghost use Rattle.rv_code.specs.declared.placed.Block.{Block};
ghost use Rattle.func_place.specs.Units.{unit_sum, unit_part, by_unit};
ghost use Rattle.func_place.specs.internal.Groups.{list_at};

use rb_bytes::fault::NoMemory;
use rv_code::Block;
use std::alloc::Global;

/// For each unit the sum of `numbers` over its blocks; `numbers` has one for each block. `units` has the unit of each
/// function. An index that isn't a unit has the sum 0.
pub fn sums_of(
    alloc: Global,
    units: &[usize],
    blocks: &[Block],
    numbers: &[u128],
) -> Result<Vec<u128>, NoMemory>
    requires inside { All (λ u. u < length units.now) units.now }
    requires blocks_in { All (λ b. b.func < length units.now) blocks.now }
    requires numbers_len { length numbers.now ≡ length blocks.now }
    requires room { sum numbers.now < 2 ^ 128 }
    ensures len { IfOk result (λ v. length v.items ≡ length units.now) }
    ensures within { IfOk result (λ v. sum v.items ≤ sum numbers.now) }
    ensures sums { IfOk result (λ v. (number : Block → ℕ) → numbers.now ≡ map number blocks.now → v.items ≡
        by_unit (unit_sum units.now number blocks.now) units.now) }
{
    let mut sums: Vec<u128> = vec![in alloc; 0; units.len()]?;
    for (place, block) in blocks.iter().enumerate() {
        sums[units[block.func]] += numbers[place];
    }
    Ok(sums)
}

/// For each unit the blocks of its functions, one function after another. `parts` has the blocks of each function, and
/// `units` the unit of each function.
pub fn parts_of(
    alloc: Global,
    units: &[usize],
    parts: &[Vec<usize>],
) -> Result<Vec<Vec<usize>>, NoMemory>
    requires inside { All (λ u. u < length units.now) units.now }
    requires parts_len { length parts.now ≡ length units.now }
    ensures len { IfOk result (λ v. length v.items ≡ length units.now) }
    ensures parts { IfOk result (λ v. (u : ℕ) → list_at (map (λ w. w.items) v.items) u ≡ unit_part (list_at (map
        (λ w. w.items) parts.now)) units.now u) }
{
    let mut own = Vec::new(alloc);
    for _unit in units {
        own.push(Vec::new(alloc))?;
    }
    for (function, unit) in units.iter().enumerate() {
        own[*unit].extend_from_slice(&parts[function])?;
    }
    Ok(own)
}
