// Instructions that aren't jumps or branches. If an instruction holds a part of an address, its immediate is computed
// again, since addresses moved. ISA manual, volume I, section 2.4; psABI, "Relocations".
ghost use Rattle.std.specs.Prelude.{◌≡◌, ◌↔◌, ◌≤ℤ◌, ◌-ℤ◌, ◌*ℤ◌, ◌^◌, pos, IsTrue};
ghost use Rattle.std.specs.List.Sorted.{IsNonDecreasingBy};
ghost use Rattle.rv_code.specs.isa.HiLo.{hi20, lo12};
ghost use Rattle.addr_map.specs.Spans.{new};
ghost use Rattle.move_law.specs.Rewrite.{Rewrite};
ghost use Rattle.move_law.specs.Rewrite as rewrite;
ghost use Rattle.move_law.specs.RelocatedValues.{distance};
ghost use Rattle.move_law.specs.FaithfulRewrite.{HasInSpan, made_anew};
ghost use Rattle.code_starts.specs.LoadedMemory.{IsLow};
ghost use Rattle.map_check.specs.internal.InstRows.{IsChecked};

use crate::found::{found_in_span, new_of};
use addr_map::Span;
use elf_image::Elf;
use move_law::with_immediate;
use rv_code::{Inst, Placed, Role};
use rv_encode::same::is_same;

// The distance of `to` from `from`.
fn distance(to: u64, from: u64) -> i128
    ensures is { result ≡ distance to from }
    ensures low { (pos 0 -ℤ pos (2 ^ 64)) ≤ℤ result }
    ensures high { result ≤ℤ pos (2 ^ 64) }
{
    to as i128 - from as i128
}

// The upper part of `v`, for a LUI or an AUIPC. It is rounded, since the lower part is signed.
fn upper(v: i128) -> i64
    requires low { (pos 0 -ℤ pos (2 ^ 64)) ≤ℤ v }
    requires high { v ≤ℤ pos (2 ^ 64) }
    ensures { result ≡ hi20 v }
{
    ((v + 0x800) >> 12) as i64
}

// The number that an upper part adds.
fn shifted(upper: i64) -> i128
    ensures { result ≡ pos 4096 *ℤ upper }
{
    4096 * upper as i128
}

// The lower part of `v`, 12 bits with a sign: `v` minus its upper part.
fn lower_part(v: i128) -> i64
    requires low { (pos 0 -ℤ pos (2 ^ 64)) ≤ℤ v }
    requires high { v ≤ℤ pos (2 ^ 64) }
    ensures { result ≡ lo12 v }
{
    (v - shifted(upper(v))) as i64
}

// The instruction `p` with the part of the new address, or of the distance to it, that its role says.
fn made_anew(table: &[Span], p: &Placed) -> Inst
    requires { IsNonDecreasingBy (λ s. s.input) table.now }
    ensures { result ≡ made_anew (new table.now) p.now.addr p.now.role p.now.inst }
{
    match p.role {
        Role::Plain => p.inst,
        Role::CallHi { target } | Role::Hi { target } => with_immediate(
            &p.inst,
            upper(distance(new_of(table, target), new_of(table, p.addr))),
        ),
        Role::CallLo { hi, target } | Role::Lo { hi, target } => with_immediate(
            &p.inst,
            lower_part(distance(new_of(table, target), new_of(table, hi))),
        ),
        Role::AbsHi { target } => with_immediate(&p.inst, upper(new_of(table, target) as i128)),
        Role::AbsLo { target } => with_immediate(
            &p.inst,
            lower_part(new_of(table, target) as i128),
        ),
    }
}

/// Whether the instruction `p`, which isn't a JAL or a branch, is kept: its span has the instruction that `made_anew`
/// gives.
pub fn keeps_other(output: &Elf, table: &[Span], p: &Placed) -> bool
    requires low { IsLow output.now }
    requires sorted { IsNonDecreasingBy (λ s. s.input) table.now }
    ensures { (r : Rewrite) → IsChecked r output.now table.now →
        IsTrue result ↔ HasInSpan r p.now (made_anew (rewrite.out r) p.now.addr p.now.role p.now.inst) }
{
    match found_in_span(output, table, p) {
        Some(f) => is_same(&f.inst, &made_anew(table, p)),
        None => false,
    }
}
