// Instructions that are named, and whose spans are empty. An instruction without bytes has no address of its own, so it
// must not be named.
ghost use Rattle.std.specs.Prelude.{◌≡◌, IsTrue, List};
ghost use Rattle.std.specs.List.Sorted.{IsNonDecreasingBy};
ghost use Rattle.rv_code.specs.declared.placed.Func.{Func};
ghost use Rattle.rv_code.specs.layout.ProgramCode.{RoleNames, KindNames, program_code};
ghost use Rattle.elf_image.specs.faults.LowestPlace.{IsLowest};
ghost use Rattle.map_check.specs.internal.EmptySpans.{is_empty_at, IsHeldEmpty, NamedByRoles, NamedByCells};

use crate::sorted_spans::span_of;
use addr_map::Span;
use elf_image::lowest::{lower, place_if};
use rv_code::{CellKind, CodeCell, Role};

// Whether the first span of the instruction at `a` has no bytes.
fn is_empty_at(sorted: &[Span], a: u64) -> bool
    requires { IsNonDecreasingBy (λ s. s.input) sorted.now }
    ensures { result ≡ is_empty_at sorted.now a }
{
    match span_of(sorted, a) {
        Some(span) => span.len == 0,
        None => false,
    }
}

// `a`, if the span of the instruction there has no bytes.
fn empty_at(sorted: &[Span], a: u64) -> Option<u64>
    requires { IsNonDecreasingBy (λ s. s.input) sorted.now }
    ensures { IsLowest (λ b. (a ≡ b) × IsTrue (is_empty_at sorted.now b)) result }
{
    place_if(is_empty_at(sorted, a), a)
}

// The address that `role` names, if its span is empty.
fn lowest_of_role(sorted: &[Span], role: &Role) -> Option<u64>
    requires { IsNonDecreasingBy (λ s. s.input) sorted.now }
    ensures { IsLowest (λ a. RoleNames role.now a × IsTrue (is_empty_at sorted.now a)) result }
{
    match *role {
        Role::Plain => None,
        Role::CallHi { target }
        | Role::CallLo { target, .. }
        | Role::Hi { target }
        | Role::Lo { target, .. }
        | Role::AbsHi { target }
        | Role::AbsLo { target } => empty_at(sorted, target),
    }
}

// The lowest address that a cell of this kind names and whose span is empty.
fn lowest_of_cell(sorted: &[Span], kind: &CellKind) -> Option<u64>
    requires { IsNonDecreasingBy (λ s. s.input) sorted.now }
    ensures { IsLowest (λ a. KindNames kind.now a × IsTrue (is_empty_at sorted.now a)) result }
{
    match *kind {
        CellKind::Abs { to } => empty_at(sorted, to),
        CellKind::Diff { to, from } => {
            let first = empty_at(sorted, to);
            let second = empty_at(sorted, from);
            lower(first, second)
        }
    }
}

fn lowest_of_roles(sorted: &[Span], roles: &[(u64, Role)]) -> Option<u64>
    requires { IsNonDecreasingBy (λ s. s.input) sorted.now }
    ensures { IsLowest (NamedByRoles sorted.now roles.now) result }
{
    let mut lowest = None;
    for entry in roles {
        lowest = lower(lowest, lowest_of_role(sorted, &entry.1));
    }
    lowest
}

fn lowest_of_cells(sorted: &[Span], cells: &[CodeCell]) -> Option<u64>
    requires { IsNonDecreasingBy (λ s. s.input) sorted.now }
    ensures { IsLowest (NamedByCells sorted.now cells.now) result }
{
    let mut lowest = None;
    for cell in cells {
        lowest = lower(lowest, lowest_of_cell(sorted, &cell.kind));
    }
    lowest
}

/// The lowest address that a role, a cell or the entry point names and whose span is empty.
pub fn lowest_left_out(
    sorted: &[Span],
    roles: &[(u64, Role)],
    cells: &[CodeCell],
    entry: u64,
) -> Option<u64>
    requires { IsNonDecreasingBy (λ s. s.input) sorted.now }
    ensures { (funcs : List Func) →
        IsLowest (IsHeldEmpty (program_code funcs roles.now cells.now entry) sorted.now) result }
{
    let of_roles = lowest_of_roles(sorted, roles);
    let of_cells = lowest_of_cells(sorted, cells);
    let of_entry = empty_at(sorted, entry);
    let held = lower(of_roles, of_cells);
    lower(held, of_entry)
}
