// The instructions of functions, with their roles.
ghost use Rattle.std.specs.Prelude.{◌≡◌, ◌↔◌, ◌<◌, ◌≤◌, ℕ, List, [], ◌∷◌, All, AllPairs, Contains, IfOk, IfErr, IfSome};
ghost use Rattle.std.specs.Prelude.{IfNone, IsTrue, length, slice_index_or};
ghost use Rattle.rv_code.specs.declared.placed.Role.{Role};
ghost use Rattle.elf_code.specs.FileCode.{AreRoles};
ghost use Rattle.elf_code.specs.Parts.{IsCodePart};
ghost use Rattle.code_starts.specs.LoadedMemory.{AreBytesFrom};
ghost use Rattle.code_starts.specs.Parts.{ArePartsApart, Precedes};
ghost use Rattle.rv_code.specs.isa.AddressParts.{IsAuipc};
ghost use Rattle.func_find.specs.InstLists.{AreFunctionsOf, AreInstsOf, IsFaultBefore, IsFirstRefusal, IsPlacedAt};

use crate::valid::valid_among;
use code_starts::loaded::{bytes_after, bytes_from};
use code_starts::parts::{Part, part_at};
use elf_image::Elf;
use rb_bytes::fault::{Fault, FaultKind, NoMemory, Refusal};
use rv_code::{Func, Inst, Placed, Role};
use std::alloc::Global;

/// The functions of these parts, or the fault of the first instruction that isn't valid. `wholes` are the whole parts
/// of the file, and `roles` its roles.
pub fn functions_of(
    alloc: Global,
    elf: &Elf,
    parts: &[Part],
    wholes: &[Part],
    roles: &[(u64, Role)],
) -> Result<Vec<Func>, Refusal>
    requires parts { All (λ p. IsCodePart elf.now p.start p.end) parts.now }
    requires ordered { AllPairs Precedes parts.now }
    requires wholes { ArePartsApart wholes.now }
    requires roles { AreRoles elf.now roles.now }
    ensures made { IfOk result (λ funcs. AreFunctionsOf elf.now wholes.now parts.now funcs.items) }
    ensures fault { IfErr result (IsFirstRefusal elf.now parts.now) }
{
    let mut funcs = Vec::new(alloc);
    for part in parts {
        let insts = insts_of(alloc, elf, part, roles)?;
        funcs.push(Func {
            start: part.start,
            end: part.end,
            whole: is_whole(wholes, part),
            insts,
        })?;
    }
    Ok(funcs)
}

// Whether a part is one of the whole parts.
fn is_whole(wholes: &[Part], part: &Part) -> bool
    requires { ArePartsApart wholes.now }
    ensures { IsTrue result ↔ Contains wholes.now part.now }
{
    match part_at(wholes, part.start) {
        Some(whole) => is_same(&whole, part),
        None => false,
    }
}

fn is_same(a: &Part, b: &Part) -> bool
    ensures { IsTrue result ↔ ((a.now.start ≡ b.now.start) × (a.now.end ≡ b.now.end)) }
{
    a.start == b.start && a.end == b.end
}

// The number of a part's instructions for which memory is allocated at once. Most parts have fewer, and the rest is
// given back.
const LARGE: u64 = 256;

// The instructions of a part, or the fault of the first that isn't valid.
fn insts_of(
    alloc: Global,
    elf: &Elf,
    part: &Part,
    roles: &[(u64, Role)],
) -> Result<Vec<Placed>, Refusal>
    requires part { part.now.start < part.now.end }
    requires roles { AreRoles elf.now roles.now }
    ensures placed { IfOk result (λ insts. AreInstsOf elf.now part.now.start part.now.end insts.items) }
    ensures fault { IfErr result (IsFirstRefusal elf.now (part.now ∷ [])) }
{
    let most = ((part.end - part.start) / 2).min(LARGE) as usize;
    let mut insts = Vec::with_capacity(alloc, most)?;
    let mut near = 0;
    let mut address = part.start;
    let mut bytes = bytes_from(elf, address);
    while address < part.end {
        let placed = match placed_at(elf, bytes, part.end, address, roles, &mut near) {
            Ok(placed) => placed,
            Err(fault) => return Err(Refusal::Fault(fault)),
        };
        insts.push(placed)?;
        address += placed.len as u64;
        bytes = bytes_after(bytes, placed.len as usize);
    }
    insts.shrink_to_fit();
    Ok(insts)
}

// The instruction at an address with its role, or its fault if it isn't valid. `bytes` are of memory from that address
// on, and `near` is as in `role_at`.
fn placed_at(
    elf: &Elf,
    bytes: &[u8],
    end: u64,
    address: u64,
    roles: &[(u64, Role)],
    near: &mut usize,
) -> Result<Placed, Fault>
    requires inside { address < end }
    requires bytes { AreBytesFrom elf.now address bytes.now }
    requires roles { AreRoles elf.now roles.now }
    ensures placed { IfOk result (IsPlacedAt elf.now end address) }
    ensures fault { IfErr result (IsFaultBefore elf.now end address) }
{
    match valid_among(elf, bytes, end, address) {
        Some(found) => match role_at(roles, near, address) {
            Some(role) => Ok(Placed {
                addr: address,
                len: found.1,
                inst: found.0,
                role,
            }),
            None => {
                if is_full_auipc(&found.0, found.1) {
                    return Err(Fault::at(FaultKind::BareAuipc, address));
                }
                Ok(Placed {
                    addr: address,
                    len: found.1,
                    inst: found.0,
                    role: Role::Plain,
                })
            }
        },
        None => Err(Fault::at(FaultKind::BadInstruction, address)),
    }
}

fn is_full_auipc(inst: &Inst, bytes: u8) -> bool
    ensures { IsTrue result ↔ (IsAuipc inst.now × (bytes ≡ 4)) }
{
    is_auipc(inst) && bytes == 4
}

fn is_auipc(inst: &Inst) -> bool
    ensures { IsTrue result ↔ IsAuipc inst.now }
{
    matches!(*inst, Inst::Auipc { .. })
}

// The role of the instruction at an address, if it has one. The search starts at index `near`, and sets `near` to the
// number of roles below the address, so that ascending addresses walk along the roles.
fn role_at(roles: &[(u64, Role)], near: &mut usize, address: u64) -> Option<Role>
    requires { AllPairs (λ r s. r.0 < s.0) roles.now }
    ensures some { IfSome result (λ role. Contains roles.now (address, role)) }
    ensures none { IfNone result ((role : Role) → Contains roles.now (address, role) → ⊥) }
{
    let below = count_below(roles, *near, address);
    *near = below;
    if below == roles.len() {
        return None;
    }
    let role = roles[below];
    if role.0 != address {
        return None;
    }
    Some(role.1)
}

// The number of roles of instructions below `address`. If the first `near` are, the search starts after them.
fn count_below(roles: &[(u64, Role)], near: usize, address: u64) -> usize
    requires { AllPairs (λ r s. r.0 < s.0) roles.now }
    ensures bound { result ≤ length roles.now }
    ensures below { (k : ℕ) (d : ℕ × Role) → k < result → (slice_index_or roles.now k d).0 < address }
    ensures above { (k : ℕ) (d : ℕ × Role) → result ≤ k → k < length roles.now →
        address ≤ (slice_index_or roles.now k d).0 }
{
    for index in known_below(roles, near, address)..roles.len() {
        if roles[index].0 >= address {
            return index;
        }
    }
    roles.len()
}

// A lower bound for the number of roles below `address`: `near` if at least this number are, and otherwise the exact
// number.
fn known_below(roles: &[(u64, Role)], near: usize, address: u64) -> usize
    requires { AllPairs (λ r s. r.0 < s.0) roles.now }
    ensures bound { result ≤ length roles.now }
    ensures below { (k : ℕ) (d : ℕ × Role) → k < result → (slice_index_or roles.now k d).0 < address }
{
    if are_below(roles, near, address) {
        return near;
    }
    roles.partition_point(|r| r.0 < address)
}

// Whether `count` is above 0 and the first `count` roles are of instructions below an address.
fn are_below(roles: &[(u64, Role)], count: usize, address: u64) -> bool
    requires { AllPairs (λ r s. r.0 < s.0) roles.now }
    ensures bound { IsTrue result → count ≤ length roles.now }
    ensures below { IsTrue result → (k : ℕ) (d : ℕ × Role) → k < count → (slice_index_or roles.now k d).0 < address }
{
    if count == 0 || count > roles.len() {
        return false;
    }
    roles[count - 1].0 < address
}
