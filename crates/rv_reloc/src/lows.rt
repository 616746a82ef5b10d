// The lower parts of distances, by their AUIPCs.
ghost use Rattle.std.specs.Prelude.{◌≡◌, ◌<◌, ◌≤◌, ℕ, IfOk, OnOk, IfSome, IsSome, Some, Contains, length};
ghost use Rattle.std.specs.Prelude.{slice_index_or};
ghost use Rattle.std.specs.List.Sorted.{IsNonDecreasingBy, IsPermutation};
ghost use Rattle.elf_code.specs.FileCode.{AreStarts};
ghost use Rattle.elf_code.specs.Roles.{immediate_i, immediate_s, lower_immediate};
ghost use Rattle.rv_reloc.specs.declared.lows.Low.{Low};
ghost use Rattle.rv_reloc.specs.Finds.{AreFound};
ghost use Rattle.code_starts.specs.Parts.{AreCodeParts};
ghost use Rattle.rv_reloc.specs.Lows.{IsLowOf, AreLows};
ghost use Rattle.rv_reloc.specs.Records.{seen, AreRecords};

use crate::labels::symbol_value;
use crate::records::Record;
use crate::types::is_pcrel_lo;
use code_starts::code::full_at;
use code_starts::parts::Part;
use code_starts::start_index::Starts;
use elf_image::Elf;
use elf_image::relocation::{R_RISCV_LO12_I, R_RISCV_PCREL_LO12_I};
use rb_bytes::fault::NoMemory;
use rb_bytes::lists::push_some;
use rv_code::Inst;
use rv_code::action::{Action, Operand};
use rv_code::op::Op;
use std::alloc::Global;

/// A lower part, the immediate `imm`, for the AUIPC at the address `hi`.
#[derive(Clone, Copy)]
pub struct Low {
    pub hi: u64,
    pub imm: i64,
}

fn immediate_i(action: &Action) -> Option<i64>
    ensures { result ≡ immediate_i action.now }
{
    match *action {
        Action::Compute {
            op: Op::Add,
            right: Operand::Immediate(imm),
            ..
        } => Some(imm),
        Action::JumpTo { imm, .. } => Some(imm),
        Action::Load { imm, .. } => Some(imm),
        _ => None,
    }
}

fn immediate_s(action: &Action) -> Option<i64>
    ensures { result ≡ immediate_s action.now }
{
    match *action {
        Action::Store { imm, .. } => Some(imm),
        _ => None,
    }
}

/// The immediate that can have a lower part for a relocation of this type: that of format I or format S, depending on
/// the type.
pub fn lower_immediate(kind: u32, inst: &Inst) -> Option<i64>
    ensures { result ≡ lower_immediate kind inst.now }
{
    let action = inst.action();
    if kind == R_RISCV_PCREL_LO12_I || kind == R_RISCV_LO12_I {
        immediate_i(&action)
    } else {
        immediate_s(&action)
    }
}

/// The lower part that a relocation gives, if it is for one and on an instruction that can have one. The symbol refers
/// to the AUIPC, not to the target. psABI, "PC-Relative Symbol Addresses".
pub fn low_of(elf: &Elf, starts: &Starts, parts: &[Part], relocation: &Record) -> Option<Low>
    requires starts { AreStarts elf.now starts.now }
    requires parts { AreCodeParts elf.now parts.now }
    ensures is { IfSome result (IsLowOf elf.now (seen relocation.now)) }
    ensures only { (l : Low) → IsLowOf elf.now (seen relocation.now) l → result ≡ Some l }
{
    if !is_pcrel_lo(relocation.kind) {
        return None;
    }
    let hi = symbol_value(elf, relocation);
    let inst = full_at(elf, starts, parts, relocation.place)?;
    let imm = lower_immediate(relocation.kind, &inst)?;
    Some(Low { hi, imm })
}

// The lower parts of all relocations.
fn read_lows(
    alloc: Global,
    elf: &Elf,
    starts: &Starts,
    parts: &[Part],
    records: &[Record],
) -> Result<Vec<Low>, NoMemory>
    requires starts { AreStarts elf.now starts.now }
    requires parts { AreCodeParts elf.now parts.now }
    ensures { IfOk result (λ lows. AreFound (λ r l. IsLowOf elf.now (seen r) l) records.now lows.items) }
{
    let mut lows = Vec::new(alloc);
    for record in records {
        push_some(&mut lows, low_of(elf, starts, parts, record))?;
    }
    Ok(lows)
}

// Sorts lower parts by AUIPC.
fn sort_lows(lows: &mut Vec<Low>) -> Result<(), NoMemory>
    ensures permutation { IsPermutation lows.old.items lows.new.items }
    ensures rising { OnOk result (IsNonDecreasingBy (λ l. l.hi) lows.new.items) }
{
    lows.sort_by_key(|l| l.hi)?;
    Ok(())
}

/// All lower parts, sorted by AUIPC.
pub fn lows(
    alloc: Global,
    elf: &Elf,
    starts: &Starts,
    parts: &[Part],
    records: &[Record],
) -> Result<Vec<Low>, NoMemory>
    requires starts { AreStarts elf.now starts.now }
    requires parts { AreCodeParts elf.now parts.now }
    requires records { AreRecords elf.now records.now }
    ensures { IfOk result (λ lows. AreLows elf.now lows.items) }
{
    let mut lows = read_lows(alloc, elf, starts, parts, records)?;
    sort_lows(&mut lows)?;
    Ok(lows)
}

// The number of lower parts for AUIPCs below an address.
fn count_below(lows: &[Low], hi: u64) -> usize
    requires { IsNonDecreasingBy (λ l. l.hi) lows.now }
    ensures bound { result ≤ length lows.now }
    ensures below { (k : ℕ) (d : Low) → k < result → (slice_index_or lows.now k d).hi < hi }
    ensures above { (k : ℕ) (d : Low) → result ≤ k → k < length lows.now → hi ≤ (slice_index_or lows.now k d).hi }
{
    lows.partition_point(|l| l.hi < hi)
}

/// The first lower part for the AUIPC at `hi`, if there is one.
pub fn first_low(lows: &[Low], hi: u64) -> Option<Low>
    requires { IsNonDecreasingBy (λ l. l.hi) lows.now }
    ensures is { IfSome result (λ l. Contains lows.now l × (l.hi ≡ hi)) }
    ensures each { (l : Low) → Contains lows.now l → l.hi ≡ hi → IsSome result }
{
    let index = count_below(lows, hi);
    if index == lows.len() {
        return None;
    }
    let low = lows[index];
    if low.hi == hi { Some(low) } else { None }
}
