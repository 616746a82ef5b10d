// How rows are spelled as call frame instructions. DWARF 5, section 6.4.2.
ghost use Rattle.std.specs.Prelude.{◌≡◌, ◌<◌, ◌^◌, ◌++◌, ◌∷◌, [], Some, FitsSigned, IsTrue, OnOk, drop, option_map};
ghost use Rattle.std.specs.Int.{w64};
ghost use Rattle.rb_bytes.specs.Leb.{uleb};
ghost use Rattle.cfi_rows.specs.FrameRows.{rule_of};
ghost use Rattle.cfi_rows.specs.RuleEntries.{Ascend};
ghost use Rattle.frame_rewrite.specs.SpelledFrames as spec;
ghost use Rattle.frame_rewrite.specs.SpelledFits.{CfaFits, RuleFits, RulesFit, RowFits};

use crate::same::same_rule;
use cfi_rows::instruction::{
    DW_CFA_advance_loc, DW_CFA_advance_loc1, DW_CFA_advance_loc2, DW_CFA_advance_loc4,
    DW_CFA_def_cfa, DW_CFA_def_cfa_expression, DW_CFA_def_cfa_offset, DW_CFA_expression,
    DW_CFA_offset, DW_CFA_offset_extended, DW_CFA_register, DW_CFA_remember_state, DW_CFA_restore,
    DW_CFA_restore_state, DW_CFA_same_value, DW_CFA_undefined, DW_CFA_val_expression,
    DW_CFA_val_offset,
};
use cfi_rows::row::{Cfa, Expression, Row, Rule};
use rb_bytes::fault::NoMemory;
use rb_bytes::leb::put_uleb;
use rb_bytes::little::{put_u16, put_u32};

pub(crate) fn put_byte(out: &mut Vec<u8>, b: u8) -> Result<(), NoMemory>
    ensures { OnOk result (out.new.items ≡ out.old.items ++ b ∷ []) }
{
    out.push(b)?;
    Ok(())
}

pub(crate) fn put_bytes(out: &mut Vec<u8>, bytes: &[u8]) -> Result<(), NoMemory>
    ensures { OnOk result (out.new.items ≡ out.old.items ++ bytes.now) }
{
    out.extend_from_slice(bytes)?;
    Ok(())
}

// Appends an expression after its length.
fn put_block(out: &mut Vec<u8>, block: &Expression) -> Result<(), NoMemory>
    ensures { OnOk result (out.new.items ≡ out.old.items ++ spec.spelled_block block.now) }
{
    put_uleb(out, block.bytes.len() as u64)?;
    put_bytes(out, &block.bytes)
}

// Appends an opcode and a register.
fn put_register(out: &mut Vec<u8>, opcode: u8, register: u64) -> Result<(), NoMemory>
    ensures { OnOk result (out.new.items ≡ out.old.items ++ opcode ∷ uleb register) }
{
    put_byte(out, opcode)?;
    put_uleb(out, register)
}

// The operand of an offset that is counted down from the frame address.
fn down(offset: i64) -> u64
    ensures { result ≡ spec.down offset }
{
    offset.wrapping_neg().cast_unsigned()
}

// Appends an offset as an operand.
fn put_up(out: &mut Vec<u8>, offset: i64) -> Result<(), NoMemory>
    ensures { OnOk result (out.new.items ≡ out.old.items ++ uleb (spec.up offset)) }
{
    put_uleb(out, offset.cast_unsigned())
}

// Appends an offset that is counted down.
fn put_down(out: &mut Vec<u8>, offset: i64) -> Result<(), NoMemory>
    ensures { OnOk result (out.new.items ≡ out.old.items ++ uleb (spec.down offset)) }
{
    put_uleb(out, down(offset))
}

fn put_cfa(out: &mut Vec<u8>, cfa: &Cfa) -> Result<(), NoMemory>
    ensures spelled { OnOk result (out.new.items ≡ out.old.items ++ spec.spelled_cfa cfa.now) }
    ensures fits { OnOk result (CfaFits cfa.now) }
{
    match cfa {
        Cfa::Reg { reg, offset } => {
            put_register(out, DW_CFA_def_cfa as u8, *reg)?;
            put_up(out, *offset)
        }
        Cfa::Expr(block) => {
            put_byte(out, DW_CFA_def_cfa_expression as u8)?;
            put_block(out, block)
        }
    }
}

// Appends what leads from a frame address to the next.
fn put_cfa_from(out: &mut Vec<u8>, known: &Cfa, cfa: &Cfa) -> Result<(), NoMemory>
    ensures spelled { OnOk result (out.new.items ≡ out.old.items ++ spec.spelled_cfa_from (Some known.now) cfa.now) }
    ensures fits { OnOk result (CfaFits cfa.now) }
{
    match (known, cfa) {
        (
            Cfa::Reg {
                reg: from,
                offset: before,
            },
            Cfa::Reg { reg, offset },
        ) => {
            if *from != *reg {
                return put_cfa(out, cfa);
            }
            if *before == *offset {
                return Ok(());
            }
            put_byte(out, DW_CFA_def_cfa_offset as u8)?;
            put_up(out, *offset)
        }
        (Cfa::Expr(_), _) => put_cfa(out, cfa),
        (Cfa::Reg { reg: _, offset: _ }, Cfa::Expr(_)) => put_cfa(out, cfa),
    }
}

fn put_saved(out: &mut Vec<u8>, register: u64, operand: u64) -> Result<(), NoMemory>
    ensures { OnOk result (out.new.items ≡ out.old.items ++ spec.spelled_saved register operand) }
{
    if register < 64 {
        put_byte(out, (DW_CFA_offset * 64 + register) as u8)?;
    } else {
        put_register(out, DW_CFA_offset_extended as u8, register)?;
    }
    put_uleb(out, operand)
}

fn put_rule(out: &mut Vec<u8>, register: u64, rule: &Rule) -> Result<(), NoMemory>
    ensures spelled { OnOk result (out.new.items ≡ out.old.items ++ spec.spelled_rule register rule.now) }
    ensures fits { OnOk result (RuleFits rule.now) }
    ensures register { register < 2 ^ 64 }
{
    match rule {
        Rule::Undefined => put_register(out, DW_CFA_undefined as u8, register),
        Rule::Same => put_register(out, DW_CFA_same_value as u8, register),
        Rule::Offset(offset) => put_saved(out, register, down(*offset)),
        Rule::ValOffset(offset) => {
            put_register(out, DW_CFA_val_offset as u8, register)?;
            put_down(out, *offset)
        }
        Rule::Reg(other) => {
            put_register(out, DW_CFA_register as u8, register)?;
            put_uleb(out, *other)
        }
        Rule::Expr(block) => {
            put_register(out, DW_CFA_expression as u8, register)?;
            put_block(out, block)
        }
        Rule::ValExpr(block) => {
            put_register(out, DW_CFA_val_expression as u8, register)?;
            put_block(out, block)
        }
    }
}

// How many of the rules are of registers below one, among rules that ascend.
fn count_below(rules: &[(u64, Rule)], register: u64) -> usize
    requires { Ascend 0 rules.now }
    ensures rest { rule_of register (drop result rules.now) ≡ rule_of register rules.now }
    ensures above { Ascend register (drop result rules.now) }
{
    rules.partition_point(|rule| rule.0 < register)
}

// The rule of a register among rules that ascend, if it has one.
fn rule_in(rules: &[(u64, Rule)], register: u64) -> Option<&Rule>
    requires { Ascend 0 rules.now }
    ensures { option_map (λ r. r.now) result ≡ rule_of register rules.now }
{
    let (other, rule) = rules.get(count_below(rules, register))?;
    if *other == register { Some(rule) } else { None }
}

fn fits_number(n: u64)
    ensures { n < 2 ^ 64 }
{}

fn fits_signed(n: i64)
    ensures { FitsSigned w64 n }
{}

// Does nothing. Its clauses say to the prover, at its calls, that a rule fits its fields.
fn fits(register: u64, rule: &Rule)
    ensures fits { RuleFits rule.now }
    ensures register { register < 2 ^ 64 }
{
    match rule {
        Rule::Undefined => (),
        Rule::Same => (),
        Rule::Offset(offset) => fits_signed(*offset),
        Rule::ValOffset(offset) => fits_signed(*offset),
        Rule::Reg(other) => fits_number(*other),
        Rule::Expr(block) => {
            block.bytes.len();
        }
        Rule::ValExpr(block) => {
            block.bytes.len();
        }
    }
}

// Whether a register has another rule than before, or one at all.
fn is_other(old: &[(u64, Rule)], register: u64, rule: &Rule) -> bool
    requires { Ascend 0 old.now }
    ensures { result ≡ spec.other_by (rule_of register old.now) rule.now }
{
    match rule_in(old, register) {
        Some(before) => !same_rule(before, rule),
        None => true,
    }
}

// Whether all rules are of the integer registers.
pub(crate) fn are_low(rules: &[(u64, Rule)]) -> bool
    ensures { result ≡ spec.are_low rules.now }
{
    rules.iter().all(|rule| rule.0 < 32)
}

// Takes back, by one byte each, the rules that are gone.
fn put_restores(out: &mut Vec<u8>, old: &[(u64, Rule)], new: &[(u64, Rule)]) -> Result<(), NoMemory>
    requires low { IsTrue (spec.are_low old.now) }
    requires ascend { Ascend 0 new.now }
    ensures { OnOk result (out.new.items ≡ out.old.items ++ spec.spelled_restores (spec.gone_rules old.now new.now)) }
{
    for (register, _) in old {
        if rule_in(new, *register).is_none() {
            put_byte(out, (DW_CFA_restore * 64 + *register) as u8)?;
        }
    }
    Ok(())
}

// Appends a rule, if it is new or another.
fn put_other(
    out: &mut Vec<u8>,
    old: &[(u64, Rule)],
    register: u64,
    rule: &Rule,
) -> Result<(), NoMemory>
    requires { Ascend 0 old.now }
    ensures spelled { OnOk result (out.new.items ≡ out.old.items ++ spec.spelled_other old.now register rule.now) }
    ensures fits { RuleFits rule.now }
    ensures register { register < 2 ^ 64 }
{
    fits(register, rule);
    if is_other(old, register, rule) {
        return put_rule(out, register, rule);
    }
    Ok(())
}

// Appends the rules that are new or others.
fn put_rules(out: &mut Vec<u8>, old: &[(u64, Rule)], new: &[(u64, Rule)]) -> Result<(), NoMemory>
    requires old { Ascend 0 old.now }
    requires new { Ascend 0 new.now }
    ensures spelled { OnOk result (out.new.items ≡ out.old.items ++ spec.spelled_rules (spec.other_rules old.now new.now)) }
    ensures fits { OnOk result (RulesFit 0 new.now) }
{
    for (register, rule) in new {
        put_other(out, old, *register, rule)?;
    }
    Ok(())
}

// Appends what leads from one row to the next.
fn put_next(out: &mut Vec<u8>, known: &Row, row: &Row) -> Result<(), NoMemory>
    requires low { IsTrue (spec.are_low known.now.rules) }
    requires known { Ascend 0 known.now.rules }
    requires ascend { Ascend 0 row.now.rules }
    ensures spelled { OnOk result (out.new.items ≡ out.old.items ++ spec.spelled_change (spec.known_by known.now) row.now) }
    ensures fits { OnOk result (RowFits row.now) }
{
    put_cfa_from(out, &known.cfa, &row.cfa)?;
    put_restores(out, &known.rules, &row.rules)?;
    put_rules(out, &known.rules, &row.rules)
}

// Appends the change to a row from the state after its CIE.
fn put_first(out: &mut Vec<u8>, signal: bool, row: &Row) -> Result<(), NoMemory>
    requires { Ascend 0 row.now.rules }
    ensures spelled { OnOk result (out.new.items ≡ out.old.items ++ spec.spelled_change (spec.first_known signal) row.now) }
    ensures fits { OnOk result (RowFits row.now) }
{
    if signal {
        put_cfa(out, &row.cfa)?;
    } else {
        put_cfa_from(out, &Cfa::Reg { reg: 2, offset: 0 }, &row.cfa)?;
    }
    put_rules(out, &[], &row.rules)
}

/// Appends the change to a row from the known one, or from the state after the CIE if none is known.
pub(crate) fn put_change(
    out: &mut Vec<u8>,
    signal: bool,
    known: Option<&Row>,
    row: &Row,
) -> Result<(), NoMemory>
    requires low { IsTrue (spec.are_low (spec.known_of signal (option_map (λ r. r.now) known)).rules) }
    requires known { Ascend 0 (spec.known_of signal (option_map (λ r. r.now) known)).rules }
    requires ascend { Ascend 0 row.now.rules }
    ensures spelled { OnOk result (out.new.items ≡ out.old.items
        ++ spec.spelled_change (spec.known_of signal (option_map (λ r. r.now) known.entry)) row.now) }
    ensures fits { OnOk result (RowFits row.now) }
{
    match known {
        Some(before) => put_next(out, before, row),
        None => put_first(out, signal, row),
    }
}

/// Appends that the location moves on. `NoMemory` is answered, too, if the distance doesn't fit four bytes.
pub(crate) fn put_advance(out: &mut Vec<u8>, distance: u64) -> Result<(), NoMemory>
    ensures spelled { OnOk result (out.new.items ≡ out.old.items ++ spec.spelled_advance distance) }
    ensures near { OnOk result (distance < 2 ^ 32) }
{
    if distance < 64 {
        return put_byte(out, (DW_CFA_advance_loc * 64 + distance) as u8);
    }
    if distance < 256 {
        put_byte(out, DW_CFA_advance_loc1 as u8)?;
        return put_byte(out, distance as u8);
    }
    if distance < 65536 {
        put_byte(out, DW_CFA_advance_loc2 as u8)?;
        return put_u16(out, distance as u16);
    }
    if distance >= 1 << 32 {
        return Err(NoMemory);
    }
    put_byte(out, DW_CFA_advance_loc4 as u8)?;
    put_u32(out, distance as u32)
}

/// Appends a row after which the location moves on by a distance.
pub(crate) fn put_row_before(
    out: &mut Vec<u8>,
    signal: bool,
    known: Option<&Row>,
    row: &Row,
    distance: u64,
) -> Result<(), NoMemory>
    requires low { IsTrue (spec.are_low (spec.known_of signal (option_map (λ r. r.now) known)).rules) }
    requires known { Ascend 0 (spec.known_of signal (option_map (λ r. r.now) known)).rules }
    requires ascend { Ascend 0 row.now.rules }
    ensures spelled { OnOk result (out.new.items ≡ out.old.items
        ++ spec.spelled_row_before (spec.known_of signal (option_map (λ r. r.now) known.entry)) row.now distance) }
    ensures fits { OnOk result (RowFits row.now) }
    ensures near { OnOk result (distance < 2 ^ 32) }
{
    if are_low(&row.rules) {
        put_change(out, signal, known, row)?;
        return put_advance(out, distance);
    }
    put_byte(out, DW_CFA_remember_state as u8)?;
    put_change(out, signal, known, row)?;
    put_advance(out, distance)?;
    put_byte(out, DW_CFA_restore_state as u8)
}

/// The row that is known after one: the row known before, if this one has a rule of a register that isn't low.
pub(crate) fn known_behind<'x>(
    signal: bool,
    known: Option<&'x Row>,
    row: &'x Row,
) -> Option<&'x Row>
    requires low { IsTrue (spec.are_low (spec.known_of signal (option_map (λ r. r.now) known)).rules) }
    requires known { Ascend 0 (spec.known_of signal (option_map (λ r. r.now) known)).rules }
    requires ascend { Ascend 0 row.now.rules }
    ensures is { spec.known_of signal (option_map (λ r. r.now) result)
        ≡ spec.known_behind (spec.known_of signal (option_map (λ r. r.now) known.entry)) row.now }
    ensures low { IsTrue (spec.are_low (spec.known_of signal (option_map (λ r. r.now) result)).rules) }
    ensures ascend { Ascend 0 (spec.known_of signal (option_map (λ r. r.now) result)).rules }
{
    if are_low(&row.rules) {
        Some(row)
    } else {
        known
    }
}

/// Appends zero bytes, which are instructions that do nothing (DW_CFA_nop).
pub(crate) fn put_zeros(out: &mut Vec<u8>, count: usize) -> Result<(), NoMemory>
    ensures { OnOk result (out.new.items ≡ out.old.items ++ spec.zeros count) }
{
    for i in 0..count {
        put_byte(out, 0)?;
    }
    Ok(())
}
