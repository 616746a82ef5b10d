// Whether all tables and names that are written of a program stay below the weight limit, for any new layout of its
// code: a sample has so few functions, instructions and debugging entries that no map makes enough runs.
ghost use Rattle.std.specs.Prelude.{◌≡◌, ◌≤◌, ℕ, All, IfOk, IsTrue, List, length};
ghost use Rattle.rv_code.specs.declared.placed.Placed.{Placed};
ghost use Rattle.rv_code.specs.layout.FunctionLists.{AreLaidOut};
ghost use Rattle.elf_image.specs.declared.symbol.Symbol.{Symbol};
ghost use Rattle.answer_runs.specs.Weights.{weight_limit};
ghost use Rattle.dw_unit.specs.ListedEntries.{ListedEntry};
ghost use Rattle.dw_unit.specs.Tables.{sections_of};
ghost use Rattle.elf_plan.specs.NameWeight.{name_weight};
ghost use Rattle.line_rewrite.specs.Tables.{line_sections};
ghost use Rattle.sample_gen.specs.internal.Light.{AreLightFuncs, AreLightTables, AreLightUnits, HasOneRow, IsLightFunc};
ghost use Rattle.sample_gen.specs.internal.Light.{is_listless};

use answer_runs::WEIGHT_LIMIT;
use dw_unit::attribute::{DW_AT_frame_base, DW_AT_location};
use dw_unit::{Attr, Entry, abbrev_weight, units};
use elf_image::{Elf, Symbol};
use elf_plan::weights::name_weight;
use line_rewrite::Lines;
use rb_bytes::fault::{NoMemory, Refusal};
use rv_code::{Func, Placed};
use std::alloc::Global;
use table_core::ByAddress;
use table_core::form::{DW_FORM_loclistx, DW_FORM_rnglistx, DW_FORM_sec_offset};

// The greatest number of functions of a sample, one of them at the entry point, and the greatest number of instructions
// of each.
const MOST_FUNCTIONS: usize = 1001;

const MOST_INSTS: usize = 12;

// The greatest number of debugging entries: one for the unit, and one for each function except the code at the entry
// point.
const MOST_ENTRIES: usize = 1001;

// The limit on the weight of names without any cold part's, and the limit on the length of a symbol's name in bytes.
const MOST_NAMES: u64 = 1_000_000_000;

const LONGEST_NAME: usize = 1000;

// Whether no symbol has a long name.
fn are_short(symbols: &[Symbol<'_>]) -> bool
    ensures { IsTrue result → All (λ (s : Symbol). length s.name.now ≤ 1000) symbols.now }
{
    symbols.iter().all(|s| s.name.len() <= LONGEST_NAME)
}

/// Whether the names of a file, whose functions are `funcs`, don't weigh too much, for any choice of functions with a
/// cold part that gets a name.
pub fn has_light_names(alloc: Global, elf: &Elf<'_>, funcs: &[Func]) -> Result<bool, NoMemory>
    requires { AreLaidOut funcs.now }
    ensures { IfOk result (λ b. IsTrue b → (cold : List ℕ) → length cold ≤ length funcs.now →
        name_weight elf.now funcs.now cold ≤ weight_limit) }
{
    if funcs.len() > MOST_FUNCTIONS || !are_short(&elf.symbols) {
        return Ok(false);
    }
    let weight = name_weight(alloc, elf, funcs, &[])?;
    Ok(weight <= MOST_NAMES)
}

// Whether at most one row of line programs applies to an address.
fn has_one_row(alloc: Global, lines: &Lines, a: u64) -> Result<bool, NoMemory>
    ensures { IfOk result (λ b. IsTrue b → HasOneRow lines.now a) }
{
    match lines.at(alloc, a)? {
        Some(said) => Ok(said.rows.len() <= 1),
        None => Ok(true),
    }
}

fn have_one_row(alloc: Global, lines: &Lines, insts: &[Placed]) -> Result<bool, NoMemory>
    ensures { IfOk result (λ b. IsTrue b → All (λ (p : Placed). HasOneRow lines.now p.addr) insts.now) }
{
    for inst in insts {
        if !has_one_row(alloc, lines, inst.addr)? {
            return Ok(false);
        }
    }
    Ok(true)
}

fn is_light_func(alloc: Global, lines: &Lines, func: &Func) -> Result<bool, NoMemory>
    ensures { IfOk result (λ b. IsTrue b → IsLightFunc lines.now func.now) }
{
    if func.insts.len() > MOST_INSTS {
        return Ok(false);
    }
    have_one_row(alloc, lines, &func.insts)
}

// Whether there are few functions, each with few instructions, and at most one row of line programs applies to each
// instruction.
fn are_light_funcs(alloc: Global, lines: &Lines, funcs: &[Func]) -> Result<bool, NoMemory>
    ensures { IfOk result (λ b. IsTrue b → AreLightFuncs lines.now funcs.now) }
{
    if funcs.len() > MOST_FUNCTIONS {
        return Ok(false);
    }
    for func in funcs {
        if !is_light_func(alloc, lines, func)? {
            return Ok(false);
        }
    }
    Ok(true)
}

// Whether an attribute has no index of a list, and refers to no location list.
fn is_listless(attr: &Attr) -> bool
    ensures { result ≡ is_listless attr.now }
{
    let located = attr.name == DW_AT_location || attr.name == DW_AT_frame_base;
    attr.form != DW_FORM_rnglistx
        && attr.form != DW_FORM_loclistx
        && !(located && attr.form == DW_FORM_sec_offset)
}

fn are_listless(attrs: &[Attr]) -> bool
    ensures { IsTrue result → All (λ a. IsTrue (is_listless a)) attrs.now }
{
    attrs.iter().all(|attr| is_listless(attr))
}

fn has_no_lists(entries: &[Entry]) -> bool
    ensures { IsTrue result → All (λ (e : ListedEntry). All (λ a. IsTrue (is_listless a)) e.attrs) entries.now }
{
    entries.iter().all(|entry| are_listless(&entry.attrs))
}

// Whether a file has few debugging entries, all without lists, and few abbreviations. The error is a fault of units, or
// that memory ran out.
fn has_light_units(alloc: Global, elf: &Elf<'_>) -> Result<bool, Refusal>
    ensures { IfOk result (λ b. IsTrue b → AreLightUnits (sections_of elf.now)) }
{
    let entries = units(alloc, elf)?;
    let weight = abbrev_weight(alloc, elf)?;
    Ok(entries.len() <= MOST_ENTRIES && weight <= WEIGHT_LIMIT && has_no_lists(&entries))
}

/// Whether no table of a file, whose functions are `funcs`, weighs too much, for any map. The error is a fault of
/// units, or that memory ran out.
pub fn are_light_tables(
    alloc: Global,
    elf: &Elf<'_>,
    lines: &Lines,
    funcs: &[Func],
) -> Result<bool, Refusal>
    requires { lines.now ≡ line_sections elf.now }
    ensures { IfOk result (λ b. IsTrue b → AreLightTables elf.now funcs.now) }
{
    let light_units = has_light_units(alloc, elf)?;
    let light_funcs = are_light_funcs(alloc, lines, funcs)?;
    Ok(light_units && light_funcs)
}
