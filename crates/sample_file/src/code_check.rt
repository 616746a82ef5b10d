// Whether a file that was read has the code of a sample. Sample `n` has `n` functions, with the numbers `k` from 0 on;
// the code at the entry point comes after them, and counts as number `n`.
ghost use Rattle.std.specs.Prelude.{◌≡◌, ◌+◌, ◌≤◌, ◌<◌, ℕ, IsTrue, IfOk, map, filter};
ghost use Rattle.elf_image.specs.file.Cuts.{names_function};
ghost use Rattle.sample_file.specs.SampleCode.{function_shape, start_shape, sample_function, sample_functions};
ghost use Rattle.sample_file.specs.SampleCode.{sample_cells, sample_cell, sample_symbols, sample_symbol, shape};
ghost use Rattle.sample_file.specs.FoundCode.{func_shape, symbol_shape, function_symbols, HasSampleCode};

use crate::code::{function_insts, start_insts};
use crate::inst_check::same_insts;
use crate::places::{DATA, FUNCTION_SIZE, START_SIZE, function_at};
use crate::profile::{START_NAME, function_name};
use elf_image::{Elf, Symbol};
use rb_bytes::fault::NoMemory;
use rv_code::{CellKind, CodeCell, Func};
use std::alloc::Global;

fn has_range(f: &Func, start: u64, size: u64) -> bool
    requires low { start ≤ 0x1000000 }
    requires size { size ≤ 100 }
    ensures start { IsTrue result → f.now.start ≡ start }
    ensures end { IsTrue result → f.now.end ≡ start + size }
{
    f.start == start && f.end == start + size
}

fn is_function(f: &Func, n: u64, k: u64) -> bool
    requires n { n ≤ 1000 }
    requires k { k < n }
    ensures { IsTrue result → func_shape f.now ≡ function_shape n k }
{
    let insts = function_insts(k + 1 == n, function_at(k), function_at(k + 1));
    has_range(f, function_at(k), FUNCTION_SIZE) && same_insts(&f.insts, &insts)
}

fn is_start(f: &Func, n: u64) -> bool
    requires { n ≤ 1000 }
    ensures { IsTrue result → func_shape f.now ≡ start_shape n }
{
    let insts = start_insts(function_at(n));
    has_range(f, function_at(n), START_SIZE) && same_insts(&f.insts, &insts)
}

fn is_function_of(f: &Func, n: u64, k: u64) -> bool
    requires n { n ≤ 1000 }
    requires k { k ≤ n }
    ensures { IsTrue result → func_shape f.now ≡ sample_function n k }
{
    if k == n {
        is_start(f, n)
    } else {
        is_function(f, n, k)
    }
}

fn are_functions(funcs: &[Func], n: u64) -> bool
    requires { n ≤ 1000 }
    ensures { IsTrue result → map func_shape funcs.now ≡ sample_functions n }
{
    if funcs.len() as u64 != n + 1 {
        return false;
    }
    let mut k = 0;
    for f in funcs {
        if !is_function_of(f, n, k) {
            return false;
        }
        k += 1;
    }
    true
}

fn is_cell(c: &CodeCell, k: u64) -> bool
    requires { k ≤ 1000 }
    ensures { IsTrue result → c.now ≡ sample_cell k }
{
    let kind = CellKind::Abs { to: function_at(k) };
    c.addr == DATA + 8 * k && c.width == 8 && c.kind == kind
}

fn are_cells(cells: &[CodeCell], n: u64) -> bool
    requires { n ≤ 1000 }
    ensures { IsTrue result → cells.now ≡ sample_cells n }
{
    if cells.len() as u64 != n {
        return false;
    }
    let mut k = 0;
    for c in cells {
        if !is_cell(c, k) {
            return false;
        }
        k += 1;
    }
    true
}

fn is_symbol(s: &Symbol<'_>, name: &[u8], value: u64, size: u64) -> bool
    ensures { IsTrue result → symbol_shape s.now ≡ shape name.now value size }
{
    s.name == name && s.value == value && s.size == size
}

fn is_function_symbol(alloc: Global, s: &Symbol<'_>, n: u64, k: u64) -> Result<bool, NoMemory>
    requires n { n ≤ 1000 }
    requires k { k ≤ n }
    ensures { IfOk result (λ b. IsTrue b → symbol_shape s.now ≡ sample_symbol n k) }
{
    if k == n {
        return Ok(is_symbol(s, START_NAME, function_at(k), START_SIZE));
    }
    let name = function_name(alloc, k)?;
    Ok(is_symbol(s, &name, function_at(k), FUNCTION_SIZE))
}

fn are_symbols(alloc: Global, symbols: &[Symbol<'_>], n: u64) -> Result<bool, NoMemory>
    requires { n ≤ 1000 }
    ensures { IfOk result (λ b. IsTrue b → function_symbols symbols.now ≡ sample_symbols n) }
{
    let mut k = 0;
    for s in symbols {
        if !s.names_function() {
            continue;
        }
        if k > n {
            return Ok(false);
        }
        if !is_function_symbol(alloc, s, n, k)? {
            return Ok(false);
        }
        k += 1;
    }
    Ok(k == n + 1)
}

/// Whether a file has the code of sample `n`. `funcs` and `cells` are the file's functions and data fields with code
/// addresses.
pub fn has_sample_code(
    alloc: Global,
    elf: &Elf<'_>,
    funcs: &[Func],
    cells: &[CodeCell],
    n: u64,
) -> Result<bool, NoMemory>
    requires { n ≤ 1000 }
    ensures { IfOk result (λ b. IsTrue b → HasSampleCode n elf.now funcs.now cells.now) }
{
    let has_symbols = are_symbols(alloc, &elf.symbols, n)?;
    let has_header = elf.entry == function_at(n) && elf.flags == 0;
    Ok(has_symbols && has_header && are_functions(funcs, n) && are_cells(cells, n))
}
