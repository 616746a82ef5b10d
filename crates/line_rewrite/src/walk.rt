// Programs walked from a kept state.
ghost use Rattle.std.specs.Prelude.{◌≡◌, ◌<◌, ◌≤◌, ◌∷◌, [], length, drop, IfOk, IfSome, IsFalse, IsTrue};
ghost use Rattle.line_rewrite.specs.LineMachine.{after_row, in_force};
ghost use Rattle.line_rewrite.specs.NearRows.{IsFront, IsPast};
ghost use Rattle.line_rewrite.specs.Walks.{joined, next_above, Ascends};
ghost use Rattle.line_rewrite.specs.Keeping.{rows_behind, rows_left};

use crate::effect::Effect;
use crate::kept::{Kept, MAX_ROWS};
use crate::line_program::LineProgram;
use crate::machine::{after_row, effect_of, step};
use crate::reading::read_op;
use crate::registers::Registers;
use file_bounds::LINE_ROWS;
use rb_bytes::cursor::Cursor;
use rb_bytes::fault::NoMemory;
use std::alloc::Global;

// Adds a row that was reached to the rows in force. Rows of another address are in force no more.
fn join(found: &mut Vec<Registers>, row: Registers) -> Result<(), NoMemory>
    ensures { IfOk result (λ _. found.new.items ≡ joined found.old.items row) }
{
    if let Some(first) = found.first() {
        if first.address != row.address {
            found.clear();
        }
    }
    found.push(row)?;
    Ok(())
}

// Walks to the next row that a program appends before the sequence ends, in the bytes left. `false` if there is none.
fn next_row(program: &LineProgram<'_>, cursor: &mut Cursor<'_>, present: &mut Registers) -> bool
    ensures some { IsTrue result → rows_left program.now cursor.old.left present.old
        ≡ present.new ∷ rows_left program.now cursor.new.left (after_row present.new) }
    ensures none { IsFalse result → rows_left program.now cursor.old.left present.old ≡ [] }
{
    'ops: while cursor.left() > 0 {
        let Ok(op) = read_op(cursor, program.coding.opcode_base, program.lengths) else {
            return false;
        };
        if !step(program.coding, op, present) {
            return false;
        }
        match effect_of(op) {
            Effect::Ends => return false,
            Effect::Sets => {}
            Effect::Appends => return true,
        }
    }
    false
}

/// Rows from a state on which decide which of all those rows are in force from `a` up to another address, and that
/// address. `count` rows decide up to `last`, if the row after them is past it.
pub fn rows_from(
    alloc: Global,
    program: &LineProgram<'_>,
    state: &Kept,
    count: usize,
    last: u64,
    a: u64,
) -> Result<(Vec<Registers>, u64), NoMemory>
    requires within { state.now.place ≤ length program.now.bytes.now }
    requires least { a ≤ last }
    ensures front { IfOk result (λ r. IsPast last (drop count (rows_behind program.now state.now)) →
        IsFront r.1 r.0.items (rows_behind program.now state.now)) }
    ensures least { IfOk result (λ r. a ≤ r.1) }
{
    let (_, left) = program.bytes.split_at(state.place);
    let mut cursor = Cursor::new(left);
    let mut present = state.registers;
    let mut rows = Vec::new(alloc);
    for n in 0..count {
        if !next_row(program, &mut cursor, &mut present) {
            return Ok((rows, u64::MAX));
        }
        // Many rows may be at one address, all before the next state.
        if present.address > a && n >= MAX_ROWS {
            return Ok((rows, present.address - 1));
        }
        if n >= LINE_ROWS {
            return Err(NoMemory);
        }
        rows.push(present)?;
        present = after_row(present);
    }
    Ok((rows, last))
}

/// The rows that are in force at an address, of rows in order.
pub fn in_force(alloc: Global, rows: &[Registers], a: u64) -> Result<Vec<Registers>, NoMemory>
    requires { Ascends 0 rows.now }
    ensures { IfOk result (λ found. found.items ≡ in_force a rows.now) }
{
    let mut found = Vec::new(alloc);
    for row in rows {
        if row.address > a {
            return Ok(found);
        }
        join(&mut found, *row)?;
    }
    Ok(found)
}

/// The address of the first row above an address, if there is one.
pub fn next_above(rows: &[Registers], a: u64) -> Option<u64>
    ensures above { IfSome result (λ next. a < next) }
    ensures next { result ≡ next_above a rows.now }
{
    for row in rows {
        if row.address > a {
            return Some(row.address);
        }
    }
    None
}
