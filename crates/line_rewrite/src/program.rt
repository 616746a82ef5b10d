// Programs walked for their sequences, of which some states are kept. A program is sound if it can be read to its end,
// addresses don't fall in a sequence, files are in the table, and each sequence ends.
ghost use Rattle.std.specs.Prelude.{◌≡◌, ◌<◌, ◌≤◌, ◌+◌, ◌∷◌, [], length, false, true, IfOk, IsTrue, MatchOption};
ghost use Rattle.line_rewrite.specs.Keeping.{kept_more, low_of};
ghost use Rattle.line_rewrite.specs.KeptSequences.{told_sequence, sequences_at, IsKept, AreSequences};
ghost use Rattle.line_rewrite.specs.LineMachine.{follows};
ghost use Rattle.line_rewrite.specs.SoundPrograms.{is_sound, is_sound_at};
ghost use Rattle.line_rewrite.specs.Troubles.{IfMalformed};
ghost use Rattle.line_rewrite.specs.Walks.{is_above};

use crate::effect::Effect;
use crate::kept::{Due, Kept, KeptSequence, MAX_BYTES, MAX_ROWS};
use crate::line_program::LineProgram;
use crate::machine::{after_row, effect_of, start, step};
use crate::reading::read_op;
use crate::trouble::Trouble;
use rb_bytes::cursor::Cursor;
use rb_bytes::fault::NoMemory;
use std::alloc::Global;

// Whether an address isn't below the last row's, if there is a last row.
fn follows(last: Option<u64>, address: u64) -> bool
    ensures { result ≡ follows last address }
{
    match last {
        Some(last) => last <= address,
        None => true,
    }
}

// Whether an address is above the last row's, if there is a last row.
fn is_above(last: Option<u64>, address: u64) -> bool
    ensures { result ≡ is_above last address }
{
    match last {
        Some(last) => last < address,
        None => true,
    }
}

// Keeps a state if one is due and its row is above all rows before it, and returns when the next one is due.
fn keep(kept: &mut Vec<Kept>, due: Due, last: Option<u64>, state: Kept) -> Result<Due, NoMemory>
    ensures { IfOk result (λ _. kept.new.items ≡ kept_more due last state kept.old.items) }
{
    let is_due = state.index >= due.row || state.place >= due.place;
    if is_due && is_above(last, state.address) {
        kept.push(state)?;
        return Ok(Due {
            row: state.index.saturating_add(MAX_ROWS),
            place: state.place.saturating_add(MAX_BYTES),
        });
    }
    Ok(due)
}

// The address of a sequence's first row, which the first state has; its end, if it has no row.
fn low_of(kept: &[Kept], end: u64) -> u64
    ensures { result ≡ low_of kept.now end }
{
    match kept.first() {
        Some(first) => first.address,
        None => end,
    }
}

// The sequence that begins at an offset of the program of a unit with `files` files, and the offset of the next one;
// none if it has no row and doesn't end.
fn sequence_at(
    alloc: Global,
    program: &LineProgram<'_>,
    files: u64,
    place: usize,
) -> Result<Option<(KeptSequence, usize)>, Trouble>
    requires { place ≤ length program.now.bytes.now }
    ensures sequences { IfOk result (λ o. MatchOption o (sequences_at program.now place ≡ [])
        (λ found. sequences_at program.now place
        ≡ told_sequence program.now.coding.now program.now.lengths.now program.now.bytes.now found.0
        ∷ sequences_at program.now found.1)) }
    ensures kept { IfOk result (λ o. MatchOption o (Unit {0})
        (λ found. IsKept program.now.coding.now program.now.lengths.now program.now.bytes.now found.0)) }
    ensures next { IfOk result (λ o. MatchOption o (Unit {0}) (λ found. (place < found.1)
        × (found.1 ≤ length program.now.bytes.now))) }
    ensures sound { IfOk result (λ o. MatchOption o (is_sound_at program.now files place ≡ true)
        (λ found. is_sound_at program.now files found.1 ≡ is_sound_at program.now files place)) }
    ensures unsound { IfMalformed result (is_sound_at program.now files place ≡ false) }
{
    let mut cursor = Cursor::new(program.bytes.split_at(place).1);
    let mut present = start(program.coding);
    let mut count: usize = 0;
    let mut last = None;
    let mut due = Due { row: 0, place: 0 };
    // Most sequences are short, and only keep the first state.
    let mut kept = Vec::with_capacity(alloc, 1)?;
    'ops: while cursor.left() > 0 {
        let here = program.bytes.len() - cursor.left();
        let Ok(op) = read_op(&mut cursor, program.coding.opcode_base, program.lengths) else {
            return Err(Trouble::Malformed);
        };
        let effect = effect_of(op);
        let registers = present;
        if !step(program.coding, op, &mut present) {
            return Err(Trouble::Malformed);
        }
        match effect {
            Effect::Sets => {}
            Effect::Appends => {
                if !follows(last, present.address) {
                    return Err(Trouble::Malformed);
                }
                if present.file >= files {
                    return Err(Trouble::Malformed);
                }
                let state = Kept {
                    place: here,
                    index: count,
                    registers,
                    address: present.address,
                };
                due = keep(&mut kept, due, last, state)?;
                count += 1;
                last = Some(present.address);
                present = after_row(present);
            }
            Effect::Ends => {
                if !follows(last, present.address) {
                    return Err(Trouble::Malformed);
                }
                let sequence = KeptSequence {
                    place,
                    low: low_of(&kept, present.address),
                    end: present.address,
                    rows: count,
                    kept,
                };
                return Ok(Some((sequence, program.bytes.len() - cursor.left())));
            }
        }
    }
    match last {
        Some(_) => Err(Trouble::Malformed),
        None => Ok(None),
    }
}

/// The sequences of the program of a unit with `files` files. It is malformed if it isn't sound.
pub fn sequences_of(
    alloc: Global,
    program: &LineProgram<'_>,
    files: u64,
) -> Result<Vec<KeptSequence>, Trouble>
    ensures sequences { IfOk result
        (λ ks. AreSequences program.now.coding.now program.now.lengths.now program.now.bytes.now ks.items) }
    ensures sound { IfOk result (λ _. IsTrue
        (is_sound program.now.coding.now files program.now.lengths.now program.now.bytes.now)) }
    ensures unsound { IfMalformed result
        (is_sound program.now.coding.now files program.now.lengths.now program.now.bytes.now ≡ false) }
{
    let mut list = Vec::new(alloc);
    let mut place = 0;
    'sequences: while place < program.bytes.len() {
        match sequence_at(alloc, program, files, place)? {
            Some((sequence, next)) => {
                list.push(sequence)?;
                place = next;
            }
            None => return Ok(list),
        }
    }
    Ok(list)
}
