// FDEs, each of a group of runs. LSB, "The .eh_frame section".
ghost use Rattle.std.specs.Prelude.{◌≡◌, ◌<◌, ◌≤◌, ◌+◌, ◌-◌, ◌*◌, ◌^◌, ◌++◌, ◌∷◌, ℕ, OnOk, All, length};
ghost use Rattle.std.specs.List.{IsDistinct};
ghost use Rattle.answer_runs.specs.AnswerRuns.{IsWithin};
ghost use Rattle.frame_rewrite.specs.SpelledFrames as spec;
ghost use Rattle.frame_rewrite.specs.SpelledFits.{RowFits, RunAscends, RangeFits, Writes, WritesAll, EndFits, Near};
ghost use Rattle.frame_rewrite.specs.SpelledFits.{IsAbove};
ghost use Rattle.frame_rewrite.specs.declared.form.Form.TheVariants.{Debug, Loaded};

use crate::answer::FrameAt;
use crate::cie_key::{CieKey, has_data, key_of};
use crate::form::Form;
use crate::index::distance;
use crate::kinds::index_of;
use crate::put_cie::put_entry;
use crate::spelling::{known_behind, put_byte, put_change, put_row_before, put_zeros};
use addr_map::AddrMap;
use answer_runs::Run;
use cfi_rows::Row;
use rb_bytes::fault::NoMemory;
use rb_bytes::little::{put_u32, put_u64};

/// How many bytes each CIE has that is written, with its length and its id.
pub(crate) const CIE_SIZE: usize = 32;

// How many bytes the address of an exception table has, which is an FDE's augmentation.
const TABLE_SIZE: u8 = 8;

// What addresses and sizes in `.eh_frame` stay below, so that distances between them fit four bytes with a sign.
const ADDRESS_LIMIT: u64 = 1 << 31;

// The last place at which an entry may begin, so that distances in the table fit four bytes.
const MAX_PLACE: usize = 0xffff_0000;

// Whether two runs are answered by the same entry, so that both can be in one FDE.
fn is_alike(first: &Run<FrameAt>, next: &Run<FrameAt>) -> bool
    ensures { result ≡ spec.is_alike first.now next.now }
{
    let (first, next) = (&first.answer, &next.answer);
    first.marked == next.marked
        && first.start == next.start
        && first.table == next.table
        && first.ra == next.ra
        && first.handler == next.handler
        && first.indirect == next.indirect
        && first.signal == next.signal
}

// How many of the runs after `first` touch it, or one another, and go on in its entry.
fn more_count(first: &Run<FrameAt>, others: &[Run<FrameAt>]) -> usize
    requires { All EndFits (first.now ∷ others.now) }
    ensures count { result ≡ spec.more_count first.now others.now }
    ensures within { result ≤ length others.now }
{
    let mut end = first.start + first.len;
    for (i, next) in others.iter().enumerate() {
        if next.start != end || !is_alike(first, next) {
            return i;
        }
        end = next.start + next.len;
    }
    others.len()
}

// The start of the range of a run's FDE: for a marked entry the new address of its start, which may be before the run.
fn start_of(map: &AddrMap, run: &Run<FrameAt>) -> u64
    ensures { result ≡ spec.start_of map.now run.now }
{
    if run.answer.marked {
        map.new_address(run.answer.start)
    } else {
        run.start
    }
}

// The end of the last run of a group, which is `first` and `more`.
fn group_end(first: &Run<FrameAt>, more: &[Run<FrameAt>]) -> u64
    requires { All EndFits (first.now ∷ more.now) }
    ensures { result ≡ spec.last_end (first.now.start + first.now.len) more.now }
{
    let mut end = first.start + first.len;
    for run in more {
        end = run.start + run.len;
    }
    end
}

// The row that a run answers.
fn row_of<'x>(run: &'x Run<FrameAt>) -> &'x Row
    ensures { result.now ≡ run.now.answer.row }
{
    &run.answer.row
}

fn run_start(run: &Run<FrameAt>) -> u64
    ensures { result ≡ run.now.start }
{
    run.start
}

fn is_signal(run: &Run<FrameAt>) -> bool
    ensures { result ≡ run.now.answer.signal }
{
    run.answer.signal
}

// Appends the rows of a group of runs, each from the start of its run on; the first one holds from the start of the
// range.
fn put_rows<'x>(
    out: &mut Vec<u8>,
    start: u64,
    first: &'x Run<FrameAt>,
    more: &'x [Run<FrameAt>],
) -> Result<(), NoMemory>
    requires ascend { All RunAscends (first.now ∷ more.now) }
    requires follow { IsAbove start more.now }
    ensures written { OnOk result (out.new.items ≡ out.old.items
        ++ spec.spelled_rows (spec.first_known first.now.answer.signal) start first.now.answer.row more.now) }
    ensures fits { OnOk result (All (λ r. RowFits r.answer.row) (first.now ∷ more.now)) }
    ensures near { OnOk result (Near start more.now) }
{
    let signal = is_signal(first);
    let mut known = None;
    let mut last = row_of(first);
    let mut at = start;
    for run in more {
        let next = run_start(run);
        put_row_before(out, signal, known, last, next - at)?;
        known = known_behind(signal, known, last);
        last = row_of(run);
        at = next;
    }
    put_change(out, signal, known, last)
}

// Appends the start and the size of the range of an FDE at offset `place`. `NoMemory` is answered, too, if they
// don't fit the form's fields.
fn put_range(
    out: &mut Vec<u8>,
    form: Form,
    place: usize,
    start: u64,
    size: u64,
) -> Result<(), NoMemory>
    requires { place + 8 < 2 ^ 32 }
    ensures written { OnOk result (out.new.items ≡ out.old.items ++ spec.spelled_range form place start size) }
    ensures fits { OnOk result (RangeFits form place start size) }
{
    match form {
        Form::Debug => put_words(out, start, size),
        Form::Loaded(at) => put_distance(out, at, place, start, size),
    }
}

fn put_words(out: &mut Vec<u8>, start: u64, size: u64) -> Result<(), NoMemory>
    ensures { (place : ℕ) → OnOk result (out.new.items ≡ out.old.items ++ spec.spelled_range Debug place start size) }
{
    put_u64(out, start)?;
    put_u64(out, size)
}

fn put_distance(
    out: &mut Vec<u8>,
    at: u64,
    place: usize,
    start: u64,
    size: u64,
) -> Result<(), NoMemory>
    requires { place + 8 < 2 ^ 32 }
    ensures written { OnOk result (out.new.items
        ≡ out.old.items ++ spec.spelled_range (Loaded at) place start size) }
    ensures fits { OnOk result (RangeFits (Loaded at) place start size) }
{
    if at >= ADDRESS_LIMIT || start >= ADDRESS_LIMIT || size >= ADDRESS_LIMIT {
        return Err(NoMemory);
    }
    let from = at + place as u64 + 8;
    if from >= ADDRESS_LIMIT {
        return Err(NoMemory);
    }
    put_u32(out, distance(start as u128, from))?;
    put_u32(out, size as u32)
}

// Appends what an entry has of its exception table, if it has an augmentation.
fn put_table(out: &mut Vec<u8>, has_data: bool, tabled: bool, table: u64) -> Result<(), NoMemory>
    ensures written { OnOk result (out.new.items ≡ out.old.items ++ spec.spelled_table has_data tabled table) }
    ensures table { table < 2 ^ 64 }
{
    if !has_data {
        return Ok(());
    }
    if !tabled {
        return put_byte(out, 0);
    }
    put_byte(out, TABLE_SIZE)?;
    put_u64(out, table)
}

// Appends the range of an FDE at offset `place`, its exception table and its rows.
fn put_fields(
    out: &mut Vec<u8>,
    form: Form,
    place: usize,
    map: &AddrMap,
    first: &Run<FrameAt>,
    more: &[Run<FrameAt>],
) -> Result<(), NoMemory>
    requires place { place + 8 < 2 ^ 32 }
    requires ends { All EndFits (first.now ∷ more.now) }
    requires ascend { All RunAscends (first.now ∷ more.now) }
    requires start { spec.start_of map.now first.now ≤ spec.last_end (first.now.start + first.now.len) more.now }
    requires follow { IsAbove (spec.start_of map.now first.now) more.now }
    ensures written { OnOk result (out.new.items
        ≡ out.old.items ++ spec.fde_fields form place map.now first.now more.now) }
    ensures range { OnOk result (RangeFits form place (spec.start_of map.now first.now)
        (spec.last_end (first.now.start + first.now.len) more.now - spec.start_of map.now first.now)) }
    ensures table { OnOk result (first.now.answer.table < 2 ^ 64) }
    ensures row { OnOk result (RowFits first.now.answer.row) }
    ensures rows { OnOk result (All (λ r. RowFits r.answer.row) more.now) }
    ensures near { OnOk result (Near (spec.start_of map.now first.now) more.now) }
{
    let start = start_of(map, first);
    let key = key_of(map, &first.answer);
    put_range(out, form, place, start, group_end(first, more) - start)?;
    put_table(
        out,
        has_data(form.is_debug(), &key),
        key.tabled,
        first.answer.table,
    )?;
    put_rows(out, start, first, more)
}

// Appends as many zero bytes (DW_CFA_nop) as make the length a multiple of 8, or of 4 in `.eh_frame`.
fn pad(out: &mut Vec<u8>, debug: bool) -> Result<(), NoMemory>
    ensures { OnOk result (out.new.items
        ≡ out.old.items ++ spec.zeros (spec.padding debug (length out.old.items))) }
{
    let count = if debug {
        (8 - out.len() % 8) % 8
    } else {
        (4 - out.len() % 4) % 4
    };
    put_zeros(out, count)
}

// The id of an FDE at offset `place`, whose CIE is the one of `index`: the offset of that in `.debug_frame`, and in
// `.eh_frame` the distance to it from the id, four bytes after the start of the FDE.
fn fde_id(debug: bool, place: usize, index: usize) -> usize
    requires within { CIE_SIZE * index ≤ place }
    requires fits { place + 4 < 2 ^ 32 }
    ensures { result ≡ spec.fde_id debug place index }
{
    if debug {
        CIE_SIZE * index
    } else {
        place + 4 - CIE_SIZE * index
    }
}

// Appends the FDE of a group of runs. `body` is room for its contents.
fn put_fde(
    out: &mut Vec<u8>,
    body: &mut Vec<u8>,
    form: Form,
    keys: &[CieKey],
    map: &AddrMap,
    first: &Run<FrameAt>,
    more: &[Run<FrameAt>],
) -> Result<(), NoMemory>
    requires distinct { IsDistinct spec.is_key keys.now }
    requires behind { CIE_SIZE * length keys.now ≤ length out.old.items }
    requires ends { All EndFits (first.now ∷ more.now) }
    requires ascend { All RunAscends (first.now ∷ more.now) }
    requires start { spec.start_of map.now first.now ≤ spec.last_end (first.now.start + first.now.len) more.now }
    requires follow { IsAbove (spec.start_of map.now first.now) more.now }
    ensures written { OnOk result (out.new.items ≡ out.old.items
        ++ spec.spelled_entry (spec.fde_entry form map.now keys.now (length out.old.items) first.now more.now)) }
    ensures writes { OnOk result (Writes form map.now keys.now (length out.old.items) first.now more.now) }
{
    let place = out.len();
    if place > MAX_PLACE {
        return Err(NoMemory);
    }
    let key = key_of(map, &first.answer);
    let index = index_of(keys, &key)?;
    body.clear();
    put_fields(body, form, place, map, first, more)?;
    pad(body, form.is_debug())?;
    let id = fde_id(form.is_debug(), place, index);
    put_entry(out, id, body)?;
    Ok(())
}

/// Appends the FDEs of runs, one for each group of them. `body` is room for one at a time.
pub(crate) fn put_fdes(
    out: &mut Vec<u8>,
    body: &mut Vec<u8>,
    form: Form,
    keys: &[CieKey],
    map: &AddrMap,
    runs: &[Run<FrameAt>],
) -> Result<(), NoMemory>
    requires distinct { IsDistinct spec.is_key keys.now }
    requires behind { CIE_SIZE * length keys.now ≤ length out.old.items }
    requires within { IsWithin 0 runs.now (2 ^ 64 - 1) }
    requires before { All (λ r. spec.start_of map.now r ≤ r.start) runs.now }
    requires ascend { All RunAscends runs.now }
    ensures written { OnOk result (out.new.items ≡ out.old.items
        ++ spec.spelled_entries
        (spec.fde_entries form map.now keys.now (length runs.now) (length out.old.items) runs.now)) }
    ensures writes { OnOk result (WritesAll form map.now keys.now (length runs.now) (length out.old.items) runs.now) }
{
    let mut rest = runs;
    // Each FDE has a run at least. `count` isn't read: it bounds the loop.
    for count in 0..runs.len() {
        match rest.split_first() {
            None => return Ok(()),
            Some((first, others)) => {
                let (more, behind) = others.split_at(more_count(first, others));
                put_fde(out, body, form, keys, map, first, more)?;
                rest = behind;
            }
        }
    }
    Ok(())
}
