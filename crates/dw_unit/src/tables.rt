// The tables of abbreviations that units refer to. Each declaration is read once.
ghost use Rattle.std.specs.Prelude.{◌≡◌, ◌<◌, IfOk, OnOk, length};
ghost use Rattle.answer_runs.specs.Choices.{least};
ghost use Rattle.dw_unit.specs.Declarations.{table_at, has_bad_form, has_bad_high};
ghost use Rattle.dw_unit.specs.Faults.{places_with};
ghost use Rattle.dw_unit.specs.MapKeys.{HasKey, HasKeys, KeepsKeys};
ghost use Rattle.dw_unit.specs.TablesAt.{told_at};
ghost use Rattle.dw_unit.specs.TableStarts.{AreStarts, AreMarked};
ghost use Rattle.dw_unit.specs.Told.{told_table};

use crate::declaration_tests::{has_bad_form, has_bad_high};
use crate::indexed_table::{IndexedTable, indexed};
use crate::lowest::lower_of;
use crate::start::Start;
use crate::table::{Table, read_table};
use crate::table_place::TableAt;
use file_bounds::ABBREV_BYTES;
use rb_bytes::fault::NoMemory;
use std::alloc::Global;
use std::collections::BTreeMap;

/// The tables of a section that begin at the offsets asked for.
#[derive(Drop)]
pub struct Tables<'s> {
    section: &'s [u8],
    read: Vec<IndexedTable>,
    starts: BTreeMap<u64, Start>,
    ghost right: { AreStarts section.now read.items starts },
}

/// A table, and the lowest offsets of its declarations with an unknown form and with a bad high address.
#[derive(Clone, Copy)]
pub struct FoundTable<'t> {
    pub at: TableAt<'t>,
    pub bad_form: Option<u64>,
    pub bad_high: Option<u64>,
}

// Marks those of the offsets at which declarations of a table begin: the table there is the rest of this one. Returns
// the lowest offsets of its declarations with an unknown form and with a bad high address. It goes from the last
// declaration to the first, so that these are known from each declaration on.
fn mark(
    starts: &mut BTreeMap<u64, Start>,
    number: usize,
    table: &Table,
    offsets: &[u64],
) -> Result<(Option<u64>, Option<u64>), NoMemory>
    ensures marks { OnOk result (AreMarked (told_table table.now) number starts.old starts.new) }
    ensures keeps { OnOk result (KeepsKeys starts.old starts.new) }
    ensures form { IfOk result (λ f. f.0 ≡ least (places_with has_bad_form (told_table table.now).list)) }
    ensures high { IfOk result (λ f. f.1 ≡ least (places_with has_bad_high (told_table table.now).list)) }
{
    let mut form = None;
    let mut high = None;
    'marks: for index in (0..table.list.len()).rev() {
        let declaration = &table.list[index];
        form = lower_of(has_bad_form(declaration), declaration.place, form);
        high = lower_of(has_bad_high(declaration), declaration.place, high);
        if offsets.binary_search(&declaration.place).is_ok() {
            let start = Start {
                number,
                index,
                form,
                high,
            };
            starts.insert(declaration.place, start)?;
        }
    }
    Ok((form, high))
}

// Reads the table at an offset, unless its start is known, and marks the tables that begin in it. Returns the number of
// bytes read.
fn read_at(
    alloc: Global,
    section: &[u8],
    offset: u64,
    offsets: &[u64],
    read: &mut Vec<IndexedTable>,
    starts: &mut BTreeMap<u64, Start>,
) -> Result<u64, NoMemory>
    requires { AreStarts section.now read.old.items starts.old }
    ensures right { OnOk result (AreStarts section.now read.new.items starts.new) }
    ensures keeps { OnOk result (KeepsKeys starts.old starts.new) }
    ensures there { OnOk result (HasKey starts.new offset) }
{
    if starts.contains_key(&offset) {
        return Ok(0);
    }
    let from = offset.min(section.len() as u64) as usize;
    let table = read_table(alloc, section, from)?;
    let end = match table.end {
        Some(end) => end,
        None => section.len() as u64,
    };
    let number = read.len();
    let (form, high) = mark(starts, number, &table, offsets)?;
    let start = Start {
        number,
        index: 0,
        form,
        high,
    };
    starts.insert(offset, start)?;
    let table = indexed(alloc, table)?;
    read.push(table)?;
    Ok(end.saturating_sub(offset))
}

/// Reads the tables at `offsets`, which ascend. Gives `NoMemory` also if overlapping tables make it read 2^25 bytes
/// more than the section has.
pub fn read_tables<'s>(
    alloc: Global,
    section: &'s [u8],
    offsets: &[u64],
) -> Result<Tables<'s>, NoMemory>
    ensures section { IfOk result (λ t. t.section.now ≡ section.now) }
    ensures found { IfOk result (λ t. HasKeys t.starts offsets.now) }
{
    let mut read = Vec::new(alloc);
    let mut starts = BTreeMap::new(alloc);
    let mut left = section.len() as u64 + ABBREV_BYTES;
    for offset in offsets {
        let size = read_at(alloc, section, *offset, offsets, &mut read, &mut starts)?;
        if left < size {
            return Err(NoMemory);
        }
        left -= size;
    }
    Ok(Tables {
        section,
        read,
        starts,
    })
}

impl<'s> Tables<'s> {
    ghost use Rattle.std.specs.Prelude.{slice_get};
    ghost use Rattle.std.specs.BTreeMap.{get};
    ghost use Rattle.std.specs.Ordering.{nat_cmp};

    fn indexed(&self, number: usize) -> &IndexedTable
        requires { number < length self.now.read.items }
        ensures { slice_get self.now.read.items number ≡ Some result.now }
    {
        &self.read[number]
    }

    fn start(&self, offset: u64) -> Start
        requires { HasKey self.now.starts offset }
        ensures { get nat_cmp self.now.starts offset ≡ Some result }
    {
        match self.starts.get(&offset) {
            Some(start) => *start,
            None => unreachable!(),
        }
    }

    /// The table at one of the offsets that were passed to `read_tables`.
    pub fn find(&self, offset: u64) -> FoundTable<'_>
        requires { HasKey self.now.starts offset }
        ensures table { table_at self.now.section.now offset ≡ told_at result.at }
        ensures form { result.bad_form ≡ least (places_with has_bad_form (table_at self.now.section.now offset).list) }
        ensures high { result.bad_high ≡ least (places_with has_bad_high (table_at self.now.section.now offset).list) }
    {
        let start = self.start(offset);
        let table = self.indexed(start.number);
        FoundTable {
            at: TableAt {
                table,
                index: start.index,
            },
            bad_form: start.form,
            bad_high: start.high,
        }
    }
}
