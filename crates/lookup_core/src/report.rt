// The report on an address.
ghost use Rattle.std.specs.Prelude.{◌≡◌, map, IfOk, IfErr, OnOk};
ghost use Rattle.rb_bytes.specs.FirstFault.{IsFree, IsRefusalBy};
ghost use Rattle.lookup_core.specs.Report.{report, report_of};
ghost use Rattle.range_loc_rewrite.specs.Locations.{place_said};
ghost use Rattle.elf_image.specs.declared.elf.Elf.{Elf};
ghost use Rattle.table_set.specs.AllTables.{AreReadAt};
ghost use Rattle.table_set.specs.TableFaults.{HasTableFault};

use crate::covers::put_covers;
use crate::lines::put_line;
use crate::places::put_places;
use crate::unwind::put_frame;
use crate::unwinding::unwind_at;
use elf_image::Elf;
use frame_rewrite::FrameAt;
use line_rewrite::LineAt;
use range_loc_rewrite::PlaceAt;
use rb_bytes::fault::{NoMemory, Refusal};
use std::alloc::Global;
use table_core::ByAddress;
use table_set::{TablesAt, read_all_at};

/// What the tables of a file say at an address.
#[derive(Drop)]
pub struct Report {
    text: Vec<u8>,
}

impl Report {
    /// The report: a line for each answer, or `none`.
    pub fn text(&self) -> &[u8]
        ensures { result.now ≡ self.now.text.items }
    {
        &self.text
    }

    /// The report, without a copy.
    pub fn into_text(self) -> Vec<u8>
        ensures { result.items ≡ self.text.items }
    {
        self.text
    }
}

// Joins the report from the answer of each table: lines first, then entries, expressions and how to unwind.
fn report_text(
    alloc: Global,
    line: &Option<LineAt>,
    covers: &[u64],
    places: &[PlaceAt],
    unwind: &Option<FrameAt>,
) -> Result<Vec<u8>, NoMemory>
    ensures { IfOk result (λ text. text.items ≡ report_of line.now covers.now (map place_said places.now) unwind.now) }
{
    let mut text = Vec::new(alloc);
    put_line(&mut text, line)?;
    put_covers(&mut text, covers)?;
    put_places(&mut text, places)?;
    put_frame(&mut text, unwind)?;
    if text.is_empty() {
        text.extend_from_slice(b"none\n")?;
    }
    Ok(text)
}

// The report on the address `a`, from the tables that were read for it.
fn text_of(alloc: Global, tables: &TablesAt, a: u64) -> Result<Vec<u8>, NoMemory>
    ensures { IfOk result (λ text. (elf : Elf) → AreReadAt tables.now elf a → text.items ≡ report elf a) }
{
    let debug = &tables.debug;
    let line = debug.lines.at(alloc, a)?;
    let unwind = unwind_at(alloc, &tables.eh, &tables.df, a)?;
    let lists = &debug.lists;
    report_text(alloc, &line, &lists.covers, &lists.places, &unwind)
}

/// The report on the address `a`, or the table fault of the file with the lowest number.
pub fn look(alloc: Global, elf: &Elf<'_>, a: u64) -> Result<Report, Refusal>
    ensures report { IfOk result (λ r. r.text.items ≡ report elf.now a) }
    ensures sound { OnOk result (IsFree (HasTableFault elf.now)) }
    ensures fault { IfErr result (IsRefusalBy (HasTableFault elf.now)) }
{
    let tables = read_all_at(alloc, elf, a)?;
    let text = text_of(alloc, &tables, a)?;
    Ok(Report { text })
}
