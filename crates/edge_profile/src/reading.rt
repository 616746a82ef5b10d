// Reading a profile's text.
ghost use Rattle.std.specs.Prelude.{◌≡◌, ◌+◌, ◌<◌, ◌≤◌, ◌^◌, ℕ, List, IfOk, length, option_map};
ghost use Rattle.elf_image.specs.declared.symbol.Symbol.{Symbol};
ghost use Rattle.elf_image.specs.faults.Truncation.{IsReadable};
ghost use Rattle.elf_image.specs.file.ParsedFile.{IsElfOf};
ghost use Rattle.rv_code.specs.layout.FunctionLists.{AreLaidOut};
ghost use Rattle.edge_profile.specs.Grammar.{most_text_bytes};
ghost use Rattle.edge_profile.specs.PairCounts.{counted_by, counted_in, count_in, ignored_in};
ghost use Rattle.edge_profile.specs.FunctionNames.{AreNamesOf};
ghost use Rattle.edge_profile.specs.ReadLines.{SaysAll};
ghost use Rattle.edge_profile.specs.Profile.{profile_counts, ignored_of};

use crate::fields::branch_line;
use crate::function_names::{FunctionNames, address_at};
use crate::lines::Lines;
use crate::pairs::merged;
use crate::profile::Profile;
use elf_image::Elf;
use indexmap::IndexSet;
use rb_bytes::fault::NoMemory;
use rv_code::Func;
use std::alloc::Global;

/// The lines of a text, as they were read.
#[derive(Drop)]
pub struct ProfileLines {
    /// The two addresses between which control went, and how often, for each line that isn't ignored.
    pub counted: Vec<(u64, u64, u64)>,
    /// The number of ignored lines.
    pub ignored: u64,
}

/// Reads the text of a profile of the file `elf`, whose functions are `funcs`. A line that names no pair of
/// instructions is ignored and counted; it is no error.
pub fn read(alloc: Global, text: &[u8], elf: &Elf, funcs: &[Func]) -> Result<Profile, NoMemory>
    requires text { length text.now ≤ most_text_bytes }
    requires funcs { AreLaidOut funcs.now }
    requires elf { IsElfOf elf.now.file.now elf.now }
    requires readable { IsReadable elf.now.file.now }
    ensures counts { IfOk result (λ profile. (from to : ℕ) →
        profile_counts profile from to ≡ count_in text.now elf.now funcs.now from to) }
    ensures ignored { IfOk result (λ profile. ignored_of profile ≡ ignored_in text.now elf.now funcs.now) }
{
    let asked = asked_names(alloc, text)?;
    let names = FunctionNames::new(alloc, elf, asked.as_slice())?;
    let said = said_in(alloc, text, &names, funcs)?;
    let ProfileLines { counted, ignored } = said;
    let pairs = merged(alloc, counted)?;
    Ok(Profile { pairs, ignored })
}

// The names of a text's lines that aren't addresses, each once.
fn asked_names<'text>(alloc: Global, text: &'text [u8]) -> Result<IndexSet<&'text [u8]>, NoMemory> {
    let mut names = IndexSet::new(alloc);
    for line in (Lines { left: text }) {
        if let Some(line) = branch_line(line) {
            ask(&mut names, line.from.name)?;
            ask(&mut names, line.to.name)?;
        }
    }
    Ok(names)
}

// Adds a name that isn't an address.
fn ask<'text>(names: &mut IndexSet<&'text [u8]>, name: &'text [u8]) -> Result<(), NoMemory> {
    if !name.starts_with(b"@") {
        names.insert(name)?;
    }
    Ok(())
}

// Reads the lines of a text.
fn said_in(
    alloc: Global,
    text: &[u8],
    names: &FunctionNames,
    funcs: &[Func],
) -> Result<ProfileLines, NoMemory>
    requires text { length text.now ≤ most_text_bytes }
    requires funcs { AreLaidOut funcs.now }
    ensures all { IfOk result (λ said. (symbols : List Symbol) → AreNamesOf symbols names.now →
        SaysAll symbols funcs.now text.now said) }
    ensures few { IfOk result (λ said. length said.counted.items ≤ length text.now) }
{
    let mut counted = Vec::new(alloc);
    let mut ignored = 0;
    for line in (Lines { left: text }) {
        match counted_by(names, funcs, line) {
            Some(pair) => counted.push(pair)?,
            None => ignored += 1,
        }
    }
    Ok(ProfileLines { counted, ignored })
}

// The pair of a line and its count. `None` for a line that is ignored.
fn counted_by(names: &FunctionNames, funcs: &[Func], line: &[u8]) -> Option<(u64, u64, u64)>
    requires { AreLaidOut funcs.now }
    ensures { (symbols : List Symbol) → AreNamesOf symbols names.now → result ≡ counted_by symbols funcs.now line.now }
{
    let line = branch_line(line)?;
    let from = address_at(names, funcs, &line.from)?;
    let to = address_at(names, funcs, &line.to)?;
    Some((from, to, line.count))
}
