// The functions that an address belongs to.
ghost use Rattle.std.specs.Prelude.{◌≡◌, IfOk, IfErr, OnOk, length, map};
ghost use Rattle.rb_bytes.specs.FirstFault.{IsFree, IsRefusalBy};
ghost use Rattle.table_set.specs.AllTables.{IsDebugReadAt};
ghost use Rattle.table_set.specs.TableFaults.{HasDebugFault};
ghost use Rattle.inline_frames.specs.Frames as spec;
ghost use Rattle.inline_frames.specs.Names.{NameSections};
ghost use Rattle.inline_frames.specs.Positions.{frame_at, link_frames};

use crate::follow::resolved;
use crate::link::Link;
use crate::naming::Naming;
use crate::position::{Position, call_position, or_unknown, row_position};
use crate::text::{Texts, text_named};
use crate::walk::{file_links, place_set};
use dw_unit::UnitReader;
use elf_image::Elf;
use file_bounds::PRINTED_BYTES;
use line_rewrite::Lines;
use rb_bytes::fault::{NoMemory, Refusal};
use std::alloc::Global;
use std::marker::Model;
use table_core::section::contents_of;
use table_set::{DebugAt, read_debug_at};

/// A function, and the current position in it.
#[derive(Drop)]
pub struct Frame {
    /// The function's name, or `?`.
    pub name: Vec<u8>,
    /// The path of the source file, or `?`.
    pub path: Vec<u8>,
    /// The line, or 0 if none is known.
    pub line: u64,
    /// The column, or 0 if none is known.
    pub column: u64,
}

impl Model for Frame {
    ghost use Rattle.inline_frames.specs.Frames.{Frame};

    ghost Value = { Frame };

    ghost view = { λ f. record { name = f.name.items; path = f.path.items; line = f.line; column = f.column } };
}

fn namings_of(alloc: Global, links: &[Link]) -> Result<Vec<Naming>, NoMemory>
    ensures { IfOk result (λ ns. ns.items ≡ map (λ l. l.naming) links.now) }
{
    let mut namings = Vec::new(alloc);
    for link in links {
        namings.push(link.naming)?;
    }
    Ok(namings)
}

fn frame_of(
    alloc: Global,
    texts: Texts<'_>,
    naming: Naming,
    position: Position,
) -> Result<Frame, NoMemory>
    ensures { IfOk result (λ f. (s : NameSections) → s.units.info ≡ texts.entry.info.now → s.str ≡ texts.entry.str.now →
        s.line_str ≡ texts.entry.line_str.now → f ≡ frame_at s position naming) }
{
    let text = text_named(alloc, texts, naming)?;
    let name = or_unknown(alloc, text)?;
    Ok(Frame {
        name,
        path: position.path,
        line: position.line,
        column: position.column,
    })
}

// The bytes of a section of names that a search for the end of a name may pass in vain: all, if the section doesn't end
// with a zero byte.
fn open_size(section: &[u8]) -> usize {
    match section.last() {
        Some(0) | None => 0,
        Some(_) => section.len(),
    }
}

// The frames of `links`, from the innermost out. The position in the first one is `first`, and in each other one it is
// the call of the function before. `namings` says how their names are found. Names and paths over the limit give
// `NoMemory`.
fn frames_from(
    alloc: Global,
    lines: &Lines,
    texts: Texts<'_>,
    first: Position,
    links: &[Link],
    namings: &[Naming],
) -> Result<Vec<Frame>, NoMemory>
    requires { length namings.now ≡ length links.now }
    ensures { IfOk result (λ fs. (s : NameSections) → s.units.info ≡ texts.entry.info.now →
        s.str ≡ texts.entry.str.now →
        s.line_str ≡ texts.entry.line_str.now → fs.items ≡ link_frames lines.now s first links.now namings.now) }
{
    let mut frames = Vec::new(alloc);
    let mut position = first;
    let mut bytes: usize = 0;
    let searched = open_size(texts.str).saturating_add(open_size(texts.line_str));
    for number in 0..links.len() {
        let next = call_position(alloc, lines, links[number])?;
        let frame = frame_of(alloc, texts, namings[number], position)?;
        bytes = bytes
            .saturating_add(frame.name.len())
            .saturating_add(frame.path.len())
            .saturating_add(searched);
        if bytes > PRINTED_BYTES {
            return Err(NoMemory);
        }
        frames.push(frame)?;
        position = next;
    }
    Ok(frames)
}

fn frames_in(alloc: Global, elf: &Elf<'_>, debug: &DebugAt, a: u64) -> Result<Vec<Frame>, NoMemory>
    requires read { IsDebugReadAt debug.now elf.now a }
    requires free { IsFree (HasDebugFault elf.now) }
    ensures { IfOk result (λ fs. fs.items ≡ spec.frames elf.now a) }
{
    let info = contents_of(elf, b".debug_info");
    let abbrevs = contents_of(elf, b".debug_abbrev");
    let addr = contents_of(elf, b".debug_addr");
    let str_offsets = contents_of(elf, b".debug_str_offsets");
    let reader = UnitReader::new(alloc, info, abbrevs, addr)?;
    let covering = place_set(alloc, &debug.lists.covers)?;
    let links = file_links(alloc, &reader, str_offsets, &covering)?;
    let own = namings_of(alloc, &links)?;
    let namings = resolved(alloc, &reader, str_offsets, own)?;
    let texts = Texts {
        info,
        str: contents_of(elf, b".debug_str"),
        line_str: contents_of(elf, b".debug_line_str"),
    };
    let first = row_position(alloc, &debug.lines, a)?;
    frames_from(alloc, &debug.lines, texts, first, &links, &namings)
}

/// The functions that the address `a` belongs to, from the innermost inlined one out to one that isn't inlined; or the
/// debug data's fault with the lowest number.
pub fn frames(alloc: Global, elf: &Elf<'_>, a: u64) -> Result<Vec<Frame>, Refusal>
    ensures frames { IfOk result (λ fs. fs.items ≡ spec.frames elf.now a) }
    ensures sound { OnOk result (IsFree (HasDebugFault elf.now)) }
    ensures fault { IfErr result (IsRefusalBy (HasDebugFault elf.now)) }
{
    let debug = read_debug_at(alloc, elf, a)?;
    let frames = frames_in(alloc, elf, &debug, a)?;
    Ok(frames)
}
