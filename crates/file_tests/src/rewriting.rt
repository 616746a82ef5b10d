// Rewriting files, and checking the written ones.
use crate::code::PROFILE;
use crate::extras::EXTRAS;
use crate::places::LAYOUTS;
use crate::shape::{Shape, Tables, build};
use bolt_core::rewrite;
use elf_image::named::names_debug;
use elf_image::relocation::SHT_RELA;
use elf_image::section::SHF_ALLOC;
use elf_image::{Elf, Section, read};
use std::alloc::Global;
use std::process::Abort;
use std::test::Fail;

// Whether a section's header has only these flags and no other information, as for a section that was dropped.
fn is_dropped(section: &Section<'_>, flags: u64) -> bool {
    let numbers = [
        section.addr,
        section.offset,
        section.size,
        section.align,
        section.entsize,
    ];
    let words = [section.kind, section.link, section.info];
    numbers == [0; 5] && words == [0; 3] && section.flags == flags
}

// The file as it is read, which must succeed.
fn accepted<'a>(alloc: Global, file: &'a [u8]) -> Result<Elf<'a>, Fail> {
    match read(alloc, file) {
        Ok(elf) => Ok(elf),
        Err(_) => Err(Fail::new("refused")),
    }
}

// The flags that remain for a section of relocations: SHF_ALLOC if it was loaded and has the name of a debug table.
fn flags_left(section: &Section<'_>) -> u64 {
    if names_debug(section.name) {
        section.flags & SHF_ALLOC
    } else {
        0
    }
}

// Whether the null section has no information, and sections of relocations have only `flags_left`.
fn has_dropped(input: &Elf<'_>, output: &Elf<'_>) -> bool {
    let has_null = output
        .sections
        .first()
        .is_some_and(|section| is_dropped(section, 0));
    let mut pairs = input.sections.iter().zip(&output.sections);
    has_null && pairs.all(|(old, new)| old.kind != SHT_RELA || is_dropped(new, flags_left(old)))
}

// Whether the cold part of `f` has a symbol.
fn has_cold_symbol(output: &Elf<'_>) -> bool {
    output
        .symbols
        .iter()
        .any(|symbol| symbol.name == b"f.cold".as_slice())
}

// Rewrites the file of a shape, and checks that the written file can be read and has the segments and sections that it
// must have.
fn check(rt: &impl Abort, alloc: Global, shape: &Shape) -> Result<(), Fail> {
    let file = build(alloc, shape)?;
    let result = rewrite(alloc, &file, PROFILE);
    assert!(rt; result.is_ok(), "at {shape:?}");
    let moved = match result {
        Ok(moved) => moved,
        Err(_) => return Err(Fail::new("refused")),
    };
    let input = accepted(alloc, &file)?;
    let output = accepted(alloc, &moved.file)?;
    let added = output.segments.len().saturating_sub(input.segments.len());
    assert_eq!(rt; added == 1, shape.places.is_tight, "at {shape:?}");
    assert_eq!(rt;
        output.sections.len(),
        input.sections.len().saturating_add(1),
        "at {shape:?}"
    );
    assert!(rt; has_dropped(&input, &output), "at {shape:?}");
    assert_eq!(rt;
        has_cold_symbol(&output),
        shape.tables.has_symbols(),
        "at {shape:?}"
    );
    Ok(())
}

/// Rewrites a file of each layout, with each extra and with `tables`.
pub fn check_all(rt: &impl Abort, alloc: Global, tables: Tables) -> Result<(), Fail> {
    for places in LAYOUTS {
        for extra in EXTRAS {
            let shape = Shape {
                places,
                tables,
                extra,
            };
            check(rt, alloc, &shape)?;
        }
    }
    Ok(())
}
