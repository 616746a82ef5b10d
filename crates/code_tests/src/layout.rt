// Tests blocks, targets of jump tables, and edges, including edges through jump tables.
use crate::analysis::put_numbers;
use cfg_build::{blocks, edges};
use elf_image::read;
use func_find::functions;
use jump_tables::tables;
use rb_bytes::fault::Refusal;
use rv_code::Block;
use rv_reloc::{references, starts};
use std::alloc::Global;
use std::process::Abort;
use std::test::Fail;
use test_files::words::{Row, file_in_words, ranges, rows};

// The blocks of a file, the addresses to which jump tables lead its jumps, and its edges.
#[derive(Drop)]
struct Layout {
    blocks: Vec<Block>,
    targets: Vec<(u64, u64)>,
    edges: Vec<(usize, usize)>,
}

fn lay_out(alloc: Global, file: &[u8], whole: &[(u64, u64)]) -> Result<Layout, Refusal> {
    let elf = read(alloc, file)?;
    let starts = starts(alloc, &elf)?;
    let refs = references(alloc, &elf, &starts, whole)?;
    let funcs = functions(alloc, &elf, &starts, &refs, whole)?;
    let blocks = blocks(alloc, &funcs, &refs, elf.entry)?;
    let targets = tables(alloc, &funcs, &refs.cells)?;
    let edges = edges(alloc, &funcs, &blocks, &targets)?;
    Ok(Layout {
        blocks,
        targets,
        edges,
    })
}

// Appends the function, first and last instruction of each block; each jump with a target; and the blocks of each edge.
fn put_layout(text: &mut Vec<u8>, layout: &Layout) -> Result<(), Fail> {
    text.extend_from_slice(b"blocks")?;
    for block in &layout.blocks {
        put_numbers(
            text,
            &[block.func as u64, block.first as u64, block.last as u64],
        )?;
    }
    text.extend_from_slice(b" targets")?;
    for (jump, target) in &layout.targets {
        put_numbers(text, &[*jump, *target])?;
    }
    text.extend_from_slice(b" edges")?;
    for (from, to) in &layout.edges {
        put_numbers(text, &[*from as u64, *to as u64])?;
    }
    Ok(())
}

fn check_row(rt: &impl Abort, alloc: Global, row: &Row<'_>) -> Result<(), Fail> {
    let file = file_in_words(alloc, &row.words);
    assert!(rt; file.is_ok(), "{}", row.words);
    let layout = lay_out(alloc, &file?, &ranges(alloc, &row.words)?);
    assert!(rt; layout.is_ok(), "{}", row.words);
    let mut text = Vec::new(alloc);
    if let Ok(layout) = layout {
        put_layout(&mut text, &layout)?;
    }
    assert_eq!(rt; str::from_utf8(&text)?, row.wanted, "{}", row.words);
    Ok(())
}

const LAYOUTS: &str = "\
# A loop; and the same code, one of whose instructions has an exception table.
like countdown
- => blocks 0 0 0 0 1 1 0 2 3 0 4 5 targets edges 0 1 1 2 1 3 2 1
- whole 10084 10088 => blocks 0 0 5 targets edges

# A branch to the instruction after it: the target and where it falls are one block.
- code .text 10078 beq a0,zero,4; exit => blocks 0 0 0 0 1 2 targets edges 0 1

# A function falls into the next one: that is no edge.
like falling
- => blocks 0 0 0 1 0 1 targets edges

# A call doesn't end a block, a block begins where it goes, and it leads only to the instruction after it: 10078 calls
# 10084, and the system call at 10080 is taken to return.
- code .text 10078 jal ra,12; exit; addi a0,zero,1; jalr zero,0(ra) => blocks 0 0 2 0 3 4 targets edges 0 1

# A function of two instructions whose second is a call back to its first: it is the last one, so it falls nowhere. In
# the second file the function goes on with the exit, into which the call falls, in one block.
code .text 10078 addi a0,zero,1; jal ra,-4; exit
- function f 10078 8 => blocks 0 0 1 1 0 1 targets edges
- function f 10078 10 => blocks 0 0 3 targets edges

# A table of distances. Its own address, which the cells name too, is no instruction.
like switch-by-distances
- => blocks 0 0 4 0 5 5 0 6 7 targets 10088 1008c 10088 10090 edges 0 1 0 2 1 2

# A table of addresses. A jump that reads the return address is a return, and goes to neither.
- like switch-by-addresses => blocks 0 0 2 0 3 3 0 4 5 targets 10080 10084 10080 10088 edges 0 1 0 2 1 2
- like return-by-addresses => blocks 0 0 2 0 3 3 0 4 5 targets edges 1 2";

#[test]
fn blocks_and_edges(rt: HostRuntime) -> Result<(), Fail> {
    let alloc = rt.alloc();
    for row in &rows(alloc, LAYOUTS)? {
        check_row(&rt, alloc, row)?;
    }
    Ok(())
}
