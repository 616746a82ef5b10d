// A file that was read, with its code.
use elf_image::Elf;
use rv_code::{Block, Func};
use rv_reloc::Refs;

/// A file that was read, with the functions of its code, the references to them, and their blocks.
#[derive(Drop)]
pub struct Program<'file> {
    pub elf: Elf<'file>,
    /// The functions, in order of their addresses.
    pub funcs: Vec<Func>,
    /// The roles of instructions and the code cells.
    pub refs: Refs,
    /// The basic blocks of all functions, in the order of the functions.
    pub blocks: Vec<Block>,
}
