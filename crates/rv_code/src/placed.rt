// Instructions at their addresses, functions and blocks.

use crate::inst::Inst;

/// The width of an instruction's encoding. ISA manual, section 1.5.
#[derive(Clone, Copy)]
pub enum Width {
    /// Two bytes.
    Half,
    /// Four bytes.
    Full,
}

/// The part of a code address that an instruction's immediate has, named by the assembler's operators.
///
/// All fields are addresses: `target` is the address that both parts give together, and `hi` is the address of the
/// AUIPC with the upper part. psABI, section "Relocations".
#[derive(Clone, Copy, PartialEq, Eq)]
pub enum Role {
    /// No part of an address.
    Plain,
    /// The AUIPC of a call pair (`call`), with `%pcrel_hi` of the target.
    CallHi { target: u64 },
    /// The JALR of a call pair (`call`), with `%pcrel_lo` for the AUIPC at `hi`.
    CallLo { hi: u64, target: u64 },
    /// An AUIPC with the upper part of a distance: `%pcrel_hi`, `%got_pcrel_hi` and the like.
    Hi { target: u64 },
    /// The lower part of a distance from the AUIPC at `hi`: `%pcrel_lo`.
    Lo { hi: u64, target: u64 },
    /// A LUI with the upper part of an absolute address: `%hi`.
    AbsHi { target: u64 },
    /// The lower part of an absolute address: `%lo`.
    AbsLo { target: u64 },
}

/// An instruction at its address in the input.
#[derive(Clone, Copy)]
pub struct Placed {
    /// The address of the first byte.
    pub addr: u64,
    /// The length in bytes, 2 or 4.
    pub len: u8,
    pub inst: Inst,
    pub role: Role,
}

/// A function with the bytes from `start` to before `end`.
#[derive(Drop)]
pub struct Func {
    /// The address of the first byte.
    pub start: u64,
    /// The address after the last byte.
    pub end: u64,
    /// Whether the function moves as one piece, since an exception table names addresses in it.
    pub whole: bool,
    /// The instructions, by address.
    pub insts: Vec<Placed>,
}

/// The position of an instruction in a list of functions.
#[derive(Clone, Copy)]
pub struct InstPlace {
    /// The index of the function in the list of functions.
    pub func: usize,
    /// The index of the instruction in the function's `insts`.
    pub inst: usize,
}

/// A basic block: a sequence of one function's instructions that is only entered at its first instruction. A function
/// that moves as one piece is a single block.
#[derive(Clone, Copy)]
pub struct Block {
    /// The index of the function in the list of functions.
    pub func: usize,
    /// The index of the first instruction in the function's `insts`.
    pub first: usize,
    /// The index of the last instruction in the function's `insts`.
    pub last: usize,
}
