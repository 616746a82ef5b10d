//! The bounds of files: past each of them the tool answers out of memory, whatever memory there is.
//!
//! A few bytes of a file can ask for any amount of time or memory: tables share their bytes, and one entry refers to
//! another. No compiler or linker makes a file that meets one of these bounds. `docs/GUARANTEES.md` has them in a
//! table, in the same order. "A byte" is a byte of the input file.
#![tactic(auto)]

// The written file

/// Bytes of the written file: a GiB.
pub const OUTPUT_BYTES: u64 = 1 << 30;

/// Bytes of the written file a byte, with `OUTPUT_BESIDE` more. Huge alignments of sections may ask for more.
pub const OUTPUT_RATIO: u64 = 32;

/// Bytes of any written file, beside `OUTPUT_RATIO`.
pub const OUTPUT_BESIDE: u64 = 4 << 20;

/// Bytes of the tables of names and of copied contents together, a byte. If no section or name shares bytes with
/// others, this ratio is about 1.
pub const COPY_RATIO: u64 = 16;

// Code

/// Pairs of an indirect jump and an address that data names in its function. Each jump of a function has a pair with
/// each of its labels: a function with 4,000 jumps and 4,000 labels is within the bound.
pub const JUMP_PAIRS: usize = 1 << 24;

/// Edges of a program to repair the profile of, in addition to half the bytes of its file. Programs of compilers have
/// less than a tenth of this.
pub const EDGES: usize = 1 << 21;

/// One relocation is kept for this number of bytes. A table has 24 bytes for each relocation, which is kept at most
/// twice. Tables that overlap without sharing entries could have very many more.
pub const BYTES_A_RELOCATION: usize = 6;

// Lines and frames

/// Memory for the answers of lines at new code, a byte, with `ANSWER_BYTES` more. The same rows may be in force at any
/// number of addresses, and each answer has its own copy of them.
pub const LINE_ANSWER_RATIO: usize = 40;

/// Memory for the answers of frames at new code, a byte, with `ANSWER_BYTES` more. Few bytes can give rules to any
/// number of registers, or long expressions, in all rows of an entry that is for much code.
pub const FRAME_ANSWER_RATIO: usize = 32;

/// Memory for the answers of any table, in bytes, beside its ratio.
pub const ANSWER_BYTES: usize = 1 << 28;

/// Instructions of an entry of a table of frames. Each takes some 200 bytes while the entry is run.
pub const FRAME_INSTRUCTIONS: usize = 1 << 23;

/// Rows of lines in force at one address. Each byte of a program may append one.
pub const LINE_ROWS: usize = 1 << 22;

/// Bytes of the paths of the rows in force at one address. Each row has its own copy of its path, which may be as long
/// as the file.
pub const PATH_BYTES: usize = 1 << 27;

// Units and lists

/// Memory for the entries of a unit, a byte of the unit, with `ENTRY_BYTES` more. An entry may have one byte, and an
/// attribute none (DW_FORM_flag_present).
pub const ENTRY_RATIO: usize = 56;

/// Memory for the entries of any unit, in bytes, beside `ENTRY_RATIO`.
pub const ENTRY_BYTES: usize = 1 << 14;

/// Attributes of a declaration. Compilers list fewer than forty. An attribute may have no bytes in an entry, so an
/// entry of one byte could take as long to read as its declaration.
pub const ATTRIBUTES: usize = 1 << 8;

/// Bytes of tables of abbreviations that are read again, if tables overlap and none begins at a declaration of another.
pub const ABBREV_BYTES: u64 = 1 << 25;

/// One range or item of a list is kept for this number of bytes, with `KEPT_ITEMS` more. Files of compilers have 320
/// bytes for each, and 78 if they have no relocations.
pub const BYTES_AN_ITEM: usize = 32;

/// Ranges or items of lists kept of any file, beside one for each `BYTES_AN_ITEM`.
pub const KEPT_ITEMS: usize = 1 << 17;

/// Bytes of an expression that count as one more item.
pub const EXPRESSION_BYTES: usize = 64;

/// Entries of a list for each of its ranges or locations, with `LIST_PLACES` of these more. Each unit that refers to a
/// list reads it again.
pub const ENTRIES_A_PLACE: usize = 4;

/// Ranges or locations that any list counts as having, beside its own.
pub const LIST_PLACES: usize = 8;

/// Bytes of an entry of a list, without its expression.
pub const LIST_ENTRY_BYTES: usize = 64;

/// Bytes that are read of a list before an entry that can't be read.
pub const BAD_LIST_BYTES: usize = 1 << 9;

/// Weight of the lists and of the declarations that units need, a byte, with `UNIT_WEIGHT` more. A unit that uses one
/// index of a list also gets an offset for each index below it, and units can begin their declarations at any one of a
/// long table.
pub const UNIT_WEIGHT_RATIO: u64 = 64;

/// Weight of the lists and declarations of any file, beside `UNIT_WEIGHT_RATIO`.
pub const UNIT_WEIGHT: u64 = 1 << 28;

/// Cost of the questions which ranges or lists contain a stretch of new code, with `COST_OF_EACH` more for each group
/// of ranges or list. Each that may contain a stretch is asked.
pub const COST: usize = 1 << 23;

/// Cost that each group of ranges or list adds to `COST`.
pub const COST_OF_EACH: usize = 256;

// Answers

/// Bytes of the locations that a look-up prints, and of the names and paths of frames. Each has its own copy, and any
/// number of entries may refer to one list or to ends of one long text.
pub const PRINTED_BYTES: usize = 1 << 27;
