// Why a file is refused, and the error for running out of memory.
ghost use Rattle.std.specs.Prelude.{◌≡◌, ◌<◌, ◌≤◌};
ghost use Rattle.rb_bytes.specs.Fault.{number_of, name_of, fault_at};

use std::alloc::{AllocError, AllocFailed};
use thiserror::Error;

/// What is wrong with a file. Reports print a fault's place in hexadecimal. An offset is an offset in the file unless
/// the variant says otherwise.
#[derive(Clone, Copy, PartialEq, Eq, Debug)]
pub enum FaultKind {
    /// The identification or the machine is not the one of a 64-bit little-endian RISC-V ELF file. Place: 0. gABI, "ELF
    /// Header".
    NotElf,
    /// A structure is not completely in the file, or an entry size or an index in the header is wrong. Place: the
    /// offset of the structure, or of the header's field.
    Truncated,
    /// The header's flags require more than the compressed extension. Place: the offset of the flags, 30 in
    /// hexadecimal. psABI, "File Header".
    Flags,
    /// The file is not a static executable. Place: the offset of the file type, 10 in hexadecimal, or of the program
    /// header that asks for a dynamic linker (PT_INTERP) or describes dynamic linking (PT_DYNAMIC).
    NotStatic,
    /// The loaded segments break a rule: exactly one is executable (or two, in a file that was rewritten), no two share
    /// an address or a byte of the file, and all sections with code are in executable segments. Place: the offset of
    /// the program header concerned, of the table of program headers, or of the section header; if no segment is
    /// executable, the offset of the header's field `e_phoff`, 20 in hexadecimal.
    ExecSegments,
    /// The executable segment is writable. Place: the offset of its program header.
    WritableCode,
    /// A byte is loaded at 7fff0000 (hexadecimal) or above. Place: the first such address.
    HighAddress,
    /// A section is compressed. Place: its index.
    CompressedSection,
    /// A relocation has a type that is not supported. Place: the address that it applies to.
    RelocType,
    /// A relocation does not fit the instruction or field that it applies to. Place: the address of the instruction or
    /// field, or the address of the AUIPC concerned.
    RelocMismatch,
    /// Two low parts of one AUIPC differ. Place: the address of the AUIPC.
    LoMismatch,
    /// The field for a difference of code addresses has too few bits. Place: the address of the field.
    NarrowDiff,
    /// The file selects routines when it starts (ifuncs or a PLT). Place: the symbol's value, the section's address, or
    /// the address that the relocation applies to.
    IfuncOrPlt,
    /// The file was rewritten before. Place: the index of the section that says so.
    AlreadyMoved,
    /// The entry point is not the start of an instruction of a function. Place: the entry point.
    BadEntry,
    /// Bytes of code are not an instruction. Place: their address.
    BadInstruction,
    /// An AUIPC has no relocation that says what it refers to. Place: its address.
    BareAuipc,
    /// A branch, jump or call does not go to an instruction of a function. Place: the address of the branch, jump or
    /// call.
    BadTarget,
    /// Functions that lead into each other by branches and JALs, or a single function, take more than 1,000,000 bytes:
    /// a JAL reaches 1,048,576 (ISA manual, section 2.5). Place: their lowest address.
    UnitTooLong,
    /// A branch, or a jump of two bytes, leaves a function that is moved whole. Place: its address.
    KeptBranch,
    /// The program registers its unwind tables itself. Place: the address of the section with these tables.
    RegisteredFrames,
    /// An unwind table is malformed. Place: the offset of the entry in its section.
    FrameFault,
    /// A debug table has a version that is not supported. Place: the offset of the unit in its
    /// section.
    DwarfVersion,
    /// An attribute has a form that is not supported. Place: the offset of its declaration in `.debug_abbrev`.
    DwarfForm,
    /// DW_AT_high_pc has a form that is not supported. Place: the offset of its declaration in `.debug_abbrev`.
    HighPcForm,
    /// A debug table is malformed. Place: the offset of the unit in its section.
    DwarfFault,
    /// A line program is malformed. Place: the offset of the unit in its section.
    LineFault,
    /// The new code and tables need more room than there is. Place: the address at which the new area starts. Only this
    /// kind has a need and a room, in bytes.
    NoRoom,
    /// A size limit is exceeded. Place: the number of the limit, from module `limit`.
    TooLarge,
}

impl FaultKind {
    /// The number in the printed line. `BadInstruction` and `BareAuipc`, which are searched for together, share 16.
    pub fn number(self) -> u8
        ensures { result ≡ number_of self }
    {
        match self {
            FaultKind::NotElf => 1,
            FaultKind::Truncated => 2,
            FaultKind::Flags => 3,
            FaultKind::NotStatic => 4,
            FaultKind::ExecSegments => 5,
            FaultKind::WritableCode => 6,
            FaultKind::HighAddress => 7,
            FaultKind::CompressedSection => 8,
            FaultKind::RelocType => 9,
            FaultKind::RelocMismatch => 10,
            FaultKind::LoMismatch => 11,
            FaultKind::NarrowDiff => 12,
            FaultKind::IfuncOrPlt => 13,
            FaultKind::AlreadyMoved => 14,
            FaultKind::BadEntry => 15,
            FaultKind::BadInstruction | FaultKind::BareAuipc => 16,
            FaultKind::BadTarget => 17,
            FaultKind::UnitTooLong => 18,
            FaultKind::KeptBranch => 19,
            FaultKind::RegisteredFrames => 20,
            FaultKind::FrameFault => 21,
            FaultKind::DwarfVersion => 22,
            FaultKind::DwarfForm => 23,
            FaultKind::HighPcForm => 24,
            FaultKind::DwarfFault => 25,
            FaultKind::LineFault => 26,
            FaultKind::NoRoom => 27,
            FaultKind::TooLarge => 28,
        }
    }

    /// The name in the printed line: the name of the variant.
    pub fn name(self) -> &'static str
        ensures { result.now ≡ name_of self }
    {
        match self {
            FaultKind::NotElf => "NotElf",
            FaultKind::Truncated => "Truncated",
            FaultKind::Flags => "Flags",
            FaultKind::NotStatic => "NotStatic",
            FaultKind::ExecSegments => "ExecSegments",
            FaultKind::WritableCode => "WritableCode",
            FaultKind::HighAddress => "HighAddress",
            FaultKind::CompressedSection => "CompressedSection",
            FaultKind::RelocType => "RelocType",
            FaultKind::RelocMismatch => "RelocMismatch",
            FaultKind::LoMismatch => "LoMismatch",
            FaultKind::NarrowDiff => "NarrowDiff",
            FaultKind::IfuncOrPlt => "IfuncOrPlt",
            FaultKind::AlreadyMoved => "AlreadyMoved",
            FaultKind::BadEntry => "BadEntry",
            FaultKind::BadInstruction => "BadInstruction",
            FaultKind::BareAuipc => "BareAuipc",
            FaultKind::BadTarget => "BadTarget",
            FaultKind::UnitTooLong => "UnitTooLong",
            FaultKind::KeptBranch => "KeptBranch",
            FaultKind::RegisteredFrames => "RegisteredFrames",
            FaultKind::FrameFault => "FrameFault",
            FaultKind::DwarfVersion => "DwarfVersion",
            FaultKind::DwarfForm => "DwarfForm",
            FaultKind::HighPcForm => "HighPcForm",
            FaultKind::DwarfFault => "DwarfFault",
            FaultKind::LineFault => "LineFault",
            FaultKind::NoRoom => "NoRoom",
            FaultKind::TooLarge => "TooLarge",
        }
    }
}

/// Why a file is refused, and at which place. Each [`FaultKind`] says what its place is. `need` and `room` are in
/// bytes, and are 0 except for [`FaultKind::NoRoom`].
#[derive(Clone, Copy, PartialEq, Eq, Debug)]
pub struct Fault {
    pub kind: FaultKind,
    pub place: u64,
    pub need: u64,
    pub room: u64,
}

impl Fault {
    /// A fault with no need and no room.
    pub fn at(kind: FaultKind, place: u64) -> Fault
        ensures { result ≡ fault_at kind place }
    {
        Fault {
            kind,
            place,
            need: 0,
            room: 0,
        }
    }
}

/// Memory ran out.
#[derive(Clone, Copy, PartialEq, Eq, Debug, Error)]
#[error("out of memory")]
pub struct NoMemory;

/// A file is refused, or memory ran out.
#[derive(Clone, Copy, PartialEq, Eq, Debug, Error)]
pub enum Refusal {
    #[error("refused: {}", .0.kind.name())]
    Fault(Fault),
    #[error("out of memory")]
    Memory,
}

impl From<AllocError> for NoMemory {
    ghost from_gives = { λ _ e. e ≡ record {} };

    fn from(_error: AllocError) -> NoMemory {
        NoMemory
    }
}

impl<T: Drop> From<AllocFailed<T>> for NoMemory {
    ghost from_gives = { λ _ e. e ≡ record {} };

    fn from(_failed: AllocFailed<T>) -> NoMemory {
        NoMemory
    }
}

impl From<Fault> for Refusal {
    ghost use Rattle.rb_bytes.specs.declared.fault.Refusal.TheVariants as refusal;

    ghost from_gives = { λ fault e. e ≡ refusal.Fault fault };

    fn from(fault: Fault) -> Refusal {
        Refusal::Fault(fault)
    }
}

impl From<NoMemory> for Refusal {
    ghost use Rattle.rb_bytes.specs.declared.fault.Refusal.TheVariants as refusal;

    ghost from_gives = { λ _ e. e ≡ refusal.Memory };

    fn from(_error: NoMemory) -> Refusal {
        Refusal::Memory
    }
}

impl From<AllocError> for Refusal {
    ghost use Rattle.rb_bytes.specs.declared.fault.Refusal.TheVariants as refusal;

    ghost from_gives = { λ _ e. e ≡ refusal.Memory };

    fn from(_error: AllocError) -> Refusal {
        Refusal::Memory
    }
}

impl<T: Drop> From<AllocFailed<T>> for Refusal {
    ghost use Rattle.rb_bytes.specs.declared.fault.Refusal.TheVariants as refusal;

    ghost from_gives = { λ _ e. e ≡ refusal.Memory };

    fn from(_failed: AllocFailed<T>) -> Refusal {
        Refusal::Memory
    }
}
