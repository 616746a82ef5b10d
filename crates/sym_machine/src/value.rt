// The values of registers and of bytes of memory.

/// A point in code to which a program can go.
#[derive(Clone, Copy)]
pub enum Pointer {
    /// The instruction at an address.
    Code(u64),
    /// The return address of the call at an address.
    Ret(u64),
}

/// How two pointers of one kind were compared.
#[derive(Clone, Copy)]
pub enum Comparing {
    /// By SUB.
    Sub,
    /// By XOR.
    Xor,
}

/// A value whose number depends on the addresses of the code. All fields are addresses of the input.
#[derive(Clone, Copy)]
pub enum CodeSymbol {
    /// A pointer.
    Points(Pointer),
    /// The result of the AUIPC at an address: its own address plus the upper part of the distance to its target.
    Hi(u64),
    /// The result of a LUI: the upper part of an address.
    Abs(u64),
    /// The distance `to` - `from` of two labels.
    Diff {
        to: u64,
        from: u64,
    },
    /// The result of comparing two pointers of one kind with different addresses. It isn't 0.
    Apart {
        by: Comparing,
        left: Pointer,
        right: Pointer,
    },
}

/// How a narrow number is extended to a register.
#[derive(Clone, Copy)]
pub enum Signedness {
    /// With its sign.
    Signed,
    /// With zeros.
    Unsigned,
}

/// The value of a register.
#[derive(Clone, Copy)]
pub enum Value {
    /// A number.
    Num(u64),
    /// A whole symbol.
    Sym(CodeSymbol),
    /// `bytes` bytes (1, 2 or 4) of a symbol from byte `first` on, as stored in `width` bytes (4 or 8), extended to a
    /// register.
    Piece {
        symbol: CodeSymbol,
        width: u8,
        first: u8,
        bytes: u8,
        extended: Signedness,
    },
}

/// A byte of memory.
#[derive(Clone, Copy)]
pub enum MemoryByte {
    /// A number below 256.
    Byte(u8),
    /// Byte `index` of a symbol that is stored in `width` bytes (4 or 8).
    SymbolByte {
        symbol: CodeSymbol,
        width: u8,
        index: u8,
    },
    /// A byte that may differ in a rewritten file. It can be overwritten, but not read.
    Hidden,
}
