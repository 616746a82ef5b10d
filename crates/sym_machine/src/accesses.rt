// Addresses of loads and stores, and the values that they move.
ghost use Rattle.std.specs.Prelude.{◌≡◌, Option, Some, None, option_map};
ghost use Rattle.sym_machine.specs.Values.{stored};
ghost use Rattle.sym_machine.specs.Rules.{is_unsigned, piece};
ghost use Rattle.sym_machine.specs.internal.Cases.{with_offset};
ghost use Rattle.sym_machine.specs.internal.Accesses.{stored_bytes, symbol_piece};

use crate::inst_index::InstIndex;
use crate::memory::SymbolBytes;
use crate::value::{CodeSymbol, Signedness, Value};
use rv_code::{Extension, Role};

/// What a store writes.
#[derive(Clone, Copy)]
pub enum Stored {
    /// The low bytes of this number.
    Number(u64),
    /// These bytes of a symbol.
    Symbol(SymbolBytes),
}

/// What a store of `count` bytes of `value` writes. Of a symbol, these are its first bytes: a store of four writes it
/// in a width of four bytes, any other in a width of eight. `None` for a piece of a symbol that has fewer than `count`
/// bytes.
pub fn what_to_store(count: u8, value: Value) -> Option<Stored>
    ensures { option_map (stored_bytes count) result ≡ stored count value }
{
    match value {
        Value::Num(number) => Some(Stored::Number(number)),
        Value::Sym(symbol) => Some(Stored::Symbol(SymbolBytes {
            symbol,
            width: if count == 4 { 4 } else { 8 },
            first: 0,
        })),
        Value::Piece {
            symbol,
            width,
            first,
            bytes,
            ..
        } => {
            if count <= bytes {
                Some(Stored::Symbol(SymbolBytes {
                    symbol,
                    width,
                    first,
                }))
            } else {
                None
            }
        }
    }
}

// Whether an LWU of four bytes gives the symbol back: the symbol's number is never negative.
fn is_unsigned(symbol: CodeSymbol) -> bool
    ensures { result ≡ is_unsigned symbol }
{
    match symbol {
        CodeSymbol::Points(_) => true,
        CodeSymbol::Abs(_) => true,
        CodeSymbol::Hi(_) => false,
        CodeSymbol::Diff { .. } => false,
        CodeSymbol::Apart { .. } => false,
    }
}

fn piece_of(from: SymbolBytes, bytes: u8, extended: Signedness) -> Value
    ensures { result ≡ Value.Piece from.symbol from.width from.first bytes extended }
{
    Value::Piece {
        symbol: from.symbol,
        width: from.width,
        first: from.first,
        bytes,
        extended,
    }
}

fn whole(from: SymbolBytes) -> Option<Value>
    ensures { result ≡ piece Extension.Whole64 from.symbol from.width from.first }
{
    if from.width == 8 && from.first == 0 {
        Some(Value::Sym(from.symbol))
    } else {
        None
    }
}

fn signed_word(from: SymbolBytes) -> Value
    ensures { Some result ≡ piece Extension.Signed32 from.symbol from.width from.first }
{
    if from.width == 4 && from.first == 0 {
        Value::Sym(from.symbol)
    } else {
        piece_of(from, 4, Signedness::Signed)
    }
}

fn unsigned_word(from: SymbolBytes) -> Value
    ensures { Some result ≡ piece Extension.Zero32 from.symbol from.width from.first }
{
    if from.width == 4 && from.first == 0 && is_unsigned(from.symbol) {
        Value::Sym(from.symbol)
    } else {
        piece_of(from, 4, Signedness::Unsigned)
    }
}

/// The result of a load of bytes of a symbol: the symbol if they are all of its bytes, or a piece of it. `None` for a
/// load of eight bytes that aren't exactly one symbol.
pub fn piece(extension: Extension, from: SymbolBytes) -> Option<Value>
    ensures { result ≡ symbol_piece extension from }
{
    match extension {
        Extension::Whole64 => whole(from),
        Extension::Signed32 => Some(signed_word(from)),
        Extension::Zero32 => Some(unsigned_word(from)),
        Extension::Signed16 => Some(piece_of(from, 2, Signedness::Signed)),
        Extension::Zero16 => Some(piece_of(from, 2, Signedness::Unsigned)),
        Extension::Signed8 => Some(piece_of(from, 1, Signedness::Signed)),
        Extension::Zero8 => Some(piece_of(from, 1, Signedness::Unsigned)),
    }
}

// The sum of a base and an offset. A symbol is returned unchanged, and no load or store accepts it as an address.
fn moved(base: Value, offset: u64) -> Value
    ensures { result ≡ with_offset base offset }
{
    match base {
        Value::Num(address) => Value::Num(address.wrapping_add(offset)),
        Value::Sym(_) => base,
        Value::Piece { .. } => base,
    }
}

impl<'a> InstIndex<'a> {
    ghost use Rattle.sym_machine.specs.Rules.{place};

    /// The value that is the address of a load or a store. `None` if `role` is a lower part and `base` isn't its upper
    /// part.
    pub fn address_of(&self, role: Role, base: Value, offset: u64) -> Option<Value>
        ensures { result ≡ place self.now.funcs.now role base offset }
    {
        match role {
            Role::Lo { .. } => self.joined(role, base),
            Role::CallLo { .. } => self.joined(role, base),
            Role::AbsLo { .. } => None,
            Role::Plain => Some(moved(base, offset)),
            Role::CallHi { .. } => Some(moved(base, offset)),
            Role::Hi { .. } => Some(moved(base, offset)),
            Role::AbsHi { .. } => Some(moved(base, offset)),
        }
    }
}
