// Registers with a special use. psABI, section "Integer Register Convention".

/// x0, which reads as 0.
pub const ZERO: u8 = 0;
/// x1, `ra`: the return address.
pub const RETURN_ADDRESS: u8 = 1;
/// x2, `sp`: the stack pointer.
pub const STACK_POINTER: u8 = 2;
