// The part of a CIE that is kept while its FDEs are counted.
ghost use Rattle.std.specs.Prelude.{◌<◌, ◌^◌};

use crate::cie::Head;
use crate::outline::FrameKind;
use crate::registers::Registers;

/// A CIE, with what its instructions say of the frame address, the registers that they give a rule, and how many
/// bytes their expressions have.
#[derive(Drop)]
pub struct Cie {
    pub head: Head,
    pub frame: FrameKind,
    pub registers: Registers,
    pub bytes: u64,
    ghost few: { registers.count < 2 ^ 63 },
    ghost small: { bytes < 2 ^ 63 },
}
