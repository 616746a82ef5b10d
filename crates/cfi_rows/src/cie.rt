// Common information entries. LSB, "The Common Information Entry Format"; DWARF 5, section 6.4.1.
ghost use Rattle.std.specs.Prelude.{◌≡◌, ◌≤◌, ◌<◌, ◌^◌, ℕ, List, length, IfOk, IfErr, OnOk, IsOkAnd, Ok, Err};
ghost use Rattle.rb_bytes.specs.Readers.{number_read};
ghost use Rattle.cfi_rows.specs.FrameInstructions.{whole};
ghost use Rattle.cfi_rows.specs.Entries as spec;
ghost use Rattle.cfi_rows.specs.Reads.{Fails, context_of};
ghost use Rattle.cfi_rows.specs.Heads.{head_of};
ghost use Rattle.cfi_rows.specs.KeptCies.{IsKeptCie};
ghost use Rattle.cfi_rows.specs.declared.instruction.Malformed.TheVariants.{Entry};

use crate::augmentation::{Augmentation, read_augmentation};
use crate::counts::{expression_bytes, new_registers};
use crate::decode::instructions;
use crate::factors::Factors;
use crate::failed::Failed;
use crate::kept_cie::Cie;
use crate::operand::{byte, half, signed, unsigned};
use crate::outline::frame_after;
use rb_bytes::cursor::Cursor;
use std::alloc::Global;
use std::collections::BTreeSet;

/// The fields of a CIE before its instructions: the factors of advances and of offsets, the register with the return
/// address, and the augmentation.
#[derive(Clone, Copy)]
pub struct Head {
    pub code: u64,
    pub data: i64,
    pub ra: u64,
    pub augmentation: Augmentation,
}

impl Head {
    /// What the instructions of the CIE or of one of its FDEs are read under; `end` is the address at which the entry
    /// ends.
    pub(crate) fn factors(&self, end: u128) -> Factors
        requires { end < 2 ^ 66 }
        ensures { context_of result ≡ spec.head_context end (head_of self.now) }
    {
        Factors {
            code: self.code,
            data: self.data,
            encoding: self.augmentation.encoding,
            end,
        }
    }
}

// Passes the sizes of addresses and of segment selectors, which a CIE has from version 4 on. They have to be 8 and 0:
// as a number of 16 bits, 8.
fn pass_sizes(version: u8, cursor: &mut Cursor<'_>) -> Result<u16, Failed>
    ensures ok { IfOk result (λ n. spec.sizes_at version cursor.old.left ≡ Ok (n, cursor.new.left)) }
    ensures err { IfErr result (λ e. Fails e (spec.sizes_at version cursor.old.left ≡ Err Entry)) }
    ensures on { OnOk result (length cursor.new.left ≤ length cursor.old.left) }
{
    match version {
        1 | 3 => Ok(0),
        4 => {
            let sizes = half(cursor)?;
            if sizes != 8 {
                return Err(Failed::Malformed);
            }
            Ok(sizes)
        }
        _ => Err(Failed::Malformed),
    }
}

// The register with the return address: a byte in version 1, and later a number in LEB128. One above 255 is refused,
// since CIEs are written in version 1.
fn return_register(version: u8, cursor: &mut Cursor<'_>) -> Result<u64, Failed>
    ensures ok { IfOk result (λ r. spec.return_register_at version cursor.old.left ≡ Ok (r, cursor.new.left)) }
    ensures err { IfErr result (λ e. Fails e (spec.return_register_at version cursor.old.left ≡ Err Entry)) }
    ensures on { OnOk result (length cursor.new.left ≤ length cursor.old.left) }
{
    if version == 1 {
        return Ok(byte(cursor)? as u64);
    }
    let register = unsigned(cursor)?;
    if register > 255 {
        return Err(Failed::Malformed);
    }
    Ok(register)
}

/// The fields of a CIE before its instructions; `end` is the address at which the bytes left end.
pub(crate) fn read_head(end: u128, cursor: &mut Cursor<'_>) -> Result<Head, Failed>
    requires { end < 2 ^ 66 }
    ensures ok { IfOk result (λ h. spec.head_at end cursor.old.left ≡ Ok (head_of h, cursor.new.left)) }
    ensures err { IfErr result (λ e. Fails e (spec.head_at end cursor.old.left ≡ Err Entry)) }
    ensures on { OnOk result (length cursor.new.left ≤ length cursor.old.left) }
{
    let version = byte(cursor)?;
    let text = cursor.text()?;
    pass_sizes(version, cursor)?;
    let code = unsigned(cursor)?;
    let data = signed(cursor)?;
    let ra = return_register(version, cursor)?;
    let augmentation = read_augmentation(text, end, cursor)?;
    Ok(Head {
        code,
        data,
        ra,
        augmentation,
    })
}

/// A CIE by its body, the bytes after its id; `end` is the address at which they end.
pub(crate) fn read_cie(alloc: Global, end: u128, body: &[u8]) -> Result<Cie, Failed>
    requires { end < 2 ^ 66 }
    ensures ok { IfOk result (λ k. IsOkAnd (spec.cie_at end body.now) (IsKeptCie k)) }
    ensures err { IfErr result (λ e. Fails e (spec.cie_at end body.now ≡ Err Entry)) }
{
    let mut cursor = Cursor::new(body);
    let head = read_head(end, &mut cursor)?;
    let list = instructions(alloc, &mut cursor, &head.factors(end))?;
    let frame = frame_after(alloc, &list)?;
    let registers = new_registers(alloc, &BTreeSet::new(alloc), &list)?;
    let bytes = expression_bytes(&list);
    Ok(Cie {
        head,
        frame,
        registers,
        bytes,
    })
}
