// Frame description entries. LSB, "The Frame Description Entry Format"; DWARF 5, section 6.4.1.
ghost use Rattle.std.specs.Prelude.{◌≡◌, ◌+◌, ◌<◌, ◌≤◌, ◌^◌, List, length, IfOk, IfErr, OnOk, IsOkAnd, Ok, Err};
ghost use Rattle.cfi_rows.specs.Entries as spec;
ghost use Rattle.cfi_rows.specs.FrameRows.{Known};
ghost use Rattle.cfi_rows.specs.Reads.{Fails};
ghost use Rattle.cfi_rows.specs.ReadEntries.{fde_of};
ghost use Rattle.cfi_rows.specs.Augmentations.{augmentation_of};
ghost use Rattle.cfi_rows.specs.FdeHeads.{fde_head_at};
ghost use Rattle.cfi_rows.specs.KeptCies.{cie_of, IsKept};
ghost use Rattle.cfi_rows.specs.declared.instruction.Instruction.{Instruction};
ghost use Rattle.cfi_rows.specs.declared.instruction.Malformed.TheVariants.{Entry};

use crate::augmentation::Augmentation;
use crate::counts::{expression_bytes, new_registers};
use crate::decode::instructions;
use crate::encoding::Encoding;
use crate::failed::Failed;
use crate::frame_table::Fde;
use crate::kept_cie::Cie;
use crate::outline::row_count;
use crate::raw_entry::RawEntry;
use rb_bytes::cursor::Cursor;
use std::alloc::Global;

/// The fields of an FDE before its instructions: the start of its range, the size of the range, and the address of
/// its exception table, or 0.
#[derive(Clone, Copy)]
pub struct FdeHead {
    pub start: u64,
    pub size: u64,
    pub table: u64,
}

impl Encoding {
    // The encoding of the size of a range: its start's encoding, but never relative to its own field.
    fn of_size(self) -> Encoding
        ensures { result ≡ spec.size_encoding self }
    {
        match self {
            Encoding::Absptr => Encoding::Absptr,
            Encoding::Udata4 => Encoding::Udata4,
            Encoding::Sdata4 => Encoding::Sdata4,
            Encoding::PcrelSdata4 => Encoding::Sdata4,
        }
    }
}

/// The fields of an FDE before its instructions; `end` is the address at which the bytes left end.
pub(crate) fn read_fde_head(
    augmentation: &Augmentation,
    end: u128,
    cursor: &mut Cursor<'_>,
) -> Result<FdeHead, Failed>
    requires { end < 2 ^ 66 }
    ensures ok { IfOk result (λ h. fde_head_at (augmentation_of augmentation.now) end cursor.old.left
        ≡ Ok (h, cursor.new.left)) }
    ensures err { IfErr result (λ e. Fails e (fde_head_at (augmentation_of augmentation.now) end cursor.old.left
        ≡ Err Entry)) }
    ensures fits { IfOk result (λ h. h.start + h.size < 2 ^ 64) }
    ensures on { OnOk result (length cursor.new.left ≤ length cursor.old.left) }
{
    let start = augmentation.encoding.pointer(end, cursor)?;
    let size = augmentation.encoding.of_size().stored(cursor)?;
    if size > u64::MAX - start {
        return Err(Failed::Malformed);
    }
    let table = augmentation.table_pointer(end, cursor)?;
    Ok(FdeHead { start, size, table })
}

/// An FDE by its entry and its CIE; `end` is the address at which the entry ends.
pub(crate) fn read_fde(
    alloc: Global,
    cie: &Cie,
    end: u128,
    entry: &RawEntry<'_>,
) -> Result<Fde, Failed>
    requires { end < 2 ^ 66 }
    ensures ok { (is : List Instruction) (known : Known) → IsKept cie.now is known →
        IfOk result (λ f. IsOkAnd (spec.fde_at (cie_of cie.now is known) end entry.now) (λ x. f ≡ fde_of x)) }
    ensures err { (is : List Instruction) (known : Known) → IsKept cie.now is known →
        IfErr result (λ e. Fails e (spec.fde_at (cie_of cie.now is known) end entry.now ≡ Err Entry)) }
{
    let mut cursor = Cursor::new(entry.body);
    let head = read_fde_head(&cie.head.augmentation, end, &mut cursor)?;
    let list = instructions(alloc, &mut cursor, &cie.head.factors(end))?;
    let rows = row_count(alloc, &list, head.start, cie.frame)?;
    let added = new_registers(alloc, &cie.registers.set, &list)?;
    let registers = cie.registers.count as u64 + added.count as u64;
    let own = expression_bytes(&list);
    let bytes = own + cie.bytes;
    Ok(Fde {
        place: entry.place,
        start: head.start,
        end: head.start + head.size,
        handler: cie.head.augmentation.handler,
        indirect: cie.head.augmentation.indirect,
        table: head.table,
        signal: cie.head.augmentation.signal,
        ra: cie.head.ra,
        rows,
        registers,
        bytes,
    })
}
