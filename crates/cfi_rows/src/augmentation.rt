// What the augmentation of a CIE says. LSB, "The Common Information Entry Format".
ghost use Rattle.std.specs.Prelude.{◌≡◌, ◌-◌, ◌<◌, ◌≤◌, ◌^◌, ℕ, List, length, IfOk, IfErr, OnOk, Ok, Err, Some, None};
ghost use Rattle.std.specs.Prelude.{MatchOption};
ghost use Rattle.cfi_rows.specs.FrameInstructions.{block_at, stored_at, pointed};
ghost use Rattle.cfi_rows.specs.Entries as spec;
ghost use Rattle.cfi_rows.specs.Reads.{Fails};
ghost use Rattle.cfi_rows.specs.Augmentations.{augmentation_of};
ghost use Rattle.cfi_rows.specs.declared.instruction.Malformed.TheVariants.{Entry};

use crate::encoding::{
    DW_EH_PE_absptr, DW_EH_PE_indirect_absptr, DW_EH_PE_indirect_pcrel_sdata4, DW_EH_PE_omit,
    DW_EH_PE_pcrel_sdata4, DW_EH_PE_sdata4, DW_EH_PE_udata4, Encoding,
};
use crate::failed::Failed;
use crate::operand::{byte, unsigned};
use rb_bytes::cursor::Cursor;

/// What the augmentation of a CIE says of its FDEs and of their frames.
#[derive(Clone, Copy)]
pub struct Augmentation {
    /// Whether FDEs have augmentation data.
    pub has_data: bool,
    /// The encoding of addresses.
    pub encoding: Encoding,
    /// The encoding of the pointer to an exception table, if there is one.
    pub table: Option<Encoding>,
    /// The address of the handler, and 0 if there is none.
    pub handler: u64,
    pub indirect: bool,
    /// Whether the frame is one of a signal handler.
    pub signal: bool,
}

impl Augmentation {
    // What no letter has changed yet.
    fn plain(has_data: bool) -> Augmentation
        ensures { augmentation_of result ≡ record {
          has_data = has_data;
          encoding = spec.no_augmentation.encoding;
          table = None;
          handler = 0;
          indirect = spec.no_augmentation.indirect;
          signal = spec.no_augmentation.signal;
        } }
    {
        Augmentation {
            has_data,
            encoding: Encoding::Absptr,
            table: None,
            handler: 0,
            indirect: false,
            signal: false,
        }
    }

    // Takes what one letter of the augmentation text says, with its data, which end at an address.
    fn take_letter(&mut self, letter: u8, end: u128, cursor: &mut Cursor<'_>) -> Result<(), Failed>
        requires { end < 2 ^ 66 }
        ensures ok { OnOk result (spec.letter_at end letter (augmentation_of self.old) cursor.old.left
            ≡ Ok (augmentation_of self.new, cursor.new.left)) }
        ensures err { IfErr result (λ e. Fails e (spec.letter_at end letter (augmentation_of self.old) cursor.old.left
            ≡ Err Entry)) }
    {
        match letter {
            b'R' => self.encoding = encoding_of(byte(cursor)?)?,
            b'P' => {
                let encoding = byte(cursor)?;
                self.take_handler(encoding, end, cursor)?;
            }
            b'L' => self.table = table_encoding_of(byte(cursor)?)?,
            b'S' => self.signal = true,
            _ => return Err(Failed::Malformed),
        }
        Ok(())
    }

    // Takes a handler by its encoding.
    fn take_handler(
        &mut self,
        encoding: u8,
        end: u128,
        cursor: &mut Cursor<'_>,
    ) -> Result<(), Failed>
        requires { end < 2 ^ 66 }
        ensures ok { OnOk result (spec.handler_at (augmentation_of self.old) end encoding cursor.old.left
            ≡ Ok (augmentation_of self.new, cursor.new.left)) }
        ensures err { IfErr result (λ e. Fails e (spec.handler_at (augmentation_of self.old) end encoding
            cursor.old.left
            ≡ Err Entry)) }
    {
        match encoding as u64 {
            DW_EH_PE_omit => {
                self.handler = 0;
                self.indirect = false;
            }
            DW_EH_PE_indirect_absptr => {
                self.handler = Encoding::Absptr.pointer(end, cursor)?;
                self.indirect = true;
            }
            DW_EH_PE_indirect_pcrel_sdata4 => {
                self.handler = Encoding::PcrelSdata4.pointer(end, cursor)?;
                self.indirect = true;
            }
            _ => {
                self.handler = encoding_of(encoding)?.pointer(end, cursor)?;
                self.indirect = false;
            }
        }
        Ok(())
    }

    /// The pointer to an exception table of an FDE, and 0 if there is none.
    pub(crate) fn table_pointer(&self, end: u128, cursor: &mut Cursor<'_>) -> Result<u64, Failed>
        requires { end < 2 ^ 66 }
        ensures ok { IfOk result (λ t. spec.table_at (augmentation_of self.now) end cursor.old.left
            ≡ Ok (t, cursor.new.left)) }
        ensures err { IfErr result (λ e. Fails e (spec.table_at (augmentation_of self.now) end cursor.old.left
            ≡ Err Entry)) }
        ensures on { OnOk result (length cursor.new.left ≤ length cursor.old.left) }
    {
        if !self.has_data {
            return Ok(0);
        }
        let bytes = data(cursor)?;
        table_by(self.table, end.saturating_sub(cursor.left() as u128), bytes)
    }
}

// The encoding that a byte names.
fn encoding_of(byte: u8) -> Result<Encoding, Failed>
    ensures ok { IfOk result (λ e. spec.encoding_of byte ≡ Some e) }
    ensures err { IfErr result (λ e. Fails e (spec.encoding_of byte ≡ None)) }
{
    match byte as u64 {
        DW_EH_PE_absptr => Ok(Encoding::Absptr),
        DW_EH_PE_udata4 => Ok(Encoding::Udata4),
        DW_EH_PE_sdata4 => Ok(Encoding::Sdata4),
        DW_EH_PE_pcrel_sdata4 => Ok(Encoding::PcrelSdata4),
        _ => Err(Failed::Malformed),
    }
}

// The encoding that a byte names, or none if it says that the pointer is omitted.
fn table_encoding_of(byte: u8) -> Result<Option<Encoding>, Failed>
    ensures ok { IfOk result (λ e. spec.table_encoding_of byte ≡ Some e) }
    ensures err { IfErr result (λ e. Fails e (spec.table_encoding_of byte ≡ None)) }
{
    if byte as u64 == DW_EH_PE_omit {
        return Ok(None);
    }
    Ok(Some(encoding_of(byte)?))
}

// Data of a stated length.
fn data<'a>(cursor: &mut Cursor<'a>) -> Result<&'a [u8], Failed>
    ensures ok { IfOk result (λ d. block_at cursor.old.left ≡ Ok (d.now, cursor.new.left)) }
    ensures err { IfErr result (λ e. Fails e (block_at cursor.old.left ≡ Err Entry)) }
    ensures on { OnOk result (length cursor.new.left ≤ length cursor.old.left) }
{
    let length = unsigned(cursor)?;
    Ok(cursor.take(length as usize)?)
}

// The pointer to an exception table, in data that end at an address.
fn table_by(encoding: Option<Encoding>, end: u128, bytes: &[u8]) -> Result<u64, Failed>
    requires { end < 2 ^ 66 }
    ensures ok { IfOk result (λ t. spec.table_by encoding end bytes.now ≡ Ok t) }
    ensures err { IfErr result (λ e. Fails e (spec.table_by encoding end bytes.now ≡ Err Entry)) }
{
    let Some(encoding) = encoding else {
        return Ok(0);
    };
    let at = end.saturating_sub(bytes.len() as u128);
    let stored = encoding.stored(&mut Cursor::new(bytes))?;
    if stored == 0 {
        return Ok(0);
    }
    Ok(encoding.pointed(at, stored))
}

// The letters after the first one, by their data, which end at an address.
fn by_letters(letters: &[u8], end: u128, bytes: &[u8]) -> Result<Augmentation, Failed>
    requires { end < 2 ^ 66 }
    ensures ok { IfOk result (λ a. spec.letters_at end letters.now spec.with_data bytes.now ≡ Ok (augmentation_of a)) }
    ensures err { IfErr result (λ e. Fails e (spec.letters_at end letters.now spec.with_data bytes.now ≡ Err Entry)) }
{
    let mut augmentation = Augmentation::plain(true);
    let mut cursor = Cursor::new(bytes);
    for letter in letters {
        augmentation.take_letter(*letter, end, &mut cursor)?;
    }
    Ok(augmentation)
}

/// The augmentation by its text; `end` is the address after the bytes left.
pub(crate) fn read_augmentation(
    text: &[u8],
    end: u128,
    cursor: &mut Cursor<'_>,
) -> Result<Augmentation, Failed>
    requires { end < 2 ^ 66 }
    ensures ok { IfOk result (λ a. spec.augmentation_at end text.now cursor.old.left
        ≡ Ok (augmentation_of a, cursor.new.left)) }
    ensures err { IfErr result (λ e. Fails e (spec.augmentation_at end text.now cursor.old.left ≡ Err Entry)) }
    ensures on { OnOk result (length cursor.new.left ≤ length cursor.old.left) }
{
    let Some((first, letters)) = text.split_first() else {
        return Ok(Augmentation::plain(false));
    };
    if *first != b'z' {
        return Err(Failed::Malformed);
    }
    let bytes = data(cursor)?;
    by_letters(letters, end.saturating_sub(cursor.left() as u128), bytes)
}
