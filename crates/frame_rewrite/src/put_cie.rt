// Entries of a frame table as bytes, and CIEs. LSB, "The .eh_frame section".
ghost use Rattle.std.specs.Prelude.{◌≡◌, ◌<◌, ◌+◌, ◌-◌, ◌^◌, ◌++◌, ◌∷◌, ℕ, OnOk, All, length};
ghost use Rattle.cfi_rows.specs.Entries as entries;
ghost use Rattle.frame_rewrite.specs.SpelledFrames as spec;
ghost use Rattle.frame_rewrite.specs.SpelledFits.{KeyFits};

use crate::cie_key::{CieKey, has_data, has_handler};
use crate::spelling::{put_byte, put_bytes, put_zeros};
use cfi_rows::encoding::{DW_EH_PE_absptr, DW_EH_PE_indirect_absptr, DW_EH_PE_pcrel_sdata4};
use cfi_rows::instruction::DW_CFA_def_cfa;
use rb_bytes::fault::NoMemory;
use rb_bytes::little::{put_u32, put_u64};

// The version of CIEs.
const VERSION: u8 = 1;

// What advances of the location, and offsets of saved registers, are multiples of.
const CODE_ALIGNMENT_FACTOR: u8 = 1;

// (-1 as a signed number)
const DATA_ALIGNMENT_FACTOR: u8 = 0x7f;

const STACK_POINTER: u8 = 2;

// How many bytes a CIE has after its id.
const BODY_SIZE: usize = 24;

// How many bytes an entry may have after its id: with the id its length stays below 0xffffffff, which says that a
// length of 64 bits follows.
const MAX_BODY: usize = 0xffff_fff0;

// The greatest id of an entry.
const MAX_ID: usize = 0xffff_ffff;

/// Appends an entry: its length, its id, and its body. `NoMemory` is answered, too, if the id or the length doesn't
/// fit its field.
pub(crate) fn put_entry(out: &mut Vec<u8>, id: usize, body: &[u8]) -> Result<(), NoMemory>
    ensures written { OnOk result (out.new.items ≡ out.old.items
        ++ spec.spelled_entry (record { place = length out.old.items; id = id; body = body.now })) }
    ensures id { OnOk result (id < 2 ^ 32) }
    ensures size { OnOk result (length body.now + 4 < 0xffffffff) }
{
    if id > MAX_ID || body.len() > MAX_BODY {
        return Err(NoMemory);
    }
    put_u32(out, (body.len() + 4) as u32)?;
    put_u32(out, id as u32)?;
    put_bytes(out, body)
}

// Appends bytes if they are needed.
fn put_if(out: &mut Vec<u8>, is_needed: bool, bytes: &[u8]) -> Result<(), NoMemory>
    ensures { OnOk result (out.new.items ≡ out.old.items ++ spec.bytes_if is_needed bytes.now) }
{
    if is_needed {
        put_bytes(out, bytes)
    } else {
        Ok(())
    }
}

// Appends the letters of the augmentation: of the handler (P), of exception tables (L), of how addresses are encoded
// (R), and that the frame is one of a signal handler (S).
fn put_letters(out: &mut Vec<u8>, debug: bool, key: &CieKey) -> Result<(), NoMemory>
    ensures { OnOk result (out.new.items ≡ out.old.items ++ spec.cie_letters debug key.now) }
{
    put_if(out, has_handler(key), b"P")?;
    put_if(out, key.tabled, b"L")?;
    put_if(out, !debug, b"R")?;
    put_if(out, key.signal, b"S")
}

// Appends the letters, after the one that says that they have data (z), if any is needed.
fn put_needed(out: &mut Vec<u8>, debug: bool, key: &CieKey) -> Result<(), NoMemory>
    ensures { OnOk result (out.new.items ≡ out.old.items
        ++ spec.bytes_if (spec.has_data debug key.now) (entries.letter_z ∷ spec.cie_letters debug key.now)) }
{
    if !has_data(debug, key) {
        return Ok(());
    }
    put_byte(out, b'z')?;
    put_letters(out, debug, key)
}

// Appends the text of the augmentation, and the zero that ends it.
fn put_text(out: &mut Vec<u8>, debug: bool, key: &CieKey) -> Result<(), NoMemory>
    ensures { OnOk result (out.new.items ≡ out.old.items ++ spec.cie_text debug key.now) }
{
    put_needed(out, debug, key)?;
    put_byte(out, 0)
}

fn handler_encoding(indirect: bool) -> u8
    ensures { result ≡ spec.handler_encoding indirect }
{
    if indirect {
        DW_EH_PE_indirect_absptr as u8
    } else {
        DW_EH_PE_absptr as u8
    }
}

// Appends how the handler is encoded, and its address.
fn put_handler(out: &mut Vec<u8>, key: &CieKey) -> Result<(), NoMemory>
    ensures { OnOk result (out.new.items ≡ out.old.items ++ spec.handler_data key.now) }
{
    if !has_handler(key) {
        return Ok(());
    }
    put_byte(out, handler_encoding(key.indirect))?;
    put_u64(out, key.handler)
}

// How many bytes the data of the letters have.
fn data_size(debug: bool, key: &CieKey) -> u8
    ensures { result ≡ length (spec.letter_data debug key.now) }
{
    let handler = if has_handler(key) { 9 } else { 0 };
    handler + key.tabled as u8 + !debug as u8
}

// Appends the data of the letters, and their size before them.
fn put_data(out: &mut Vec<u8>, debug: bool, key: &CieKey) -> Result<(), NoMemory>
    ensures { OnOk result (out.new.items ≡ out.old.items ++ spec.cie_data debug key.now) }
{
    if !has_data(debug, key) {
        return Ok(());
    }
    put_byte(out, data_size(debug, key))?;
    put_handler(out, key)?;
    put_if(out, key.tabled, &[DW_EH_PE_absptr as u8])?;
    put_if(out, !debug, &[DW_EH_PE_pcrel_sdata4 as u8])
}

// Appends the instructions of a CIE: that the frame address is the stack pointer.
fn put_code(out: &mut Vec<u8>, signal: bool) -> Result<(), NoMemory>
    ensures { OnOk result (out.new.items ≡ out.old.items ++ spec.cie_code signal) }
{
    if signal {
        Ok(())
    } else {
        put_bytes(out, &[DW_CFA_def_cfa as u8, STACK_POINTER, 0])
    }
}

// Appends what a CIE says.
fn put_fields(out: &mut Vec<u8>, debug: bool, key: &CieKey) -> Result<(), NoMemory>
    requires { key.now.ra < 256 }
    ensures { OnOk result (out.new.items ≡ out.old.items ++ spec.cie_fields debug key.now) }
{
    put_byte(out, VERSION)?;
    put_text(out, debug, key)?;
    put_bytes(
        out,
        &[CODE_ALIGNMENT_FACTOR, DATA_ALIGNMENT_FACTOR, key.ra as u8],
    )?;
    put_data(out, debug, key)?;
    put_code(out, key.signal)
}

// Appends zero bytes (DW_CFA_nop) to the body of a CIE, so that all CIEs have one size.
fn fill(body: &mut Vec<u8>) -> Result<(), NoMemory>
    ensures { OnOk result (body.new.items ≡ body.old.items ++ spec.zeros (24 - length body.old.items)) }
{
    put_zeros(body, BODY_SIZE.saturating_sub(body.len()))
}

// The id of a CIE.
fn cie_id(debug: bool) -> usize
    ensures { result ≡ entries.cie_id debug }
{
    if debug { 0xffff_ffff } else { 0 }
}

fn put_cie_entry(
    out: &mut Vec<u8>,
    body: &mut Vec<u8>,
    debug: bool,
    key: &CieKey,
) -> Result<(), NoMemory>
    requires { key.now.ra < 256 }
    ensures { OnOk result ((i : ℕ) → out.new.items ≡ out.old.items
        ++ spec.spelled_entry (spec.cie_entry debug i key.now)) }
{
    body.clear();
    put_fields(body, debug, key)?;
    fill(body)?;
    put_entry(out, cie_id(debug), body)
}

/// Appends a CIE for each kind of frame. `body` is room for one at a time.
pub(crate) fn put_cies(
    out: &mut Vec<u8>,
    body: &mut Vec<u8>,
    debug: bool,
    keys: &[CieKey],
) -> Result<(), NoMemory>
    requires { All KeyFits keys.now }
    ensures { OnOk result (out.new.items ≡ out.old.items ++ spec.spelled_entries (spec.cie_entries debug 0 keys.now)) }
{
    for (i, key) in keys.iter().enumerate() {
        put_cie_entry(out, body, debug, key)?;
    }
    Ok(())
}
