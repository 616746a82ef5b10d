// The entries of a frame table, one after another. LSB, "The .eh_frame section"; DWARF 5, section 6.4.1.
ghost use Rattle.std.specs.Prelude.{◌≡◌, ◌+◌, IfOk, IfErr, length};
ghost use Rattle.cfi_rows.specs.Entries.{Stands, front_of, walked_entries};
ghost use Rattle.cfi_rows.specs.FrontEnds.{front_without};

use byteorder::{ByteOrder, LittleEndian};
use rb_bytes::fault::NoMemory;
use std::alloc::Global;
use std::marker::Model;

/// An entry of a frame table: the offset of its length field, its id, and the bytes after the id. The id tells CIEs
/// from FDEs, and gives an FDE's CIE.
#[derive(Drop)]
pub struct RawEntry<'a> {
    pub place: u64,
    pub id: u32,
    pub body: &'a [u8],
}

impl<'a> Model for RawEntry<'a> {
    ghost use Rattle.cfi_rows.specs.Entries.{RawEntry};

    ghost Value = { RawEntry };

    ghost view = { λ e. record { place = e.place; id = e.id; body = e.body.now } };
}

/// Why there is no entry at the front of some bytes.
#[derive(Clone, Copy)]
pub enum NoEntry {
    /// A length of 0 ends the table, in `.eh_frame`.
    Ends,
    /// The length isn't there, isn't one of 32 bits, has no room for an id, or passes the end of the bytes.
    Breaks,
}

// The length that says that one of 64 bits follows.
const WIDE_LENGTH: u32 = 0xffff_ffff;

/// The entry at the front of the bytes left, which are at offset `place`, and the bytes after it.
pub(crate) fn entry_at<'a>(
    debug: bool,
    place: u64,
    left: &'a [u8],
) -> Result<(RawEntry<'a>, &'a [u8]), NoEntry>
    ensures entry { IfOk result (λ read. front_of debug place left.now ≡ Stands read.0 read.1.now) }
    ensures none { IfErr result (λ e. front_of debug place left.now ≡ front_without e) }
    ensures place { IfOk result (λ read. read.0.place ≡ place) }
    ensures size { IfOk result (λ read. 8 + length read.0.body + length read.1.now ≡ length left.now) }
{
    if left.len() < 4 {
        return Err(NoEntry::Breaks);
    }
    let length = LittleEndian::read_u32(left);
    let (_, after_length) = left.split_at(4);
    if !debug && length == 0 {
        return Err(NoEntry::Ends);
    }
    if length == WIDE_LENGTH || length < 4 || after_length.len() < length as usize {
        return Err(NoEntry::Breaks);
    }
    let id = LittleEndian::read_u32(after_length);
    let (_, after_id) = after_length.split_at(4);
    let (body, _) = after_id.split_at(length as usize - 4);
    let (_, rest) = after_length.split_at(length as usize);
    Ok((RawEntry { place, id, body }, rest))
}

/// The entries one after another, and the offset after them, if bytes there are no entry.
#[derive(Drop)]
pub struct Walked<'a> {
    pub entries: Vec<RawEntry<'a>>,
    pub broken: Option<u64>,
}

/// Walks the entries of a table, up to its end or to bytes that are no entry.
pub(crate) fn walk<'a>(alloc: Global, debug: bool, table: &'a [u8]) -> Result<Walked<'a>, NoMemory>
    ensures { IfOk result (λ w. walked_entries debug table.now ≡ record
        { entries = w.entries.items; broken = w.broken }) }
{
    let mut entries = Vec::new(alloc);
    let mut left = table;
    let mut place: u64 = 0;
    // Each entry takes a byte at least, so only an empty table isn't done within the loop, which `count` bounds without
    // being read.
    for count in 0..table.len() {
        if left.is_empty() {
            return Ok(Walked {
                entries,
                broken: None,
            });
        }
        match entry_at(debug, place, left) {
            Ok((entry, rest)) => {
                place += 8 + entry.body.len() as u64;
                left = rest;
                entries.push(entry)?;
            }
            Err(NoEntry::Ends) => return Ok(Walked {
                entries,
                broken: None,
            }),
            Err(NoEntry::Breaks) => return Ok(Walked {
                entries,
                broken: Some(place),
            }),
        }
    }
    if left.is_empty() {
        return Ok(Walked {
            entries,
            broken: None,
        });
    }
    Ok(Walked {
        entries,
        broken: Some(place),
    })
}
