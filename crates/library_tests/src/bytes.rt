// Tests LEB128 numbers with the examples of DWARF 5 (section 7.6, tables 7.1 and 7.2, and neighbours), fixed-width
// numbers, texts, numbers as text, and the printed names of faults.
use rb_bytes::cursor::Cursor;
use rb_bytes::fault::{Fault, FaultKind, NoMemory, Refusal};
use rb_bytes::gap::Gap;
use rb_bytes::leb::{put_sleb, put_uleb};
use rb_bytes::text::{put_decimal, put_hex};
use std::alloc::Global;
use std::test::Fail;
use test_files::words::push_bytes;

// A number and its bytes.
const EXAMPLES: &str = "\
unsigned 2 02
unsigned 127 7f
unsigned 128 8001
unsigned 129 8101
unsigned 12857 b964
unsigned 18446744073709551615 ffffffffffffffffff01
signed 2 02
signed -2 7e
signed 127 ff00
signed -127 817f
signed 128 8001
signed -128 807f
signed 129 8101
signed -129 ff7e
signed -9223372036854775808 8080808080808080807f";

// The unsigned number at the front, and its number of bytes.
fn read_unsigned(bytes: &[u8]) -> Result<(u64, usize), Gap> {
    let mut cursor = Cursor::new(bytes);
    let number = cursor.uleb()?;
    Ok((number, cursor.place()))
}

// The signed number at the front, and its number of bytes.
fn read_signed(bytes: &[u8]) -> Result<(i64, usize), Gap> {
    let mut cursor = Cursor::new(bytes);
    let number = cursor.sleb()?;
    Ok((number, cursor.place()))
}

fn bytes_of(alloc: Global, digits: &str) -> Result<Vec<u8>, Fail> {
    let mut bytes = Vec::new(alloc);
    push_bytes(&mut bytes, digits)?;
    Ok(bytes)
}

// Appends the encoding of a number.
fn put_number(out: &mut Vec<u8>, kind: &str, number: &str) -> Result<(), Fail> {
    if kind == "signed" {
        put_sleb(out, number.parse::<i64>()?)?;
    } else {
        put_uleb(out, number.parse::<u64>()?)?;
    }
    Ok(())
}

// The number at the front and its number of bytes, as text.
fn number_shown(alloc: Global, kind: &str, bytes: &[u8]) -> Result<String, Fail> {
    let shown = if kind == "signed" {
        format!(in alloc; "{:?}", read_signed(bytes))?
    } else {
        format!(in alloc; "{:?}", read_unsigned(bytes))?
    };
    Ok(shown)
}

#[test]
fn examples_of_the_standard(rt: HostRuntime) -> Result<(), Fail> {
    for line in EXAMPLES.lines() {
        let (kind, rest) = line.split_once(' ').ok_or("no number")?;
        let (number, digits) = rest.split_once(' ').ok_or("no bytes")?;
        let spelling = bytes_of(rt.alloc(), digits)?;
        let mut out = bytes_of(rt.alloc(), "07")?;
        put_number(&mut out, kind, number)?;
        assert!(rt;
            out.as_slice().get(1..) == Some(spelling.as_slice()),
            "{line}"
        );
        let shown = number_shown(rt.alloc(), kind, &spelling)?;
        let wanted = format!(in rt.alloc(); "Ok(({number}, {}))", spelling.len())?;
        assert_eq!(rt; shown.as_str(), wanted.as_str(), "{line}");
    }
    Ok(())
}

// Unsigned and signed numbers that are longer than necessary and followed by other bytes; that are cut off; and with
// one bit more than 64.
const SPELLINGS: &str = "\
unsigned 85808080808080808080800099 Ok((5, 12))
signed ffff7f99 Ok((-1, 3))
unsigned  Err(Short)
unsigned 80ff Err(Short)
signed 80 Err(Short)
unsigned 80808080808080808002 Err(Wide)
signed 80808080808080808001 Err(Wide)
unsigned 80808080808080808001 Ok((9223372036854775808, 10))";

#[test]
fn long_short_and_wide_spellings(rt: HostRuntime) -> Result<(), Fail> {
    for line in SPELLINGS.lines() {
        let (kind, rest) = line.split_once(' ').ok_or("no bytes")?;
        let (digits, wanted) = rest.split_once(' ').ok_or("no number")?;
        let bytes = bytes_of(rt.alloc(), digits)?;
        let shown = number_shown(rt.alloc(), kind, &bytes)?;
        assert_eq!(rt; shown.as_str(), wanted, "{line}");
    }
    Ok(())
}

// Consecutive reads of a cursor, with its place and the bytes left. A refused read doesn't move it.
const STEPS: &str = "\
u8 Ok(1)
u16 Ok(770)
u32 Ok(117835012)
u64 Ok(1084818905618843912)
text Ok([97, 98])
place (18, 1)
u16 Err(Short)
text Err(Short)
take2 Err(Short)
take1 Ok([99])
place (19, 0)";

fn step(alloc: Global, cursor: &mut Cursor<'_>, kind: &str) -> Result<String, Fail> {
    let shown = match kind {
        "u8" => format!(in alloc; "{:?}", cursor.u8())?,
        "u16" => format!(in alloc; "{:?}", cursor.u16())?,
        "u32" => format!(in alloc; "{:?}", cursor.u32())?,
        "u64" => format!(in alloc; "{:?}", cursor.u64())?,
        "text" => format!(in alloc; "{:?}", cursor.text())?,
        "take1" => format!(in alloc; "{:?}", cursor.take(1))?,
        "take2" => format!(in alloc; "{:?}", cursor.take(2))?,
        _ => format!(in alloc; "{:?}", (cursor.place(), cursor.left()))?,
    };
    Ok(shown)
}

#[test]
fn a_cursor_goes_on_where_it_stopped(rt: HostRuntime) -> Result<(), Fail> {
    let bytes = bytes_of(rt.alloc(), "0102030405060708090a0b0c0d0e0f61620063")?;
    let mut cursor = Cursor::new(&bytes);
    for line in STEPS.lines() {
        let (kind, wanted) = line.split_once(' ').ok_or("no answer")?;
        let shown = step(rt.alloc(), &mut cursor, kind)?;
        assert_eq!(rt; shown.as_str(), wanted, "{line}");
    }
    Ok(())
}

#[test]
fn numbers_as_text(rt: HostRuntime) -> Result<(), Fail> {
    let mut out = Vec::new(rt.alloc());
    for number in [0, 0x7fff_0000, u64::MAX] {
        put_hex(&mut out, number)?;
        out.push(b' ')?;
        put_decimal(&mut out, number)?;
        out.push(b'\n')?;
    }
    let want = b"0 0\n7fff0000 2147418112\nffffffffffffffff 18446744073709551615\n";
    assert!(rt; out.as_slice() == want.as_slice());
    Ok(())
}

// A call that allocates, and turns running out of memory into a refusal.
fn refused_or_spelled(out: &mut Vec<u8>, kind: FaultKind) -> Result<(), Refusal> {
    put_decimal(out, kind.number() as u64)?;
    out.extend_from_slice(kind.name().as_bytes())?;
    Err(Fault::at(kind, 0x1c).into())
}

#[test]
fn faults_are_named(rt: HostRuntime) -> Result<(), Fail> {
    let mut out = Vec::new(rt.alloc());
    let refused = refused_or_spelled(&mut out, FaultKind::BareAuipc);
    let shown = format!(in rt.alloc(); "{refused:?} {:?}", Refusal::from(NoMemory))?;
    let wanted = "Err(Fault(Fault { kind: BareAuipc, place: 28, need: 0, room: 0 })) Memory";
    assert!(rt; shown.as_str() == wanted);
    assert!(rt; out.as_slice() == b"16BareAuipc".as_slice());
    Ok(())
}
