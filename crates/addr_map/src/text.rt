// The text of a map, in pieces of at most `LINES` lines. Each piece is written from its last byte to its first, since
// the lowest digits of a number are computed first.
ghost use Rattle.std.specs.Prelude.{◌≡◌, ◌+◌, ◌*◌, ◌++◌, ◌-◌, ◌<◌, ◌≤◌, OnErr, OnOk, ◌∷◌, decimal, drop, length};
ghost use Rattle.std.specs.Prelude.{slice_range, take};
ghost use Rattle.rb_io.specs.CallResults.{IfTook};
ghost use Rattle.rb_io.specs.FaultCounts.{Rose};
ghost use Rattle.rb_io.specs.TakenText.{TakesAll, TakesPrefix};
ghost use Rattle.addr_map.specs.MapText.{map_text, span_line};

use crate::new_order::NewOrder;
use crate::span::Span;
use itoa::write_digits;
use rb_bytes::fault::NoMemory;
use rb_bytes::text::write_hex;
use rb_io::{Put, Sink, print_all};

// The most bytes of a line: two numbers of 16 digits, one of three, two blanks and the line feed.
const LINE_LENGTH: usize = 38;
// The most lines of a piece.
const LINES: usize = 64;
// The most bytes of a piece.
const PIECE_LENGTH: usize = LINES * LINE_LENGTH;

// Writes `byte` before index `end`, and returns its index.
fn write_byte(byte: u8, buf: &mut [u8], end: usize) -> usize
    requires room { 1 ≤ end }
    requires inside { end ≤ length buf.old }
    ensures start { result + 1 ≡ end }
    ensures written { drop result buf.new ≡ byte ∷ drop end buf.old }
{
    let start = end - 1;
    buf[start] = byte;
    start
}

// Writes `len` in decimal before index `end`, and returns the index of the first digit.
fn write_length(len: u8, buf: &mut [u8], end: usize) -> usize
    requires room { 3 ≤ end }
    requires inside { end ≤ length buf.old }
    ensures start { result ≤ end }
    ensures short { end ≤ result + 3 }
    ensures written { drop result buf.new ≡ decimal len ++ drop end buf.old }
{
    write_digits(len as u64, buf, end)
}

// Writes the line of a span before index `end`, and returns the index of its first byte.
fn write_line(span: &Span, buf: &mut [u8], end: usize) -> usize
    requires room { LINE_LENGTH ≤ end }
    requires inside { end ≤ length buf.old }
    ensures start { result ≤ end }
    ensures short { end ≤ result + LINE_LENGTH }
    ensures written { drop result buf.new ≡ span_line span.now ++ drop end buf.old }
{
    let line_end = write_byte(b'\n', buf, end);
    let input = write_hex(span.input, buf, line_end);
    let blank = write_byte(b' ', buf, input);
    let len = write_length(span.len, buf, blank);
    let blank = write_byte(b' ', buf, len);
    write_hex(span.out, buf, blank)
}

// Writes the lines from `first` to before `last` to the end of `buf`, and returns the index of the first byte.
fn write_lines(map: &NewOrder, first: usize, last: usize, buf: &mut [u8]) -> usize
    requires order { first ≤ last }
    requires inside { last ≤ length map.now }
    requires room { LINE_LENGTH * (last - first) ≤ length buf.old }
    ensures start { result ≤ length buf.old }
    ensures short { length buf.old ≤ result + LINE_LENGTH * (last - first) }
    ensures written { drop result buf.new ≡ map_text (slice_range map.now first last) }
{
    let mut start = buf.len();
    let mut i = last;
    while i > first {
        i -= 1;
        start = write_line(&map.line(i), buf, start);
    }
    start
}

// The end of the piece that starts with line `first`, if there are `count` lines: the first line after the piece.
fn piece_end(first: usize, count: usize) -> usize
    requires { first < count }
    ensures rises { first < result }
    ensures inside { result ≤ count }
    ensures short { result ≤ first + LINES }
{
    first + LINES.min(count - first)
}

// Appends the text of all lines. After an error part of the text may have been appended.
fn append_lines(map: &NewOrder, into: &mut Vec<u8>) -> Result<(), NoMemory>
    ensures ok { OnOk result (into.new.items ≡ into.old.items ++ map_text map.now) }
    ensures err { OnErr result (take (length into.old.items) into.new.items ≡ into.old.items) }
{
    let mut buf = [0; PIECE_LENGTH];
    let mut first = 0;
    while first < map.len() {
        let last = piece_end(first, map.len());
        let start = write_lines(map, first, last, &mut buf);
        into.extend_from_slice(&buf[start..])?;
        first = last;
    }
    Ok(())
}

/// Appends the text of the map. After an error `into` is unchanged.
pub(crate) fn append_text(map: &NewOrder, into: &mut Vec<u8>) -> Result<(), NoMemory>
    ensures ok { OnOk result (into.new.items ≡ into.old.items ++ map_text map.now) }
    ensures err { OnErr result (into.new.items ≡ into.old.items) }
{
    let len = into.len();
    let appended = append_lines(map, into);
    if appended.is_err() {
        into.truncate(len);
    }
    appended
}

/// Prints the text of the map, in pieces that are on the stack.
pub(crate) fn print_text<O: Sink>(map: &NewOrder, out: &mut O) -> Put
    ensures whole { IfTook result (λ n. n ≡ length (map_text map.now)) }
    ensures all { IfTook result (λ n. TakesAll (O.seen out.old).taken (O.seen out.new).taken (map_text map.now)) }
    ensures front { result ≡ Put.Failed → TakesPrefix (O.seen out.old).taken (O.seen out.new).taken (map_text map.now) }
    ensures failed { result ≡ Put.Failed → Rose (O.seen out.old).faults (O.seen out.new).faults }
    ensures never_falls { (O.seen out.old).faults ≤ (O.seen out.new).faults }
{
    let mut buf = [0; PIECE_LENGTH];
    let mut first = 0;
    let mut done = 0;
    while first < map.len() {
        let last = piece_end(first, map.len());
        let start = write_lines(map, first, last, &mut buf);
        match print_all(out, &buf[start..]) {
            Put::Took(count) => done += count,
            Put::Failed => return Put::Failed,
        }
        first = last;
    }
    Put::Took(done)
}
