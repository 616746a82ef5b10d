// A line of a profile: its fields, and their meaning.
ghost use Rattle.std.specs.Prelude.{◌≡◌, ◌≢◌, ◌∷◌, [], IfSome, IfNone, length, option_map, bytes_eq};
ghost use Rattle.edge_profile.specs.Grammar.{fields, branch_line};
ghost use Rattle.edge_profile.specs.Fields.{line_read, place_read, fields_in, list_of_eight, named_place_of};

use rb_bytes::number::{decimal_number, hex_number};
use rb_bytes::split::split_once;

/// The address `offset` bytes after the address that `name` means.
#[derive(Clone, Copy)]
pub struct Place<'a> {
    pub name: &'a [u8],
    pub offset: u64,
}

/// Control went from one place to another `count` times.
#[derive(Clone, Copy)]
pub struct Line<'a> {
    pub from: Place<'a>,
    pub to: Place<'a>,
    pub count: u64,
}

/// The eight fields of a line, in order.
#[derive(Clone, Copy)]
pub struct EightFields<'a> {
    pub from_is_symbol: &'a [u8],
    pub from: &'a [u8],
    pub from_offset: &'a [u8],
    pub to_is_symbol: &'a [u8],
    pub to: &'a [u8],
    pub to_offset: &'a [u8],
    pub mispredictions: &'a [u8],
    pub count: &'a [u8],
}

// Takes the next field of the rest of a line. After the last field there is no rest.
fn next_field<'a>(left: &mut Option<&'a [u8]>) -> Option<&'a [u8]>
    ensures some { IfSome result (λ field. fields_in left.old ≡ field.now ∷ fields_in left.new) }
    ensures none { IfNone result (fields_in left.old ≡ []) }
{
    let line = (*left)?;
    match split_once(line, b' ') {
        Some((field, rest)) => {
            *left = Some(rest);
            Some(field)
        }
        None => {
            *left = None;
            Some(line)
        }
    }
}

// The fields of a line, if it has eight.
fn eight_fields(line: &[u8]) -> Option<EightFields<'_>>
    ensures some { IfSome result (λ f. fields line.now ≡ list_of_eight f) }
    ensures none { IfNone result (length (fields line.now) ≢ 8) }
{
    let mut left = Some(line);
    let eight = EightFields {
        from_is_symbol: next_field(&mut left)?,
        from: next_field(&mut left)?,
        from_offset: next_field(&mut left)?,
        to_is_symbol: next_field(&mut left)?,
        to: next_field(&mut left)?,
        to_offset: next_field(&mut left)?,
        mispredictions: next_field(&mut left)?,
        count: next_field(&mut left)?,
    };
    match next_field(&mut left) {
        Some(_) => None,
        None => Some(eight),
    }
}

/// The meaning of a line, or `None` if it doesn't have the form of a profile's line.
pub fn branch_line(line: &[u8]) -> Option<Line<'_>>
    ensures { option_map line_read result ≡ branch_line (fields line.now) }
{
    let fields = eight_fields(line)?;
    if !is_symbol(fields.from_is_symbol) {
        return None;
    }
    if !is_symbol(fields.to_is_symbol) {
        return None;
    }
    if decimal_number(fields.mispredictions).is_none() {
        return None;
    }
    let from = place_at(fields.from, fields.from_offset)?;
    let to = place_at(fields.to, fields.to_offset)?;
    let count = decimal_number(fields.count)?;
    Some(Line { from, to, count })
}

// Whether a field is `1`, which says that a name and an offset follow.
fn is_symbol(field: &[u8]) -> bool
    ensures { result ≡ bytes_eq field.now (49 ∷ []) }
{
    field == b"1".as_slice()
}

fn place_at<'a>(name: &'a [u8], offset: &[u8]) -> Option<Place<'a>>
    ensures { option_map place_read result ≡ named_place_of name.now offset.now }
{
    let offset = hex_number(offset)?;
    Some(Place { name, offset })
}
