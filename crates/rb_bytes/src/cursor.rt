// A cursor over bytes.
ghost use Rattle.std.specs.Prelude.{◌≡◌, ◌+◌, ◌<◌, ◌≤◌, length, take, drop, IfOk, IfErr, IfSome, OnOk, OnErr};
ghost use Rattle.rb_bytes.specs.Readers.{Reading, Passes, whole_reading, number_read, bytes_at, text_at};
ghost use Rattle.rb_bytes.specs.Leb.{leb_length, uleb_at, sleb_at};
ghost use Rattle.rb_bytes.specs.declared.gap.Gap.TheVariants.{Short};

use crate::gap::Gap;
use crate::leb;
use byteorder::{ByteOrder, LittleEndian};
use memchr::memchr;
use std::marker::Model;

/// The bytes that are not read yet, and the number of bytes read. After a [`Gap`] the cursor is as before the call.
#[derive(Drop)]
pub struct Cursor<'a> {
    rest: &'a [u8],
    place: usize,
}

impl<'a> Model for Cursor<'a> {
    ghost use Rattle.std.specs.Prelude.{◌+◌, ◌<◌, ◌^◌, length};
    ghost use Rattle.rb_bytes.specs.Readers.{Reading};

    ghost Value = { Reading };

    ghost view = { λ c. record { place = c.place; left = c.rest.now } };

    ghost invariant = { λ c. c.place + length c.rest.now < 2 ^ 64 };
}

impl<'a> Cursor<'a> {
    /// A cursor at the front of `bytes`.
    pub fn new(bytes: &'a [u8]) -> Cursor<'a>
        ensures { result ≡ whole_reading bytes.now }
    {
        Cursor {
            rest: bytes,
            place: 0,
        }
    }

    /// The number of bytes read.
    pub fn place(&self) -> usize
        ensures { result ≡ self.now.place }
    {
        self.place
    }

    /// The number of bytes left.
    pub fn left(&self) -> usize
        ensures { result ≡ length self.now.left }
    {
        self.rest.len()
    }

    /// The next `n` bytes. [`Gap::Short`] if fewer are left.
    pub fn take(&mut self, n: usize) -> Result<&'a [u8], Gap>
        ensures read { IfOk result (λ s. bytes_at n self.old.left ≡ Ok (s.now, self.new.left)) }
        ensures gap { IfErr result (λ gap. bytes_at n self.old.left ≡ Err gap) }
        ensures passes { OnOk result (Passes n self.old self.new) }
        ensures unchanged { OnErr result (self.new ≡ self.old) }
    {
        if self.rest.len() < n {
            return Err(Gap::Short);
        }
        let (bytes, rest) = self.rest.split_at(n);
        self.rest = rest;
        self.place += n;
        Ok(bytes)
    }

    /// The next byte. [`Gap::Short`] if none is left.
    pub fn u8(&mut self) -> Result<u8, Gap>
        ensures read { IfOk result (λ x. number_read 1 self.old.left ≡ Ok (x, self.new.left)) }
        ensures gap { IfErr result (λ gap. number_read 1 self.old.left ≡ Err gap) }
        ensures passes { OnOk result (Passes 1 self.old self.new) }
        ensures unchanged { OnErr result (self.new ≡ self.old) }
    {
        let bytes = self.take(1)?;
        Ok(bytes[0])
    }

    /// The little-endian number in the next two bytes. [`Gap::Short`] if fewer are left.
    pub fn u16(&mut self) -> Result<u16, Gap>
        ensures read { IfOk result (λ x. number_read 2 self.old.left ≡ Ok (x, self.new.left)) }
        ensures gap { IfErr result (λ gap. number_read 2 self.old.left ≡ Err gap) }
        ensures passes { OnOk result (Passes 2 self.old self.new) }
        ensures unchanged { OnErr result (self.new ≡ self.old) }
    {
        let bytes = self.take(2)?;
        Ok(LittleEndian::read_u16(bytes))
    }

    /// The little-endian number in the next four bytes. [`Gap::Short`] if fewer are left.
    pub fn u32(&mut self) -> Result<u32, Gap>
        ensures read { IfOk result (λ x. number_read 4 self.old.left ≡ Ok (x, self.new.left)) }
        ensures gap { IfErr result (λ gap. number_read 4 self.old.left ≡ Err gap) }
        ensures passes { OnOk result (Passes 4 self.old self.new) }
        ensures unchanged { OnErr result (self.new ≡ self.old) }
    {
        let bytes = self.take(4)?;
        Ok(LittleEndian::read_u32(bytes))
    }

    /// The little-endian number in the next eight bytes. [`Gap::Short`] if fewer are left.
    pub fn u64(&mut self) -> Result<u64, Gap>
        ensures read { IfOk result (λ x. number_read 8 self.old.left ≡ Ok (x, self.new.left)) }
        ensures gap { IfErr result (λ gap. number_read 8 self.old.left ≡ Err gap) }
        ensures passes { OnOk result (Passes 8 self.old self.new) }
        ensures unchanged { OnErr result (self.new ≡ self.old) }
    {
        let bytes = self.take(8)?;
        Ok(LittleEndian::read_u64(bytes))
    }

    /// The bytes up to the next zero byte, which the cursor also passes. [`Gap::Short`] if no zero byte is left.
    pub fn text(&mut self) -> Result<&'a [u8], Gap>
        ensures read { IfOk result (λ s. text_at self.old.left ≡ Ok (s.now, self.new.left)) }
        ensures gap { IfErr result (λ gap. text_at self.old.left ≡ Err gap) }
        ensures passes { IfOk result (λ s. Passes (length s.now + 1) self.old self.new) }
        ensures unchanged { OnErr result (self.new ≡ self.old) }
    {
        let Some(length) = memchr(0, self.rest) else {
            return Err(Gap::Short);
        };
        let (text, _) = self.rest.split_at(length);
        let (_, rest) = self.rest.split_at(length + 1);
        self.rest = rest;
        self.place += length + 1;
        Ok(text)
    }

    /// The unsigned LEB128 number at the front, of any length. [`Gap::Short`] if the bytes end inside the number,
    /// [`Gap::Wide`] if the number is complete and does not fit 64 bits. DWARF 5, section 7.6.
    pub fn uleb(&mut self) -> Result<u64, Gap>
        ensures read { IfOk result (λ x. uleb_at self.old.left ≡ Ok (x, self.new.left)) }
        ensures gap { IfErr result (λ gap. uleb_at self.old.left ≡ Err gap) }
        ensures passes { OnOk result (Passes (leb_length self.old.left) self.old self.new) }
        ensures forward { OnOk result (self.old.place < self.new.place) }
        ensures unchanged { OnErr result (self.new ≡ self.old) }
    {
        // Most numbers take one byte.
        if let Some(number) = self.short_uleb() {
            self.pass(1);
            return Ok(number as u64);
        }
        let spelling = self.leb_spelling()?;
        let number = leb::unsigned_value(spelling).ok_or(Gap::Wide)?;
        self.pass(spelling.len());
        Ok(number)
    }

    /// The signed LEB128 number at the front, of any length. Its gaps are those that [`Cursor::uleb`] has.
    pub fn sleb(&mut self) -> Result<i64, Gap>
        ensures read { IfOk result (λ x. sleb_at self.old.left ≡ Ok (x, self.new.left)) }
        ensures gap { IfErr result (λ gap. sleb_at self.old.left ≡ Err gap) }
        ensures passes { OnOk result (Passes (leb_length self.old.left) self.old self.new) }
        ensures forward { OnOk result (self.old.place < self.new.place) }
        ensures unchanged { OnErr result (self.new ≡ self.old) }
    {
        let spelling = self.leb_spelling()?;
        let number = leb::signed_value(spelling).ok_or(Gap::Wide)?;
        self.pass(spelling.len());
        Ok(number)
    }

    // The unsigned LEB128 number at the front, if it takes one byte. The cursor does not move.
    fn short_uleb(&self) -> Option<u8>
        ensures read { IfSome result (λ x. uleb_at self.now.left ≡ Ok (x, drop 1 self.now.left)) }
        ensures one { IfSome result (λ _. leb_length self.now.left ≡ 1) }
        ensures some { IfSome result (λ _. 1 ≤ length self.now.left) }
    {
        let byte = self.rest.first().copied()?;
        if byte < leb::BASE { Some(byte) } else { None }
    }

    // The bytes of the LEB128 number at the front. The cursor does not move. `Gap::Short` if the bytes end inside the
    // number.
    fn leb_spelling(&self) -> Result<&'a [u8], Gap>
        ensures read { IfOk result (λ s. s.now ≡ take (leb_length self.now.left) self.now.left) }
        ensures whole { IfOk result (λ s. length s.now ≡ leb_length self.now.left) }
        ensures within { OnOk result (leb_length self.now.left ≤ length self.now.left) }
        ensures gap { IfErr result (λ gap. gap ≡ Short) }
        ensures short { OnErr result (length self.now.left < leb_length self.now.left) }
    {
        let end = leb::end_at(self.rest).ok_or(Gap::Short)?;
        let (spelling, _) = self.rest.split_at(end + 1);
        Ok(spelling)
    }

    // Moves the cursor past `n` bytes.
    fn pass(&mut self, n: usize)
        requires { n ≤ length self.old.left }
        ensures passes { Passes n self.old self.new }
        ensures left { self.new.left ≡ drop n self.old.left }
    {
        let (_, rest) = self.rest.split_at(n);
        self.rest = rest;
        self.place += n;
    }
}
