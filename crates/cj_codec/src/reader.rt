//! Bytes that are read field by field.

ghost use Rattle.std.specs.Prelude.{◌≡◌, ◌↔◌, [], length, IsTrue};
ghost use Rattle.cj_codec.specs.Fields.{byte, number16, number32, number64, string16, string32, string64, name, value};
ghost use Rattle.cj_codec.specs.Readings.{ReadsField, offset, stopped_at};

use crate::error::{CodecError, Fault, Stop};
use crate::read;
use cj_model::{Name, Value};
use std::alloc::Global;
use std::marker::Model;

/// A reader of bytes, field by field, with its offset. A refused single field leaves the reader where it was.
#[derive(Drop)]
pub struct Reader<'a> {
    rest: &'a [u8],
    /// How many bytes the reader was given.
    size: u64,
}

impl<'a> Model for Reader<'a> {
    ghost use Rattle.cj_codec.specs.Readings.{Place};

    ghost Value = { Place };

    ghost view = { λ reader. record { rest = reader.rest.now; size = reader.size } };
}

impl<'a> Reader<'a> {
    /// A reader of these bytes, at offset 0.
    pub fn new(bytes: &'a [u8]) -> Reader<'a>
        ensures { result ≡ record { rest = bytes.now; size = length bytes.now } }
    {
        Reader {
            rest: bytes,
            size: bytes.len() as u64,
        }
    }

    /// The offset of the next byte: how many bytes are taken.
    pub fn offset(&self) -> u64
        ensures { result ≡ offset self.now }
    {
        self.size.saturating_sub(self.rest.len() as u64)
    }

    /// Whether all bytes are taken.
    pub fn is_at_end(&self) -> bool
        ensures { IsTrue result ↔ (self.now.rest ≡ []) }
    {
        self.rest.is_empty()
    }

    /// The error of a field that begins at the reader's offset.
    fn stopped(&self, stop: Stop) -> CodecError
        ensures { result ≡ stopped_at (offset self.now) stop }
    {
        match stop {
            Stop::Fault(Fault::Cut) => CodecError::Cut(self.offset()),
            Stop::Fault(Fault::BadField) => CodecError::BadField(self.offset()),
            Stop::NoMemory => CodecError::NoMemory,
        }
    }

    /// Takes a byte. `Cut` if none is left.
    pub fn u8(&mut self) -> Result<u8, CodecError>
        ensures { ReadsField byte (λ x. x) self.old self.new result }
    {
        let rest = self.rest;
        match read::u8_of(rest) {
            Ok((field, rest)) => {
                self.rest = rest;
                Ok(field)
            }
            Err(stop) => Err(self.stopped(stop)),
        }
    }

    /// Takes a number of two bytes, the most significant first. `Cut` if fewer are left.
    pub fn u16(&mut self) -> Result<u16, CodecError>
        ensures { ReadsField number16 (λ x. x) self.old self.new result }
    {
        let rest = self.rest;
        match read::u16_of(rest) {
            Ok((field, rest)) => {
                self.rest = rest;
                Ok(field)
            }
            Err(stop) => Err(self.stopped(stop)),
        }
    }

    /// Takes a number of four bytes, the most significant first. `Cut` if fewer are left.
    pub fn u32(&mut self) -> Result<u32, CodecError>
        ensures { ReadsField number32 (λ x. x) self.old self.new result }
    {
        let rest = self.rest;
        match read::u32_of(rest) {
            Ok((field, rest)) => {
                self.rest = rest;
                Ok(field)
            }
            Err(stop) => Err(self.stopped(stop)),
        }
    }

    /// Takes a number of eight bytes, the most significant first. `Cut` if fewer are left.
    pub fn u64(&mut self) -> Result<u64, CodecError>
        ensures { ReadsField number64 (λ x. x) self.old self.new result }
    {
        let rest = self.rest;
        match read::u64_of(rest) {
            Ok((field, rest)) => {
                self.rest = rest;
                Ok(field)
            }
            Err(stop) => Err(self.stopped(stop)),
        }
    }

    /// Takes bytes, after their length of two bytes. `Cut`, if fewer are left, has the offset of that length.
    pub fn str16(&mut self) -> Result<&'a [u8], CodecError>
        ensures { ReadsField string16 (λ x. x.now) self.old self.new result }
    {
        let rest = self.rest;
        match read::str16_of(rest) {
            Ok((field, rest)) => {
                self.rest = rest;
                Ok(field)
            }
            Err(stop) => Err(self.stopped(stop)),
        }
    }

    /// Takes bytes, after their length of four bytes. `Cut`, if fewer are left, has the offset of that length.
    pub fn str32(&mut self) -> Result<&'a [u8], CodecError>
        ensures { ReadsField string32 (λ x. x.now) self.old self.new result }
    {
        let rest = self.rest;
        match read::str32_of(rest) {
            Ok((field, rest)) => {
                self.rest = rest;
                Ok(field)
            }
            Err(stop) => Err(self.stopped(stop)),
        }
    }

    /// Takes bytes, after their length of eight bytes. `Cut`, if fewer are left, has the offset of that length.
    pub fn str64(&mut self) -> Result<&'a [u8], CodecError>
        ensures { ReadsField string64 (λ x. x.now) self.old self.new result }
    {
        let rest = self.rest;
        match read::str64_of(rest) {
            Ok((field, rest)) => {
                self.rest = rest;
                Ok(field)
            }
            Err(stop) => Err(self.stopped(stop)),
        }
    }

    /// Takes a name, after its length of two bytes. Bytes that are no name are a `BadField`.
    pub fn name(&mut self) -> Result<Name, CodecError>
        ensures { ReadsField name (λ x. x) self.old self.new result }
    {
        let rest = self.rest;
        match read::name_of(rest) {
            Ok((field, rest)) => {
                self.rest = rest;
                Ok(field)
            }
            Err(stop) => Err(self.stopped(stop)),
        }
    }

    /// Takes a value, after its tag, and copies its text.
    ///
    /// `BadField` comes for a tag that is neither 01 nor 02. It also comes for a text that isn't UTF-8 without byte 0,
    /// or has more than `TEXT_LIMIT` bytes.
    pub fn value(&mut self, alloc: Global) -> Result<Value, CodecError>
        ensures { ReadsField value (λ x. x) self.old self.new result }
    {
        let rest = self.rest;
        match read::value_of(alloc, rest) {
            Ok((field, rest)) => {
                self.rest = rest;
                Ok(field)
            }
            Err(stop) => Err(self.stopped(stop)),
        }
    }
}
