//! What a reader can take, in a format.

ghost use Rattle.cj_codec.specs.Fields.{name, number16, number32, value};
ghost use Rattle.cj_codec.specs.Formats.{list, repeated, Format, IsFormat};
ghost use Rattle.cj_codec.specs.Readings.{ReadsFields, ReadsWhole};

use crate::error::CodecError;
use crate::reader::Reader;
use cj_model::{ListOf, Name, Value};
use std::alloc::Global;

/// A field, or several one after another.
pub trait Field {
    type Item: Drop;

    ghost format: { Self → Format Self.Item };

    /// Takes a field of this format off the reader. After an error nothing is known of the reader's position.
    /// No clause says which offset the error has.
    fn take(&self, reader: &mut Reader<'_>, alloc: Global) -> Result<Self::Item, CodecError>
        ensures { ReadsFields (format self.now) reader.old reader.new result };
}

/// A name, after its length of two bytes.
#[derive(Clone, Copy)]
pub struct NameField;

/// A value, after its tag of one byte.
#[derive(Clone, Copy)]
pub struct ValueField;

/// `count` fields of one format, one after another.
#[derive(Clone, Copy)]
pub struct Repeated<F> {
    pub field: F,
    pub count: u64,
}

impl Field for NameField {
    type Item = Name;

    ghost format = { λ _. name };

    fn take(&self, reader: &mut Reader<'_>, _alloc: Global) -> Result<Name, CodecError> {
        reader.name()
    }
}

impl Field for ValueField {
    type Item = Value;

    ghost format = { λ _. value };

    fn take(&self, reader: &mut Reader<'_>, alloc: Global) -> Result<Value, CodecError> {
        reader.value(alloc)
    }
}

impl<F: Field> Field for Repeated<F> {
    type Item = ListOf<F::Item>;

    ghost format = { λ fields. repeated (F.format fields.field) fields.count };

    fn take(&self, reader: &mut Reader<'_>, alloc: Global) -> Result<ListOf<F::Item>, CodecError> {
        reader.items(alloc, &self.field, self.count)
    }
}

impl<'a> Reader<'a> {
    /// Takes `count` fields. After an error nothing is known of the reader's position, or of the error's offset.
    pub fn items<F: Field>(
        &mut self,
        alloc: Global,
        field: &F,
        count: u64,
    ) -> Result<ListOf<F::Item>, CodecError>
        ensures { ReadsFields (repeated (F.format field.now) count) self.old self.new result }
    {
        let mut items = ListOf::new(alloc);
        for _ in 0..count {
            items.push(field.take(self, alloc)?)?;
        }
        Ok(items)
    }

    /// Takes a list of fields, after their number of two bytes.
    /// After an error nothing is known of the reader's position, or of the error's offset.
    pub fn list16<F: Field>(
        &mut self,
        alloc: Global,
        field: &F,
    ) -> Result<ListOf<F::Item>, CodecError>
        ensures { ReadsFields (list number16 (F.format field.now)) self.old self.new result }
    {
        let count = self.u16()?;
        self.items(alloc, field, u64::from(count))
    }

    /// Takes a list of fields, after their number of four bytes.
    /// After an error nothing is known of the reader's position, or of the error's offset.
    pub fn list32<F: Field>(
        &mut self,
        alloc: Global,
        field: &F,
    ) -> Result<ListOf<F::Item>, CodecError>
        ensures { ReadsFields (list number32 (F.format field.now)) self.old self.new result }
    {
        let count = self.u32()?;
        self.items(alloc, field, u64::from(count))
    }
}

/// Reads the one field that all of the bytes are.
///
/// `Cut` and `BadField` come exactly if the bytes are those of no such field. No clause says which of them it is.
pub fn read_whole<F: Field>(alloc: Global, bytes: &[u8], field: &F) -> Result<F::Item, CodecError>
    requires { IsFormat (F.format field.now) }
    ensures { ReadsWhole (F.format field.now) bytes.now result }
{
    let mut reader = Reader::new(bytes);
    let item = field.take(&mut reader, alloc)?;
    if !reader.is_at_end() {
        return Err(CodecError::BadField(reader.offset()));
    }
    Ok(item)
}
