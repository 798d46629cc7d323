//! The parts that statements consist of.

ghost use Rattle.std.specs.Prelude.{◌≡◌, ◌++◌, ℕ, List, OnOk};
ghost use Rattle.cj_print.specs.Ascii.{IsAsciiText};
ghost use Rattle.cj_print.specs.Canonical.{
  coldef_text,
  col_text,
  direction_text,
  expr_text,
  item_text,
  key_text,
  kind_text,
  name_text,
  behind_commas,
  primary_text,
  qualifier_text,
  separated,
  set_text,
  term_text,
  tuple_text,
};

use crate::buffer::TextBuffer;
use crate::literal::{write_number, write_value};
use cj_model::{ColDef, ColRef, Expr, Item, Key, Kind, Name, NoMemory, Set, Term, Tuple};
use std::alloc::Global;

/// A part of a statement that may be in a list.
pub trait Part {
    ghost written: { Self → List ℕ };

    /// Appends the part's canonical text. After `NoMemory` the contract says nothing of the text.
    fn append(&self, alloc: Global, text: &mut TextBuffer) -> Result<(), NoMemory>
        ensures { OnOk result (text.new ≡ text.old ++ written self.now) };
}

/// Appends the parts, each after a comma and a space.
fn append_behind_commas<T: Part>(
    alloc: Global,
    text: &mut TextBuffer,
    parts: &[T],
) -> Result<(), NoMemory>
    ensures { OnOk result (text.new ≡ text.old ++ behind_commas T.written parts.now) }
{
    for part in parts {
        text.push_ascii(b", ")?;
        part.append(alloc, text)?;
    }
    Ok(())
}

/// Appends the parts, with a comma and a space between each two. After `NoMemory` the contract says nothing
/// of the text.
pub fn append_separated<T: Part>(
    alloc: Global,
    text: &mut TextBuffer,
    parts: &[T],
) -> Result<(), NoMemory>
    ensures { OnOk result (text.new ≡ text.old ++ separated T.written parts.now) }
{
    match parts {
        [] => Ok(()),
        [first, rest @ ..] => {
            first.append(alloc, text)?;
            append_behind_commas(alloc, text, rest)
        }
    }
}

impl Part for Name {
    ghost written = { name_text };

    fn append(&self, _alloc: Global, text: &mut TextBuffer) -> Result<(), NoMemory> {
        text.push_name(self)?;
        Ok(())
    }
}

fn append_qualifier(text: &mut TextBuffer, table: &Option<Name>) -> Result<(), NoMemory>
    ensures { OnOk result (text.new ≡ text.old ++ qualifier_text table.now) }
{
    if let Some(table) = table {
        text.push_name(table)?;
        text.push_ascii(b".")?;
    }
    Ok(())
}

impl Part for ColRef {
    ghost written = { col_text };

    fn append(&self, _alloc: Global, text: &mut TextBuffer) -> Result<(), NoMemory> {
        append_qualifier(text, &self.table)?;
        text.push_name(&self.column)?;
        Ok(())
    }
}

impl Part for Term {
    ghost written = { term_text };

    fn append(&self, alloc: Global, text: &mut TextBuffer) -> Result<(), NoMemory> {
        match self {
            Term::Lit(value) => {
                text.push_text(&write_value(alloc, value)?)?;
            }
            Term::Col(column) => column.append(alloc, text)?,
            Term::Now => text.push_ascii(b"NOW()")?,
            Term::Rand(bound) => {
                text.push_ascii(b"RAND(")?;
                text.push_text(&write_number(alloc, *bound)?)?;
                text.push_ascii(b")")?;
            }
        }
        Ok(())
    }
}

impl Part for Expr {
    ghost written = { expr_text };

    fn append(&self, alloc: Global, text: &mut TextBuffer) -> Result<(), NoMemory> {
        match self {
            Expr::One(term) => term.append(alloc, text),
            Expr::Plus(left, right) => {
                left.append(alloc, text)?;
                text.push_ascii(b" + ")?;
                right.append(alloc, text)
            }
            Expr::Minus(left, right) => {
                left.append(alloc, text)?;
                text.push_ascii(b" - ")?;
                right.append(alloc, text)
            }
        }
    }
}

impl Part for Tuple {
    ghost written = { tuple_text };

    fn append(&self, alloc: Global, text: &mut TextBuffer) -> Result<(), NoMemory> {
        text.push_ascii(b"(")?;
        append_separated(alloc, text, self.as_slice())?;
        text.push_ascii(b")")?;
        Ok(())
    }
}

impl Part for Set {
    ghost written = { set_text };

    fn append(&self, alloc: Global, text: &mut TextBuffer) -> Result<(), NoMemory> {
        text.push_name(&self.column)?;
        text.push_ascii(b" = ")?;
        self.value.append(alloc, text)
    }
}

fn kind_words(kind: Kind) -> &'static [u8]
    ensures words { result.now ≡ kind_text kind }
    ensures ascii { IsAsciiText result.now }
{
    match kind {
        Kind::Integer => b" INTEGER",
        Kind::Text => b" TEXT",
    }
}

fn primary_words(is_key: bool) -> &'static [u8]
    ensures words { result.now ≡ primary_text is_key }
    ensures ascii { IsAsciiText result.now }
{
    if is_key { b" PRIMARY KEY" } else { b"" }
}

impl Part for ColDef {
    ghost written = { coldef_text };

    fn append(&self, _alloc: Global, text: &mut TextBuffer) -> Result<(), NoMemory> {
        text.push_name(&self.name)?;
        text.push_ascii(kind_words(self.kind))?;
        text.push_ascii(primary_words(self.key))?;
        Ok(())
    }
}

impl Part for Item {
    ghost written = { item_text };

    fn append(&self, alloc: Global, text: &mut TextBuffer) -> Result<(), NoMemory> {
        match self {
            Item::Col(column) => column.append(alloc, text)?,
            Item::Count => text.push_ascii(b"COUNT(*)")?,
            Item::Sum(column) => {
                text.push_ascii(b"SUM(")?;
                column.append(alloc, text)?;
                text.push_ascii(b")")?;
            }
        }
        Ok(())
    }
}

fn direction_words(falls: bool) -> &'static [u8]
    ensures words { result.now ≡ direction_text falls }
    ensures ascii { IsAsciiText result.now }
{
    if falls { b" DESC" } else { b"" }
}

impl Part for Key {
    ghost written = { key_text };

    fn append(&self, alloc: Global, text: &mut TextBuffer) -> Result<(), NoMemory> {
        self.col.append(alloc, text)?;
        text.push_ascii(direction_words(self.desc))?;
        Ok(())
    }
}
