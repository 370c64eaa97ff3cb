//! A table of the board file and its path: reads a field, or names it where it is wrong.
//!
//! A path is put together only where a field is wrong, or for the entries of a list.
ghost use Rattle.std.specs.Prelude.{◌≡◌, ◌<◌, false, ◌≤◌, None, IfOk, IfSome, length, map, option_map, option_and_then, option_copied, string_bytes, vec_len};
ghost use Rattle.std.specs.List.{list_any};
ghost use Rattle.std.specs.Str.{bytes_eq};
ghost use Rattle.toml.specs.Data.{get_member, as_bool, no_items};
ghost use Rattle.toml.specs.View.{view, array_view, table_view};
ghost use Rattle.tx_types.specs.Limits.{name_limit};
ghost use Rattle.board_file.specs.Answer.{Names, Reads, ReadsAs};
ghost use Rattle.board_file.specs.Field.{named, required, optional, forbidden, in_range, name_of, text_within, array_within, table_at, nothing_else};
ghost use Rattle.board_file.specs.Path.{entry_path, key_path};
ghost use Rattle.board_file.specs.Part.{part_view, entries_view};

use crate::fields;
use crate::refusal::BoardErr;
use crate::text::{Path, PathText};
use itoa::Buffer;
use std::alloc::{AllocError, Global};
use toml::value::Array;
use toml::{Table, Value};
use tx_types::Name;

/// A table of the board file, and its path; that of the whole file is empty.
#[derive(Clone, Copy)]
pub(crate) struct Part<'a> {
    pub alloc: Global,
    pub path: &'a str,
    pub fields: &'a Table,
}

/// The path of a key in the table of a path.
fn key_path(alloc: Global, path: &str, key: &str) -> Result<Path, AllocError>
    ensures { IfOk result (λ p. p ≡ key_path path.now key.now) }
{
    if path.len() == 0 {
        return Ok(Path::new(String::from_str(alloc, key)?));
    }
    let mut text = String::from_str(alloc, path)?;
    text.push_str(".")?;
    text.push_str(key)?;
    Ok(Path::new(text))
}

/// The refusal of a key in the table of a path.
pub(crate) fn wrong(alloc: Global, path: &str, key: &str) -> BoardErr
    ensures { Names (key_path path.now key.now) result }
{
    match key_path(alloc, path, key) {
        Ok(p) => BoardErr::Field(p),
        Err(_) => BoardErr::NoMemory,
    }
}

/// The value of a field, or its refusal where it has none.
fn named<T>(alloc: Global, path: &str, key: &str, value: Option<T>) -> Result<T, BoardErr>
    ensures { Reads (named (key_path path.now key.now) value) result }
{
    match value {
        Some(x) => Ok(x),
        None => Err(wrong(alloc, path, key)),
    }
}

impl<'a> Part<'a> {
    /// What stands at a key.
    pub(crate) fn field(&self, key: &str) -> Option<&'a Value>
        ensures { option_map (λ v. view v.now) result
            ≡ get_member key.now (table_view self.now.fields.now) }
    {
        self.fields.get(key)
    }

    /// The refusal of a key.
    pub(crate) fn wrong(&self, key: &str) -> BoardErr
        ensures { Names (key_path (part_view self.now).path key.now) result }
    {
        wrong(self.alloc, self.path, key)
    }

    /// An integer from low to high that the step divides.
    pub(crate) fn number(&self, key: &str, low: u32, high: u32, step: u32) -> Result<u32, BoardErr>
        requires { 0 < step }
        ensures { Reads (required (in_range low high step) (part_view self.now) key.now) result }
    {
        let number = match self.field(key) {
            Some(value) => fields::in_range(value, low, high, step),
            None => None,
        };
        named(self.alloc, self.path, key, number)
    }

    /// An integer from low to high that the step divides; where it is missing, it is another number.
    pub(crate) fn number_or(
        &self,
        key: &str,
        absent: u32,
        low: u32,
        high: u32,
        step: u32,
    ) -> Result<u32, BoardErr>
        requires { 0 < step }
        ensures { Reads (optional absent (in_range low high step) (part_view self.now) key.now)
            result }
    {
        let number = match self.field(key) {
            Some(value) => fields::in_range(value, low, high, step),
            None => Some(absent),
        };
        named(self.alloc, self.path, key, number)
    }

    /// A boolean; false where it is missing.
    pub(crate) fn flag(&self, key: &str) -> Result<bool, BoardErr>
        ensures { Reads (optional false as_bool (part_view self.now) key.now) result }
    {
        let flag = match self.field(key) {
            Some(value) => value.as_bool(),
            None => Some(false),
        };
        named(self.alloc, self.path, key, flag)
    }

    /// What stands at a key, where it is a name.
    pub(crate) fn name_text(&self, key: &str) -> Option<&'a str>
        ensures value { option_copied result
            ≡ option_and_then name_of (get_member key.now (part_view self.now).fields) }
        ensures short { IfSome result (λ t. length t.now ≤ name_limit) }
    {
        match self.field(key) {
            Some(value) => fields::name_of(value),
            None => None,
        }
    }

    /// A string that is a name.
    pub(crate) fn name(&self, key: &str) -> Result<Name, BoardErr>
        ensures { Reads (required name_of (part_view self.now) key.now) result }
    {
        match self.name_text(key) {
            Some(text) => Ok(Name::from_bytes(text.as_bytes())),
            None => Err(self.wrong(key)),
        }
    }

    /// A string of 1 to the given number of bytes.
    pub(crate) fn text(&self, key: &str, most: usize) -> Result<PathText, BoardErr>
        ensures { Reads (required (text_within most) (part_view self.now) key.now) result }
    {
        let text = match self.field(key) {
            Some(value) => fields::text_within(value, most),
            None => None,
        };
        match text {
            Some(text) => Ok(PathText::new(String::from_str(self.alloc, text)?)),
            None => Err(self.wrong(key)),
        }
    }

    /// An array of low to high entries.
    pub(crate) fn array(&self, key: &str, low: usize, high: usize) -> Result<&'a Array, BoardErr>
        ensures array { ReadsAs (λ v. array_view v.now)
            (required (array_within low high) (part_view self.now) key.now) result }
        ensures within { IfOk result (λ v. vec_len v.now ≤ high) }
    {
        let array = match self.field(key) {
            Some(value) => fields::array_within(value, low, high),
            None => None,
        };
        match array {
            Some(array) => Ok(array),
            None => Err(self.wrong(key)),
        }
    }

    /// An array of the given number of entries at most, if there is one.
    pub(crate) fn optional_array(
        &self,
        key: &str,
        high: usize,
    ) -> Result<Option<&'a Array>, BoardErr>
        ensures { ReadsAs entries_view
            (optional no_items (array_within 0 high) (part_view self.now) key.now) result }
    {
        let value = match self.field(key) {
            Some(value) => value,
            None => return Ok(None),
        };
        match fields::array_within(value, 0, high) {
            Some(array) => Ok(Some(array)),
            None => Err(self.wrong(key)),
        }
    }

    /// Refuses a field that is there.
    pub(crate) fn forbidden(&self, key: &str) -> Result<(), BoardErr>
        ensures { Reads (forbidden (part_view self.now) key.now) result }
    {
        match self.field(key) {
            Some(_) => Err(self.wrong(key)),
            None => Ok(()),
        }
    }

    /// Refuses the first key that isn't among these.
    pub(crate) fn nothing_else(&self, known: &[&str]) -> Result<(), BoardErr>
        ensures { Reads (nothing_else (map (λ k. k.now) known.now) (part_view self.now)) result }
    {
        for (key, _value) in self.fields.iter() {
            if !is_among(key.as_str(), known) {
                return Err(self.wrong(key.as_str()));
            }
        }
        Ok(())
    }
}

/// Whether a key is one of these.
fn is_among(key: &str, known: &[&str]) -> bool
    ensures { result ≡ list_any (λ k. bytes_eq key.now k.now) known.now }
{
    known.iter().any(|k| key == *k)
}

/// The path of an entry of a list.
pub(crate) fn entry_path(alloc: Global, key: &str, i: usize) -> Result<String, AllocError>
    ensures { IfOk result (λ p. string_bytes p ≡ entry_path key.now i) }
{
    let mut buffer = Buffer::new();
    let mut text = String::from_str(alloc, key)?;
    text.push_str("[")?;
    text.push_str(buffer.format(i))?;
    text.push_str("]")?;
    Ok(text)
}

/// The table that an entry of a list is.
pub(crate) fn table_at<'a>(
    alloc: Global,
    path: &'a str,
    value: &'a Value,
) -> Result<Part<'a>, BoardErr>
    ensures { ReadsAs part_view (table_at path.now (view value.now)) result }
{
    match value.as_table() {
        Some(fields) => Ok(Part {
            alloc,
            path,
            fields,
        }),
        None => Err(wrong(alloc, "", path)),
    }
}
