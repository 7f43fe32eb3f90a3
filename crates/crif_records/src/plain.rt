//! The records of bytes without quotes, cut in place.
ghost use Rattle.std.specs.Prelude.{◌≡◌, ◌∷◌, ◌<◌, [], false, length, option_map};
ghost use Rattle.std.specs.Prelude.{if◌then◌else◌, IfOk, OnOk, IsTrue};
ghost use Rattle.std.specs.Str.{IsAscii};
ghost use Rattle.std.specs.List.{position_or_len, AllByRecursion};
ghost use Rattle.csv.specs.Reading.{records};
ghost use Rattle.csv.specs.Records.{field_at};
ghost use Rattle.crif_records.specs.Plain.{has_quote, is_line_end, ends_field};
ghost use Rattle.crif_records.specs.Plain.{without_leading_line_ends, plain_left, plain_fields};
ghost use Rattle.crif_records.specs.Plain.{IsPlain, TakesField};
ghost use Rattle.crif_records.specs.Records.{csv_by};

use memchr::memchr;
use std::alloc::{AllocError, Global};

/// The room for fields that is taken at first: a header and rows mostly fit into it.
const FIELDS: usize = 16;

/// The bytes that are left, the byte between fields, and the fields of the newest record, which
/// the bytes lend.
#[derive(Drop)]
pub struct PlainRecords<'a> {
    rest: &'a [u8],
    delimiter: u8,
    // whether all bytes are known to be ASCII
    is_ascii: bool,
    fields: Vec<&'a [u8]>,
}

/// Whether a quote stands in the bytes.
pub fn has_quote(bytes: &[u8]) -> bool
    ensures { result ≡ has_quote bytes.now }
{
    memchr(b'"', bytes).is_some()
}

fn is_line_end(byte: u8) -> bool
    ensures { result ≡ is_line_end byte }
{
    byte == b'\r' || byte == b'\n'
}

/// How many bytes stand before the first delimiter or line end.
fn field_len(bytes: &[u8], delimiter: u8) -> usize
    ensures { result ≡ position_or_len (ends_field delimiter) bytes.now }
{
    for (place, byte) in bytes.iter().enumerate() {
        if *byte == delimiter || is_line_end(*byte) {
            return place;
        }
    }
    bytes.len()
}

/// Leaves the line ends at the start off.
fn without_leading_line_ends(bytes: &[u8]) -> &[u8]
    ensures { result.now ≡ without_leading_line_ends bytes.now }
{
    let mut rest = bytes;
    while let [b'\r' | b'\n', inner @ ..] = rest {
        rest = inner;
    }
    rest
}

impl<'a> PlainRecords<'a> {
    /// The records of bytes with this byte between fields, before the first. The only error is
    /// want of memory.
    pub fn new(alloc: Global, bytes: &'a [u8], delimiter: u8) -> Result<Self, AllocError>
        requires { has_quote bytes.now ≡ false }
        ensures plain { IfOk result (λ plain. IsPlain plain) }
        ensures records { IfOk result (λ plain.
            plain_left plain ≡ records (csv_by delimiter) bytes.now) }
    {
        Ok(PlainRecords {
            rest: bytes,
            delimiter,
            is_ascii: bytes.is_ascii(),
            fields: Vec::with_capacity(alloc, FIELDS)?,
        })
    }

    /// Takes the field at the front, and answers whether another follows it in its record.
    fn take_field(&mut self) -> Result<bool, AllocError>
        requires { IsPlain self.old }
        ensures field { IfOk result (λ more. TakesField more self.old self.new) }
        ensures plain { OnOk result (IsPlain self.new) }
        ensures delimiter { OnOk result (self.new.delimiter ≡ self.old.delimiter) }
        ensures shorter { IfOk result (λ more.
            IsTrue more → length self.new.rest.now < length self.old.rest.now) }
    {
        let (field, after) = self.rest.split_at(field_len(self.rest, self.delimiter));
        self.fields.push(field)?;
        let [end, rest @ ..] = after else {
            self.rest = after;
            return Ok(false);
        };
        self.rest = rest;
        Ok(*end == self.delimiter)
    }

    /// Reads the next record, and answers whether there was one. The only error is want of memory.
    pub fn next_record(&mut self) -> Result<bool, AllocError>
        requires { IsPlain self.old }
        ensures record { IfOk result (λ found. plain_left self.old
            ≡ (if found then plain_fields self.new ∷ plain_left self.new else [])) }
        ensures plain { OnOk result (IsPlain self.new) }
    {
        self.fields.clear();
        self.rest = without_leading_line_ends(self.rest);
        if self.rest.is_empty() {
            return Ok(false);
        }
        while self.take_field()? {}
        Ok(true)
    }

    /// How many fields the newest record has.
    pub fn field_count(&self) -> usize
        ensures { result ≡ length (plain_fields self.now) }
    {
        self.fields.len()
    }

    /// The field of the newest record at this place.
    pub fn field(&self, place: usize) -> Option<&[u8]>
        ensures { option_map (λ f. f.now) result ≡ field_at (plain_fields self.now) place }
    {
        self.fields.get(place).copied()
    }

    /// Whether all bytes are known to be ASCII.
    pub fn is_ascii(&self) -> bool
        requires { IsPlain self.now }
        ensures { IsTrue result → AllByRecursion IsAscii (plain_fields self.now) }
    {
        self.is_ascii
    }
}
