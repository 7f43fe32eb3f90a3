//! The records of a file: cut in place where it has no quotes, else by csv.
ghost use Rattle.std.specs.Prelude.{◌≡◌, ◌∷◌, [], true, length, option_map};
ghost use Rattle.std.specs.Prelude.{if◌then◌else◌, IfOk, IsTrue};
ghost use Rattle.std.specs.List.{AllByRecursion};
ghost use Rattle.std.specs.Str.{IsAscii};
ghost use Rattle.csv.specs.Reading.{error_kind, stops_reader, strip_bom};
ghost use Rattle.csv.specs.Records.{field_at, fields_of};
ghost use Rattle.crif_records.specs.Records.{has_tab, delimiter_of, records_of, reader_left};
ghost use Rattle.crif_records.specs.Records.{IsBetweenRecords};
ghost use Rattle.crif_records.specs.Reading.{newest, records_left, IsReading};

use crate::plain::{PlainRecords, has_quote};
use csv::{ByteRecord, Error, Reader, ReaderBuilder};
use std::alloc::{AllocError, Global};

/// The byte order mark in UTF-8.
const BYTE_ORDER_MARK: [u8; 3] = [0xEF, 0xBB, 0xBF];

/// The room that a record's bytes and fields are given at first: a header and rows mostly fit
/// into it.
const RECORD_BYTES: usize = 256;

const RECORD_FIELDS: usize = 16;

/// The records that are left, and the newest of those that were read. csv's reader is large
/// and dear to make, so that bytes without quotes are read without it, and their fields are
/// not copied.
#[derive(Drop)]
pub enum Records<'a> {
    /// Bytes with quotes, as csv reads them.
    Quoted(Box<QuotedRecords<'a>>),
    /// Bytes without quotes, cut in place.
    Plain(PlainRecords<'a>),
}

/// csv's reader, and the newest record that it read.
#[derive(Drop)]
pub struct QuotedRecords<'a> {
    reader: Reader<&'a [u8]>,
    newest: ByteRecord,
}

/// Whether a tab stands before the first LF.
fn has_tab(bytes: &[u8]) -> bool
    ensures { result ≡ has_tab bytes.now }
{
    for byte in bytes {
        match *byte {
            b'\n' => return false,
            b'\t' => return true,
            _ => {}
        }
    }
    false
}

/// The byte between fields: a tab where the first line has one, else a comma.
fn delimiter_of(bytes: &[u8]) -> u8
    ensures { result ≡ delimiter_of bytes.now }
{
    if has_tab(bytes) { b'\t' } else { b',' }
}

/// Leaves a byte order mark at the start off.
fn strip_bom(bytes: &[u8]) -> &[u8]
    ensures { result.now ≡ strip_bom bytes.now }
{
    bytes.strip_prefix(&BYTE_ORDER_MARK).unwrap_or(bytes)
}

/// csv's reader at the first record. Records may have different lengths, and the first is one like
/// the others.
#[tactic(auto, unfolding(crate::specs::Records::records_of, crate::specs::Records::reader_left))]
fn open_reader(alloc: Global, bytes: &[u8]) -> Reader<&[u8]>
    ensures reading { IsBetweenRecords result }
    ensures records { reader_left result ≡ records_of bytes.now }
{
    ReaderBuilder::new()
        .has_headers(false)
        .flexible(true)
        .delimiter(delimiter_of(bytes))
        .from_reader(alloc, bytes)
}

/// Want of memory: it alone ends the reading of bytes that lie in memory.
fn stopped(_error: Error) -> AllocError
    requires { stops_reader (error_kind _error) ≡ true }
{
    AllocError
}

impl QuotedRecords<'_> {
    /// Reads csv's next record, and answers whether there was one. The only error is want
    /// of memory.
    fn next_record(&mut self) -> Result<bool, AllocError>
        requires { IsBetweenRecords self.old.reader }
        ensures record { IfOk result (λ found. reader_left self.old.reader
            ≡ (if found then fields_of self.new.newest ∷ reader_left self.new.reader else [])) }
        ensures reading { IfOk result (λ found. IsTrue found → IsBetweenRecords self.new.reader) }
    {
        match self.reader.read_byte_record(&mut self.newest) {
            Ok(found) => Ok(found),
            Err(error) => Err(stopped(error)),
        }
    }
}

impl<'a> Records<'a> {
    /// The records of a file, before the first. The only error is want of memory.
    #[tactic(auto, unfolding(crate::specs::Records::records_of))]
    pub fn open(alloc: Global, bytes: &'a [u8]) -> Result<Records<'a>, AllocError>
        ensures reading { IfOk result (λ records. IsReading records) }
        ensures records { IfOk result (λ records. records_left records ≡ records_of bytes.now) }
    {
        if has_quote(bytes) {
            return Records::open_quoted(alloc, bytes);
        }
        let rest = strip_bom(bytes);
        Ok(Records::Plain(PlainRecords::new(alloc, rest, delimiter_of(bytes))?))
    }

    /// The records that csv reads. It stands apart, so that the reader's size is paid for only
    /// where it is needed.
    #[inline(never)]
    fn open_quoted(alloc: Global, bytes: &'a [u8]) -> Result<Records<'a>, AllocError>
        ensures reading { IfOk result (λ records. IsReading records) }
        ensures records { IfOk result (λ records. records_left records ≡ records_of bytes.now) }
    {
        let newest = ByteRecord::with_capacity(alloc, RECORD_BYTES, RECORD_FIELDS)?;
        let reader = open_reader(alloc, bytes);
        Ok(Records::Quoted(Box::new(alloc, QuotedRecords { reader, newest })?))
    }

    /// Reads the next record, and answers whether there was one. The only error is want of memory.
    pub fn next_record(&mut self) -> Result<bool, AllocError>
        requires { IsReading self.old }
        ensures record { IfOk result (λ found. records_left self.old
            ≡ (if found then newest self.new ∷ records_left self.new else [])) }
        ensures reading { IfOk result (λ found. IsTrue found → IsReading self.new) }
    {
        match self {
            Records::Quoted(quoted) => quoted.next_record(),
            Records::Plain(plain) => plain.next_record(),
        }
    }

    /// How many fields the newest record has.
    pub fn field_count(&self) -> usize
        ensures { result ≡ length (newest self.now) }
    {
        match self {
            Records::Quoted(quoted) => quoted.newest.len(),
            Records::Plain(plain) => plain.field_count(),
        }
    }

    /// The field of the newest record at this place.
    pub fn field(&self, place: usize) -> Option<&[u8]>
        ensures { option_map (λ f. f.now) result ≡ field_at (newest self.now) place }
    {
        match self {
            Records::Quoted(quoted) => quoted.newest.get(place),
            Records::Plain(plain) => plain.field(place),
        }
    }

    /// Whether the fields of the newest record are known to be ASCII.
    pub fn is_ascii(&self) -> bool
        requires { IsReading self.now }
        ensures { IsTrue result → AllByRecursion IsAscii (newest self.now) }
    {
        match self {
            Records::Quoted(quoted) => quoted.newest.as_slice().is_ascii(),
            Records::Plain(plain) => plain.is_ascii(),
        }
    }
}
