//! The fields of a record that are read.
ghost use Rattle.std.specs.Prelude.{◌≡◌};
ghost use Rattle.std.specs.Str.{is_utf8};
ghost use Rattle.simm_kinds.specs.Words.{is_word};
ghost use Rattle.crif_records.specs.Fields.{trimmed, text_at, usd_text};
ghost use Rattle.crif_records.specs.Reading.{newest};

use crate::records::Records;
use std::str;

/// Leaves the spaces at both ends off.
fn trim_spaces(field: &[u8]) -> &[u8]
    ensures { result.now ≡ trimmed field.now }
{
    let mut rest = field;
    while let [b' ', inner @ ..] = rest {
        rest = inner;
    }
    while let [inner @ .., b' '] = rest {
        rest = inner;
    }
    rest
}

/// The field of the newest record at this place, without spaces at its ends. A field that is
/// missing at the end is empty.
pub fn text_at<'a>(records: &'a Records, place: usize) -> &'a [u8]
    ensures { result.now ≡ text_at (newest records.now) place }
{
    trim_spaces(records.field(place).unwrap_or(&[]))
}

/// Whether a field is UTF-8.
pub fn is_utf8(field: &[u8]) -> bool
    ensures { result ≡ is_utf8 field.now }
{
    str::from_utf8(field).is_ok()
}

/// Whether a field is the word, in any ASCII case.
pub fn is_word(word: &str, field: &[u8]) -> bool
    ensures { result ≡ is_word word.now field.now }
{
    field.eq_ignore_ascii_case(word.as_bytes())
}

/// The amount in USD, as a record has it: that in USD, or, where it is empty and the amount's
/// currency is USD, the amount.
pub fn usd_text<'a>(amount_usd: &'a [u8], amount_currency: &[u8], amount: &'a [u8]) -> &'a [u8]
    ensures { result.now ≡ usd_text amount_usd.now amount_currency.now amount.now }
{
    if amount_usd.is_empty() && is_word("USD", amount_currency) {
        amount
    } else {
        amount_usd
    }
}
