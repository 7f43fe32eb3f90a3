//! The fields of a line, with tabs between.
ghost use Rattle.std.specs.Prelude.{◌≡◌, ◌++◌, ◌∷◌, OnOk, decimal};
ghost use Rattle.feed_reader.specs.MhUnits.Money.{money_text};
ghost use Rattle.feed_reader.specs.CsaTerms.Moments.{moment_text};
ghost use Rattle.feed_writer.specs.Messages.{currency_word, next_field};

use feed_reader::csa_terms::simm_kinds::Name;
use feed_reader::csa_terms::{LotCurrency, Moment, push_moment};
use feed_reader::mh_units::{Cents, Text, push_cents};
use itoa::Buffer;
use std::alloc::AllocError;

/// Adds the first two fields of a message: its word and its set.
pub(crate) fn push_start(text: &mut Text, word: &[u8], set: &Name) -> Result<(), AllocError>
    ensures { OnOk result (text.new ≡ text.old ++ (word.now ++ next_field set.now)) }
{
    text.extend(word)?;
    push_next(text, set.bytes())
}

/// Adds a field behind another.
pub(crate) fn push_next(text: &mut Text, field: &[u8]) -> Result<(), AllocError>
    ensures { OnOk result (text.new ≡ text.old ++ next_field field.now) }
{
    text.push(b'\t')?;
    text.extend(field)
}

/// Adds an amount of money behind another field.
pub(crate) fn push_amount(text: &mut Text, value: i64) -> Result<(), AllocError>
    ensures { OnOk result (text.new ≡ text.old ++ next_field (money_text value)) }
{
    text.push(b'\t')?;
    push_cents(text, Cents(i128::from(value)))
}

/// Adds a number behind another field.
pub(crate) fn push_number(text: &mut Text, number: u32) -> Result<(), AllocError>
    ensures { OnOk result (text.new ≡ text.old ++ next_field (decimal number)) }
{
    let mut digits = Buffer::new();
    push_next(text, digits.format(number).as_bytes())
}

/// Adds the word of a lot's currency behind another field.
pub(crate) fn push_currency(text: &mut Text, currency: LotCurrency) -> Result<(), AllocError>
    ensures { OnOk result (text.new ≡ text.old ++ next_field (currency_word currency)) }
{
    match currency {
        LotCurrency::Same => push_next(text, b"same"),
        LotCurrency::Other => push_next(text, b"other"),
    }
}

/// Adds the time of a demand behind another field.
pub(crate) fn push_time(text: &mut Text, moment: Moment) -> Result<(), AllocError>
    ensures { OnOk result (text.new ≡ text.old ++ next_field (moment_text moment)) }
{
    text.push(b'\t')?;
    push_moment(text, moment)
}
