//! Rates in text.
ghost use Rattle.std.specs.Prelude.{◌≡◌, ◌++◌, OnOk};
ghost use Rattle.crif_writer.specs.Amounts.{four_digits, size_text, rate_text};

use crif_reader::mh_units::{Rate4, Text};
use itoa::Buffer;
use std::alloc::AllocError;

/// Adds a rate to a text: an optional minus, whole units, a point and four digits, as in `1.5000`.
/// The only error is want of memory; a front of it may have been added then.
#[tactic(auto, unfolding(crate::specs::Amounts::rate_text))]
pub fn push_rate4(text: &mut Text, rate: Rate4) -> Result<(), AllocError>
    ensures { OnOk result (text.new ≡ text.old ++ rate_text rate.0) }
{
    if rate.0 < 0 {
        text.push(b'-')?;
    }
    push_size(text, rate.0.unsigned_abs())
}

// Adds a rate without a sign.
fn push_size(text: &mut Text, size: u64) -> Result<(), AllocError>
    ensures { OnOk result (text.new ≡ text.old ++ size_text size) }
{
    let mut digits = Buffer::new();
    text.extend(digits.format(size / 10_000).as_bytes())?;
    text.push(b'.')?;
    push_four_digits(text, size)
}

// Adds the last four digits of a number.
fn push_four_digits(text: &mut Text, number: u64) -> Result<(), AllocError>
    ensures { OnOk result (text.new ≡ text.old ++ four_digits number) }
{
    let mut digits = Buffer::new();
    text.extend(digits.format(number % 10_000 / 1_000).as_bytes())?;
    text.extend(digits.format(number % 1_000 / 100).as_bytes())?;
    text.extend(digits.format(number % 100 / 10).as_bytes())?;
    text.extend(digits.format(number % 10).as_bytes())
}
