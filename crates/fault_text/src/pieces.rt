//! Fields and the ends of lines, added to a text that grows.
ghost use Rattle.std.specs.Prelude.{◌≡◌, ◌++◌, OnOk};
ghost use Rattle.mh_units.specs.Money.{money_text};
ghost use Rattle.fault_text.specs.Fields.{field, last_field};

use itoa::{Buffer, Integer};
use mh_units::{Cents, Text, push_cents};
use std::alloc::AllocError;

/// Adds a field that another follows.
pub fn push_field(text: &mut Text, bytes: &[u8]) -> Result<(), AllocError>
    ensures { OnOk result (text.new ≡ text.old ++ field bytes.now) }
{
    text.extend(bytes)?;
    text.push(b'\t')
}

/// Adds the last field of a line.
pub fn push_last(text: &mut Text, bytes: &[u8]) -> Result<(), AllocError>
    ensures { OnOk result (text.new ≡ text.old ++ last_field bytes.now) }
{
    text.extend(bytes)?;
    text.push(b'\n')
}

/// Adds a whole number as a field that another follows.
pub fn push_number<N: Integer>(text: &mut Text, number: N) -> Result<(), AllocError>
    ensures { OnOk result (text.new ≡ text.old ++ field (N.text number)) }
{
    push_field(text, Buffer::new().format(number).as_bytes())
}

/// Adds a whole number as the last field of a line.
pub fn push_last_number<N: Integer>(text: &mut Text, number: N) -> Result<(), AllocError>
    ensures { OnOk result (text.new ≡ text.old ++ last_field (N.text number)) }
{
    push_last(text, Buffer::new().format(number).as_bytes())
}

/// Adds an amount, in cents, as a field that another follows.
pub fn push_amount(text: &mut Text, cents: i64) -> Result<(), AllocError>
    ensures { OnOk result (text.new ≡ text.old ++ field (money_text cents)) }
{
    push_sum(text, i128::from(cents))
}

/// Adds an amount, in cents, that may be a sum of many, as a field that another follows.
pub fn push_sum(text: &mut Text, cents: i128) -> Result<(), AllocError>
    ensures { OnOk result (text.new ≡ text.old ++ field (money_text cents)) }
{
    push_cents(text, Cents(cents))?;
    text.push(b'\t')
}

/// Adds an amount as the last field of a line.
pub fn push_last_amount(text: &mut Text, cents: i128) -> Result<(), AllocError>
    ensures { OnOk result (text.new ≡ text.old ++ last_field (money_text cents)) }
{
    push_cents(text, Cents(cents))?;
    text.push(b'\n')
}
