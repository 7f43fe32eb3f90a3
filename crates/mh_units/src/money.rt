ghost use Rattle.std.specs.Prelude.{◌≡◌, ◌++◌, IfOk, OnOk};
ghost use Rattle.mh_units.specs.Money.{money_text, amount_text};

use crate::bytes::Text;
use crate::quantities::Cents;
use itoa::Buffer;
use std::alloc::{AllocError, Global};

/// Writes the cents as an amount of money: an optional minus, whole units, a point and two digits,
/// as in `-1.00`. The only error is want of memory.
pub fn write_cents(alloc: Global, c: Cents) -> Result<Text, AllocError>
    ensures { IfOk result (λ text. text ≡ money_text c.0) }
{
    let mut text = Text::new(alloc);
    push_cents(&mut text, c)?;
    Ok(text)
}

/// Adds the cents to a text, as `write_cents` writes them. The only error is want of memory; a
/// front of them may have been added then.
#[tactic(auto, unfolding(crate::specs::Money::money_text))]
pub fn push_cents(text: &mut Text, c: Cents) -> Result<(), AllocError>
    ensures { OnOk result (text.new ≡ text.old ++ money_text c.0) }
{
    if c.0 < 0 {
        text.push(b'-')?;
    }
    push_amount(text, c.0.unsigned_abs())
}

// Adds an amount without a sign.
fn push_amount(text: &mut Text, size: u128) -> Result<(), AllocError>
    ensures { OnOk result (text.new ≡ text.old ++ amount_text size) }
{
    let mut digits = Buffer::new();
    text.extend(digits.format(size / 100).as_bytes())?;
    text.push(b'.')?;
    text.extend(digits.format(size % 100 / 10).as_bytes())?;
    text.extend(digits.format(size % 10).as_bytes())
}
