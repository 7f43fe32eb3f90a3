ghost use Rattle.std.specs.Prelude.{◌≡◌, ◌+◌, ◌^◌, ◌<◌, ◌≤◌, ◌++◌, min, length};
ghost use Rattle.std.specs.List.{AllByRecursion, prefix_len};
ghost use Rattle.mh_units.specs.Grammar.{IsDigit};
ghost use Rattle.std.specs.Char.{is_ascii_digit};
ghost use Rattle.mh_units.specs.Numeral.{is_minus, after_sign, after_point, after_mark};
ghost use Rattle.mh_units.specs.Numeral.{digits, after_digits, scaled, whole, fraction};
ghost use Rattle.mh_units.specs.Numeral.{after_mantissa, exponent, exponent_digits};

use crate::value::{capped_number, shifted};

// Exponents are counted no further than this, which is past every one that matters.
const FAR: u64 = 1000;

/// A numeral taken apart. Of a text that is no numeral it has what stands in these places.
#[derive(Clone, Copy)]
pub struct Parts<'a> {
    /// Whether a minus stands first.
    pub negative: bool,
    /// The digits before the point.
    pub whole: &'a [u8],
    /// The digits behind it.
    pub fraction: &'a [u8],
    /// What follows these digits: nothing, or an exponent.
    pub rest: &'a [u8],
    /// Whether the exponent has a minus.
    pub exponent_negative: bool,
    /// The digits of the exponent.
    pub exponent: &'a [u8],
}

impl Parts<'_> {
    /// The value times `10^places`, rounded to the nearest, without its sign, counted up
    /// to `ENOUGH`.
    pub fn magnitude(&self, places: usize) -> u64
        requires digits { AllByRecursion IsDigit (self.now.whole.now ++ self.now.fraction.now) }
        requires room { length self.now.whole.now + length self.now.fraction.now ≤ 64 }
        requires few { places ≤ 6 }
        ensures { result ≡ min (scaled places self.now.whole.now self.now.fraction.now
            self.now.exponent_negative self.now.exponent.now) (10 ^ 16) }
    {
        let exponent = capped_number(0, self.exponent, FAR) as usize;
        let down = self.fraction.len();
        if self.exponent_negative {
            shifted(self.whole, self.fraction, places, down + exponent)
        } else {
            shifted(self.whole, self.fraction, places + exponent, down)
        }
    }
}

/// Takes a text apart, from the left.
pub fn take_apart(text: &[u8]) -> Parts<'_>
    ensures negative { result.negative ≡ is_minus text.now }
    ensures whole { result.whole.now ≡ whole text.now }
    ensures fraction { result.fraction.now ≡ fraction text.now }
    ensures rest { result.rest.now ≡ after_mantissa text.now }
    ensures exponent_negative { result.exponent_negative ≡ is_minus (exponent text.now) }
    ensures exponent { result.exponent.now ≡ exponent_digits text.now }
    ensures all_digits { AllByRecursion IsDigit (result.whole.now ++ result.fraction.now) }
    ensures room { length result.whole.now + length result.fraction.now ≤ length text.now }
{
    let (negative, unsigned) = sign(text);
    let (whole, rest) = leading_digits(unsigned);
    let (fraction, rest) = leading_digits(skip_point(rest));
    let (exponent_negative, unsigned) = sign(skip_mark(rest));
    let (exponent, _) = leading_digits(unsigned);
    Parts {
        negative,
        whole,
        fraction,
        rest,
        exponent_negative,
        exponent,
    }
}

// Whether a minus stands first, and what follows a sign.
fn sign(text: &[u8]) -> (bool, &[u8])
    ensures minus { result.0 ≡ is_minus text.now }
    ensures rest { result.1.now ≡ after_sign text.now }
{
    match text {
        [b'-', rest @ ..] => (true, rest),
        [b'+', rest @ ..] => (false, rest),
        _ => (false, text),
    }
}

fn skip_point(text: &[u8]) -> &[u8]
    ensures { result.now ≡ after_point text.now }
{
    match text {
        [b'.', rest @ ..] => rest,
        _ => text,
    }
}

fn skip_mark(text: &[u8]) -> &[u8]
    ensures { result.now ≡ after_mark text.now }
{
    match text {
        [b'E' | b'e', rest @ ..] => rest,
        _ => text,
    }
}

// The digits at the front, and what follows them.
fn leading_digits(text: &[u8]) -> (&[u8], &[u8])
    ensures front { result.0.now ≡ digits text.now }
    ensures rest { result.1.now ≡ after_digits text.now }
{
    text.split_at(digit_count(text))
}

// How many digits stand at the front.
fn digit_count(text: &[u8]) -> usize
    ensures count { result ≡ prefix_len is_ascii_digit text.now }
    ensures within { result ≤ length text.now }
{
    text.iter().take_while(|byte| byte.is_ascii_digit()).count()
}
