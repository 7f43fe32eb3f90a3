ghost use Rattle.std.specs.Prelude.{◌≡◌, true, ◌^◌, ◌<◌, ◌≤◌, length, unsigned_abs};
ghost use Rattle.std.specs.Prelude.{IfOk, IfSome, MatchOption};
ghost use Rattle.mh_units.specs.Scan.{is_numeral};
ghost use Rattle.mh_units.specs.Numeral.{fault_number, number_of, cents_of, rate4_of, fixed_of};
ghost use Rattle.mh_units.specs.Numeral.{with_sign, IsAnswer, IsRounded, IsFixed, IsExact};

use crate::parts::take_apart;
use crate::quantities::{Cents, Rate4};
use crate::scan::check;

// The most bytes that a numeral has.
const LONGEST: usize = 64;

// The largest amount of cents, and the largest rate, in size.
const MOST_CENTS: u64 = 1_000_000_000_000_000;

const MOST_RATE: u64 = 1_000_000_000_000;

/// Why a text is no numeral that can be taken, the first that holds.
#[derive(Clone, Copy, Debug, PartialEq, Eq)]
pub enum NumeralFault {
    /// No byte at all.
    Empty,
    /// More than 64 bytes.
    TooLong,
    /// No numeral: the place, from 0, is how many bytes at the front are the front of some numeral.
    BadByte(usize),
    /// The rounded value is above 10^15 in size for cents, above 10^12 for rates.
    TooLarge,
}

impl NumeralFault {
    /// The fault's own number among the faults of a numeral, 1 to 4.
    pub fn number(self) -> u8
        ensures { result ≡ fault_number self }
    {
        match self {
            NumeralFault::Empty => 1,
            NumeralFault::TooLong => 2,
            NumeralFault::BadByte(_) => 3,
            NumeralFault::TooLarge => 4,
        }
    }
}

/// Reads an amount of money in USD. The value is rounded to the nearest cent, halves away
/// from zero.
#[tactic(auto, unfolding(crate::specs::Numeral::cents_of))]
pub fn read_cents(text: &[u8]) -> Result<Cents, NumeralFault>
    ensures value { result ≡ cents_of text.now }
    ensures nearest { IfOk result (λ c. IsRounded 2 text.now c.0) }
    ensures answer { IsAnswer 2 (10 ^ 15) text.now result }
    ensures size { IfOk result (λ c. unsigned_abs c.0 ≤ 10 ^ 15) }
{
    number_of(text, 2, MOST_CENTS).map(|cents| Cents(i128::from(cents)))
}

/// Reads a rate. The value is rounded to the nearest 1/10,000, halves away from zero.
#[tactic(auto, unfolding(crate::specs::Numeral::rate4_of))]
pub fn read_rate4(text: &[u8]) -> Result<Rate4, NumeralFault>
    ensures value { result ≡ rate4_of text.now }
    ensures nearest { IfOk result (λ r. IsRounded 4 text.now r.0) }
    ensures answer { IsAnswer 4 (10 ^ 12) text.now result }
    ensures size { IfOk result (λ r. unsigned_abs r.0 ≤ 10 ^ 12) }
{
    number_of(text, 4, MOST_RATE).map(Rate4)
}

/// Reads a numeral of at most 64 bytes without an exponent and with at most `places` digits behind
/// the point, exactly, in units of the last of those places. None for every other text, and where
/// the value is above 10^12 in size in these units.
pub fn read_fixed(text: &[u8], places: u8) -> Option<i64>
    requires { places ≤ 6 }
    ensures value { result ≡ fixed_of places text.now }
    ensures answer { MatchOption result (¬ IsFixed places text.now)
        (λ n. IsFixed places text.now × IsExact places text.now n) }
    ensures size { IfSome result (λ n. unsigned_abs n ≤ 10 ^ 12) }
{
    let parts = take_apart(text);
    if !parts.rest.is_empty() || parts.fraction.len() > places as usize {
        return None;
    }
    number_of(text, places as usize, MOST_RATE).ok()
}

// The value times `10^places`, rounded to the nearest, at most `most` in size.
fn number_of(text: &[u8], places: usize, most: u64) -> Result<i64, NumeralFault>
    requires few { places ≤ 6 }
    requires small { most ≤ 10 ^ 15 }
    ensures value { result ≡ number_of places most text.now }
    ensures size { IfOk result (λ n. unsigned_abs n ≤ most) }
{
    if text.is_empty() {
        return Err(NumeralFault::Empty);
    }
    if text.len() > LONGEST {
        return Err(NumeralFault::TooLong);
    }
    match check(text) {
        Ok(()) => value_of(text, places, most),
        Err(place) => Err(NumeralFault::BadByte(place)),
    }
}

// The same of a text that is a numeral.
fn value_of(text: &[u8], places: usize, most: u64) -> Result<i64, NumeralFault>
    requires few { places ≤ 6 }
    requires small { most ≤ 10 ^ 15 }
    requires some { 0 < length text.now }
    requires short { length text.now ≤ 64 }
    requires numeral { is_numeral text.now ≡ true }
    ensures value { result ≡ number_of places most text.now }
    ensures size { IfOk result (λ n. unsigned_abs n ≤ most) }
{
    let parts = take_apart(text);
    let size = parts.magnitude(places);
    if size > most {
        return Err(NumeralFault::TooLarge);
    }
    Ok(signed(parts.negative, size))
}

fn signed(negative: bool, size: u64) -> i64
    requires { size ≤ 10 ^ 15 }
    ensures value { result ≡ with_sign negative size }
    ensures size { unsigned_abs result ≡ size }
{
    let size = size as i64;
    if negative { -size } else { size }
}
