ghost use Rattle.std.specs.Prelude.{◌≡◌, ◌≤◌, IfOk, OnOk};
ghost use Rattle.toml_values.specs.Paths.{path_of};
ghost use Rattle.toml_values.specs.Answers.{Gives};
ghost use Rattle.toml_values.specs.Ranges.{IsWithin, dollars_in_cents};
ghost use Rattle.toml_values.specs.Values.{found, in_range, fixed_at};
ghost use Rattle.toml_values.specs.Values.{rate_of, six_of, money_of, usd_of};

use crate::fault::ValueFault;
use crate::kind::text;
use crate::path::{Part, path_text};
use crate::range::{DOLLARS, Range};
use simm_kinds::mh_units::{Cents, Corr6, Rate4, read_cents, read_fixed};
use std::alloc::Global;
use toml::Value;

/// Refuses a number out of the range, with the number.
fn check_range(
    alloc: Global,
    path: &[Part<'_>],
    range: Range,
    number: i128,
) -> Result<(), ValueFault>
    ensures value { Gives (λ u. number) result (in_range (path_of path.now) range number) }
    ensures within { OnOk result (IsWithin range number) }
{
    if range.contains(number) {
        Ok(())
    } else {
        Err(ValueFault::OutOfRange(path_text(alloc, path)?, number))
    }
}

/// A number in the range, of at most `places` digits behind the point, in units of that last place.
#[tactic(auto, unfolding(crate::specs::Values::fixed_at))]
fn fixed(
    alloc: Global,
    path: &[Part<'_>],
    value: Option<&Value>,
    range: Range,
    places: u8,
) -> Result<i64, ValueFault>
    requires { places ≤ 6 }
    ensures value { Gives (λ n. n) result
        (fixed_at places (path_of path.now) range (found value.entry)) }
    ensures within { IfOk result (IsWithin range) }
{
    let text = text(alloc, path, value)?;
    let Some(number) = read_fixed(text.as_bytes(), places) else {
        return Err(ValueFault::BadNumber(path_text(alloc, path)?));
    };
    check_range(alloc, path, range, i128::from(number))?;
    Ok(number)
}

/// A rate in the range: a text that is a numeral without an exponent, with at most four digits
/// behind the point. Another text is `BadNumber`, a number out of the range `OutOfRange` in
/// ten-thousandths, any other value `Missing`.
pub fn rate(
    alloc: Global,
    path: &[Part<'_>],
    value: Option<&Value>,
    range: Range,
) -> Result<Rate4, ValueFault>
    ensures value { Gives (λ r. r.0) result (rate_of (path_of path.now) range (found value.entry)) }
    ensures within { IfOk result (λ r. IsWithin range r.0) }
{
    Ok(Rate4(fixed(alloc, path, value, range, 4)?))
}

/// A six in the range: like a rate, with at most six digits behind the point, in millionths.
pub fn six(
    alloc: Global,
    path: &[Part<'_>],
    value: Option<&Value>,
    range: Range,
) -> Result<Corr6, ValueFault>
    ensures value { Gives (λ s. s.0) result (six_of (path_of path.now) range (found value.entry)) }
    ensures within { IfOk result (λ s. IsWithin range s.0) }
{
    Ok(Corr6(fixed(alloc, path, value, range, 6)?))
}

/// An amount of money in the range: a text that is any numeral. Another text is `BadNumber`,
/// one too large to read too; an amount out of the range is `OutOfRange` in cents, any other
/// value `Missing`.
#[tactic(auto, unfolding(crate::specs::Values::money_of))]
pub fn money(
    alloc: Global,
    path: &[Part<'_>],
    value: Option<&Value>,
    range: Range,
) -> Result<Cents, ValueFault>
    ensures value { Gives (λ c. c.0) result
        (money_of (path_of path.now) range (found value.entry)) }
    ensures within { IfOk result (λ c. IsWithin range c.0) }
{
    let text = text(alloc, path, value)?;
    let Ok(cents) = read_cents(text.as_bytes()) else {
        return Err(ValueFault::BadNumber(path_text(alloc, path)?));
    };
    check_range(alloc, path, range, cents.0)?;
    Ok(cents)
}

/// An amount of USD in cents, which the file has as an integer of 1 to 10,000,000,000,000 whole
/// dollars. Another integer is `OutOfRange` in whole dollars, any other value `Missing`.
#[tactic(auto, unfolding(crate::specs::Values::usd_of))]
pub fn usd(alloc: Global, path: &[Part<'_>], value: Option<&Value>) -> Result<i64, ValueFault>
    ensures value { Gives (λ c. c) result (usd_of (path_of path.now) (found value.entry)) }
    ensures within { IfOk result (IsWithin dollars_in_cents) }
{
    let Some(whole) = value.and_then(Value::as_integer) else {
        return Err(ValueFault::Missing(path_text(alloc, path)?));
    };
    check_range(alloc, path, DOLLARS, i128::from(whole))?;
    Ok(100 * whole)
}
