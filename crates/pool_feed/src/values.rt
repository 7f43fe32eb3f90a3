//! The amounts that fields are, in cents.
ghost use Rattle.std.specs.Prelude.{◌≡◌, ◌≤◌, ◌^◌, pos, ◌≤ℤ◌, IfSome};
ghost use Rattle.pool_feed.specs.Values.{margin, some_amount};

use feed_reader::cents_in;

/// The cents of a numeral that isn't negative, at most 10^15; `None` of another text.
pub(crate) fn margin_in(field: &[u8]) -> Option<i64>
    ensures value { result ≡ margin field.now }
    ensures from { IfSome result (λ cents. pos 0 ≤ℤ cents) }
    ensures to { IfSome result (λ cents. cents ≤ℤ pos (10 ^ 15)) }
{
    let cents = cents_in(field)?;
    if cents < 0 {
        return None;
    }
    Some(cents)
}

/// The cents of a numeral of at least one cent, at most 10^15; `None` of another text. It takes
/// no memory.
pub fn amount_in(field: &[u8]) -> Option<u64>
    ensures value { result ≡ some_amount field.now }
    ensures from { IfSome result (λ cents. 1 ≤ cents) }
    ensures to { IfSome result (λ cents. cents ≤ 10 ^ 15) }
{
    let cents = cents_in(field)?;
    if cents < 1 {
        return None;
    }
    Some(cents as u64)
}
