ghost use Rattle.std.specs.Prelude.{◌≡◌, ◌+◌, ◌*◌, ◌<◌, ◌≤◌, ◌^◌, pos, neg_ℤ};
ghost use Rattle.std.specs.Prelude.{◌≤ℤ◌, ◌<ℤ◌, ◌*ℤ◌, unsigned_abs};
ghost use Rattle.mh_units.specs.Rounding.{up, down, away, trunc, root, clamp};
ghost use Rattle.mh_units.specs.Rounding.{IsUp, IsDown, IsAway, IsTrunc, IsRoot};

use crate::quantities::Corr6;

/// `a / b` for `b > 0`, rounded upwards: the least `x` with `x * b >= a`.
pub fn div_up(a: i128, b: i128) -> i128
    requires { pos 0 <ℤ b }
    ensures value { result ≡ up a b }
    ensures least { IsUp a b result }
    ensures size { unsigned_abs result ≤ unsigned_abs a }
{
    if a > 0 { (a - 1) / b + 1 } else { a / b }
}

/// `a / b` for `b > 0`, rounded downwards: the greatest `x` with `x * b <= a`.
pub fn div_down(a: i128, b: i128) -> i128
    requires { pos 0 <ℤ b }
    ensures value { result ≡ down a b }
    ensures greatest { IsDown a b result }
    ensures size { unsigned_abs result ≤ unsigned_abs a }
{
    a.div_euclid(b)
}

/// `a / b` for `b > 0`, rounded away from zero.
pub fn div_away(a: i128, b: i128) -> i128
    requires { pos 0 <ℤ b }
    ensures value { result ≡ away a b }
    ensures rule { IsAway a b result }
    ensures size { unsigned_abs result ≤ unsigned_abs a }
{
    if a < 0 { div_down(a, b) } else { div_up(a, b) }
}

/// `a / b` for `b > 0`, rounded towards zero.
pub fn div_trunc(a: i128, b: i128) -> i128
    requires { pos 0 <ℤ b }
    ensures value { result ≡ trunc a b }
    ensures rule { IsTrunc a b result }
    ensures size { unsigned_abs result ≤ unsigned_abs a }
{
    a / b
}

/// The product of two correlations of -1,000,000 to 1,000,000 each, rounded towards zero. It is a
/// correlation again.
pub fn mul_corr(a: Corr6, b: Corr6) -> Corr6
    requires first { unsigned_abs a.0 ≤ 1000000 }
    requires second { unsigned_abs b.0 ≤ 1000000 }
    ensures value { result.0 ≡ trunc (a.0 *ℤ b.0) (pos 1000000) }
    ensures rule { IsTrunc (a.0 *ℤ b.0) (pos 1000000) result.0 }
    ensures size { unsigned_abs result.0 ≤ 1000000 }
{
    Corr6(a.0 * b.0 / Corr6::ONE.0)
}

/// `x` held between `-k` and `k`, for `k >= 0`.
pub fn clamp_to(x: i128, k: i128) -> i128
    requires { pos 0 ≤ℤ k }
    ensures value { result ≡ clamp x k }
    ensures low { neg_ℤ k ≤ℤ result }
    ensures high { result ≤ℤ k }
{
    x.min(k).max(-k)
}

/// The square root of an `n` of at most 10^38, rounded upwards: the least `x` with `x * x >= n`.
pub fn least_root(n: u128) -> u128
    requires { n ≤ 10 ^ 38 }
    ensures value { pos result ≡ root (pos n) }
    ensures least { IsRoot (pos n) (pos result) }
    ensures size { result ≤ 10 ^ 19 }
{
    let below = root_down(n);
    if below * below == n { below } else { below + 1 }
}

// The square root rounded downwards. The root of a number that fits 64 bits takes half the steps.
fn root_down(n: u128) -> u128
    ensures square_le { result * result ≤ n }
    ensures next_square_gt { n < (result + 1) * (result + 1) }
{
    match u64::try_from(n) {
        Ok(small) => u128::from(small.isqrt()),
        Err(_) => n.isqrt(),
    }
}
