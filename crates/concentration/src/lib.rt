//! How concentrated a position is: the concentration factor of a net sensitivity over its
//! threshold, the ratio of two such factors, and the product of two correlations. All are in
//! millionths, and nothing here takes memory.
//! (ISDA SIMM methodology, concentration risk factors and correlations.)
#![tactic(auto)]

ghost use Rattle.std.specs.Prelude.{◌≡◌, ◌*◌, ◌≤◌, ◌^◌, pos, ◌≤ℤ◌, ◌<ℤ◌, ◌*ℤ◌, unsigned_abs};
ghost use Rattle.std.specs.Bool.{OnTrue};
ghost use Rattle.simm_rules.specs.MhUnits.Rounding.{down, root, up};
ghost use Rattle.simm_rules.specs.Concentration.{IsConcentration, one};
ghost use Rattle.simm_rules.specs.Concentration.{cr as cr_of, ratio as ratio_of};
ghost use Rattle.simm_rules.specs.Bucket.{combined};

use simm_rules::mh_units::{Corr6, div_up, least_root, mul_corr};

// The bits of a guessed quotient.
const LOW_BITS: u64 = 0xffff_ffff;

/// The concentration factor of a net sensitivity over its threshold, both in cents: the least `c`
/// from 1 on with `c * c * threshold` at least the size of `net`, to the millionth. Up to the
/// threshold it takes no root.
pub fn cr(net: i128, threshold: i64) -> Corr6
    requires positive { pos 1 ≤ℤ threshold }
    requires threshold_in_range { threshold ≤ℤ pos (10 ^ 15) }
    requires net_in_range { unsigned_abs net ≤ 120000 * unsigned_abs threshold }
    ensures value { result.0 ≡ cr_of net threshold }
    ensures least { IsConcentration net threshold result.0 }
    ensures from_one { one ≤ℤ result.0 }
    ensures below { result.0 <ℤ pos 347000000 }
{
    let size = net.unsigned_abs();
    if size <= threshold as u128 {
        return Corr6::ONE;
    }
    let root = root_of_ratio(size, i128::from(threshold));
    Corr6(Corr6::ONE.0.max(root as i64))
}

/// The lesser of two concentration factors over the greater, rounded down: how alike two
/// concentrations are. Two equal factors take no division.
pub fn ratio(a: Corr6, b: Corr6) -> Corr6
    requires first_from_one { one ≤ℤ a.0 }
    requires first_below { a.0 <ℤ pos 347000000 }
    requires second_from_one { one ≤ℤ b.0 }
    requires second_below { b.0 <ℤ pos 347000000 }
    ensures value { result.0 ≡ ratio_of a.0 b.0 }
    ensures not_negative { pos 0 ≤ℤ result.0 }
    ensures at_most_one { result.0 ≤ℤ one }
{
    if a.0 == b.0 {
        return Corr6::ONE;
    }
    Corr6(quotient_below_one(a.0.min(b.0), a.0.max(b.0)))
}

/// The product of two correlations, rounded towards zero. Where `f` is 1 it takes no division.
pub fn combine(rho: Corr6, f: Corr6) -> Corr6
    requires first { unsigned_abs rho.0 ≤ 1000000 }
    requires second { unsigned_abs f.0 ≤ 1000000 }
    ensures value { result.0 ≡ combined rho.0 f.0 }
    ensures size { unsigned_abs result.0 ≤ 1000000 }
{
    if f.0 == Corr6::ONE.0 {
        return rho;
    }
    mul_corr(rho, f)
}

// The root of the size of a net sensitivity over its threshold, upwards to the millionth.
fn root_of_ratio(size: u128, threshold: i128) -> u128
    requires positive { pos 1 ≤ℤ threshold }
    requires threshold_in_range { threshold ≤ℤ pos (10 ^ 15) }
    requires size_in_range { size ≤ 120000 * unsigned_abs threshold }
    ensures value { pos result ≡ root (up (pos size *ℤ pos (10 ^ 12)) threshold) }
    ensures size { result ≤ 346999999 }
{
    let square = div_up(size as i128 * 1_000_000_000_000, threshold);
    least_root(square as u128)
}

// The lesser of two numbers over the greater, down to the millionth.
fn quotient_below_one(lesser: i64, greater: i64) -> i64
    requires low { pos 0 ≤ℤ lesser }
    requires ordered { lesser ≤ℤ greater }
    requires positive { pos 0 <ℤ greater }
    requires high { greater <ℤ pos 347000000 }
    ensures value { result ≡ down (lesser *ℤ one) greater }
    ensures not_negative { pos 0 ≤ℤ result }
    ensures at_most_one { result ≤ℤ one }
{
    quotient(lesser, greater)
}

// The same. A guess costs a part of what a division of 64 bits costs on many processors. It is
// checked, and the number above it too; a division settles what neither is right on.
fn quotient(lesser: i64, greater: i64) -> i64
    requires low { pos 0 ≤ℤ lesser }
    requires ordered { lesser ≤ℤ greater }
    requires positive { pos 0 <ℤ greater }
    requires high { greater <ℤ pos 347000000 }
    ensures { result ≡ down (lesser *ℤ one) greater }
{
    let number = lesser * Corr6::ONE.0;
    let guess = guessed_quotient(number as u64, greater as u32);
    if is_quotient(number, greater, guess) {
        return guess;
    }
    if is_quotient(number, greater, guess + 1) {
        return guess + 1;
    }
    number.div_euclid(greater)
}

// About what a number over another is; nothing is said of it but its size. One division of 32 bits
// gives about 2^40 over the divisor; most of the number is divided by a product with it, and then
// what is left.
fn guessed_quotient(number: u64, divisor: u32) -> i64
    ensures at_least { pos 0 ≤ℤ result }
    ensures at_most { result <ℤ pos (2 ^ 32) }
{
    let inverse = u64::from(u32::MAX / (divisor / 256 + 1));
    let most = number.wrapping_mul(inverse) >> 40;
    let rest = number.wrapping_sub(most.wrapping_mul(u64::from(divisor)));
    let quotient = most.wrapping_add(rest.wrapping_mul(inverse) >> 40);
    (quotient & LOW_BITS) as i64
}

// Whether a guess is the quotient of two numbers, down, and at most 1,000,000.
fn is_quotient(number: i64, divisor: i64, guess: i64) -> bool
    requires low { pos 0 ≤ℤ number }
    requires bounded { number ≤ℤ pos (10 ^ 15) }
    requires positive { pos 0 <ℤ divisor }
    requires high { divisor <ℤ pos 347000000 }
    ensures { OnTrue result (guess ≡ down number divisor) }
{
    if guess < 0 || Corr6::ONE.0 < guess {
        return false;
    }
    let rest = number - guess * divisor;
    0 <= rest && rest < divisor
}

// what the crates above reach through this one
pub use simm_rules;
pub use simm_rules::mh_units;
