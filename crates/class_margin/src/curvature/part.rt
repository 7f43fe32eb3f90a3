//! A part of the margin: the sum of the risks of its buckets, and lambda times the margin
//! over them.
ghost use Rattle.std.specs.Prelude.{◌≡◌, ◌+◌, ◌*◌, ◌^◌, ◌<◌, ◌≤◌, All};
ghost use Rattle.std.specs.Prelude.{sum_by, pos, ◌≤ℤ◌, ◌<ℤ◌, ◌*ℤ◌, unsigned_abs};
ghost use Rattle.class_rates.specs.MhUnits.Rounding.{up};
ghost use Rattle.class_rates.specs.SimmRules.Concentration.{one};
ghost use Rattle.class_rates.specs.SimmRules.Curvature.{lambda};
ghost use Rattle.class_rates.specs.SimmParams.Ranges.{lambda_bases, IsWithin};
ghost use Rattle.class_margin.specs.curvature.Part.{sum_over, gross_over, margin_over, part_over};

use class_rates::mh_units::{Corr6, div_up};
use class_rates::simm_rules::BucketMargin;

/// A part of the margin in cents, over the values of its buckets, where `root` is the margin over
/// them: the sum of all risks and lambda times the root, and at least 0; 0 where all risks are 0.
/// `base` is that of lambda.
pub fn part_over(base: Corr6, values: &[BucketMargin], root: i128) -> i128
    requires base { IsWithin lambda_bases base.0 }
    requires summed { All (λ b. pos (unsigned_abs b.sum) ≤ℤ b.gross) values.now }
    requires in_range { sum_by (λ b. unsigned_abs b.gross) values.now < 84 * 10 ^ 14 }
    requires root_low { pos 0 ≤ℤ root }
    requires root_high { root <ℤ pos (84 * 10 ^ 14) }
    ensures value { result ≡ part_over base.0 values.now root }
    ensures low { pos 0 ≤ℤ result }
    ensures size { result
        ≤ℤ pos (sum_by (λ b. unsigned_abs b.gross) values.now + 10 * unsigned_abs root) }
{
    let sum = sum_over(values);
    let gross = gross_over(values);
    if gross == 0 {
        return 0;
    }
    let scaled = scaled_root(lambda(base, sum, gross), root);
    (sum + scaled).max(0)
}

/// The sum of the margins of the buckets, in cents.
pub fn margin_over(values: &[BucketMargin]) -> i128
    requires { sum_by (λ b. unsigned_abs b.k) values.now < 84 * 10 ^ 14 }
    ensures value { result ≡ margin_over values.now }
    ensures size { unsigned_abs result ≤ sum_by (λ b. unsigned_abs b.k) values.now }
{
    let mut margin = 0;
    for value in values {
        margin += value.k;
    }
    margin
}

// The sum of all risks.
fn sum_over(values: &[BucketMargin]) -> i128
    requires { sum_by (λ b. unsigned_abs b.sum) values.now < 84 * 10 ^ 14 }
    ensures { result ≡ sum_over values.now }
{
    let mut sum = 0;
    for value in values {
        sum += value.sum;
    }
    sum
}

// The sum of their sizes.
fn gross_over(values: &[BucketMargin]) -> i128
    requires { sum_by (λ b. unsigned_abs b.gross) values.now < 84 * 10 ^ 14 }
    ensures { result ≡ gross_over values.now }
{
    let mut gross = 0;
    for value in values {
        gross += value.gross;
    }
    gross
}

// Lambda in millionths, upwards: theta, the shortfall over the gross size, is not rounded
// by itself.
fn lambda(base: Corr6, sum: i128, gross: i128) -> i128
    requires base { IsWithin lambda_bases base.0 }
    requires some { pos 0 <ℤ gross }
    requires in_range { gross <ℤ pos (84 * 10 ^ 14) }
    requires summed { pos (unsigned_abs sum) ≤ℤ gross }
    ensures value { result ≡ lambda base.0 sum gross }
    ensures low { pos 0 ≤ℤ result }
    ensures high { result ≤ℤ pos (10 ^ 7) }
{
    let shortfall = sum.min(0);
    let whole = i128::from(base.0) * (gross + shortfall) - 1_000_000 * shortfall;
    div_up(whole, gross)
}

// Lambda times the margin over the buckets, upwards to the cent.
fn scaled_root(lambda: i128, root: i128) -> i128
    requires lambda_low { pos 0 ≤ℤ lambda }
    requires lambda_high { lambda ≤ℤ pos (10 ^ 7) }
    requires root_low { pos 0 ≤ℤ root }
    requires root_high { root <ℤ pos (84 * 10 ^ 14) }
    ensures value { result ≡ up (lambda *ℤ root) one }
    ensures low { pos 0 ≤ℤ result }
    ensures high { result ≤ℤ pos (10 * unsigned_abs root) }
{
    div_up(lambda * root, 1_000_000)
}
