ghost use Rattle.std.specs.Prelude.{◌≡◌, ℕ, ◌*◌, ◌^◌, ◌<◌, ◌≤◌, All};
ghost use Rattle.std.specs.Prelude.{length, sum_by, pos, ◌≤ℤ◌, ◌*ℤ◌, unsigned_abs};
ghost use Rattle.simm_rules.specs.Concentration.{one};
ghost use Rattle.simm_rules.specs.Bucket.{root_of};
ghost use Rattle.pair_sum.specs.PairTotal.{at_place, margins, outer_total};

use crate::correlation::Correlation;
use crate::row::row_below;
use crate::steps::Steps;
use simm_rules::BucketMargin;
use simm_rules::mh_units::{div_up, least_root};
use std::marker::Brand;
use std::sync::ledger::{Blank, Ledger};

/// The root of a pair sum, which has the unit 10^6, upwards to the cent: a bucket's margin. Any
/// sum is right; the root of one below 0 is 0.
pub fn bucket_root(q: i128) -> i128
    ensures value { result ≡ root_of q }
    ensures not_negative { pos 0 ≤ℤ result }
    ensures size { unsigned_abs result ≤ 14 * 10 ^ 15 }
    ensures within { (gross : ℕ) → unsigned_abs q ≤ 1000000 * (gross * gross)
        → result ≤ℤ pos gross }
{
    let square = div_up(q, 1_000_000);
    if square <= 0 {
        0
    } else {
        least_root(square as u128) as i128
    }
}

/// The margin over buckets, of which none is the residual one: the root of the squares of their
/// margins and of all ordered pairs of different buckets, upwards to the cent.
pub fn outer_root<C: Correlation>(parts: &[BucketMargin], gamma: &C) -> i128
    requires size { C.size gamma.now ≡ length parts.now }
    requires not_negative { All (λ part. pos 0 ≤ℤ part.k) parts.now }
    requires held { All (λ part. unsigned_abs part.s ≤ unsigned_abs part.k) parts.now }
    requires in_range { sum_by (λ part. unsigned_abs part.k) parts.now < 84 * 10 ^ 14 }
    ensures value { result ≡ root_of (outer_total (C.corr gamma.now) parts.now) }
    ensures not_negative { pos 0 ≤ℤ result }
    ensures size { result ≤ℤ pos (sum_by (λ part. unsigned_abs part.k) parts.now) }
{
    bucket_root(outer_sum::<C, Brand>(parts, gamma, Blank::new(1)))
}

// The squares of the margins and all ordered pairs of different buckets, in cents squared
// times 10^6.
fn outer_sum<C: Correlation, L: Ledger>(parts: &[BucketMargin], gamma: &C, blank: Blank) -> i128
    requires name { blank.name ≡ L.name }
    requires parts { blank.parts ≡ L.parts }
    requires some { 0 < blank.parts }
    requires size { C.size gamma.now ≡ length parts.now }
    requires held { All (λ part. unsigned_abs part.s ≤ unsigned_abs part.k) parts.now }
    requires in_range { sum_by (λ part. unsigned_abs part.k) parts.now < 84 * 10 ^ 14 }
    ensures value { result ≡ outer_total (C.corr gamma.now) parts.now }
    ensures size { let gross = sum_by (λ part. unsigned_abs part.k) parts.now in
        unsigned_abs result ≤ 1000000 * (gross * gross) }
{
    let mut steps = Steps::<L>::new(blank);
    let mut sum = 0;
    for row in 0..parts.len() {
        let below = row_below(parts, row, gamma, &mut steps);
        sum += margin_square(parts, row) + below + below;
    }
    sum
}

// The square of one bucket's margin, in cents squared times 10^6.
fn margin_square(parts: &[BucketMargin], row: usize) -> i128
    requires row_in { row < length parts.now }
    requires in_range { sum_by (λ part. unsigned_abs part.k) parts.now < 84 * 10 ^ 14 }
    ensures { let k = at_place (margins parts.now) row in result ≡ one *ℤ (k *ℤ k) }
{
    let k = parts[row].k;
    1_000_000 * (k * k)
}
