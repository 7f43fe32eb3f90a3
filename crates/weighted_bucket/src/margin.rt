ghost use Rattle.std.specs.Prelude.{◌≡◌, ◌+◌, ◌*◌, ◌^◌, ◌<◌, ◌≤◌, All};
ghost use Rattle.std.specs.Prelude.{length, sum_by, pos, ◌≤ℤ◌, ◌<ℤ◌, unsigned_abs};
ghost use Rattle.concentration.specs.SimmRules.Concentration.{one};
ghost use Rattle.weighted_bucket.specs.Bucket.{bucket_value, pairs_of, value_of};
ghost use Rattle.weighted_bucket.specs.Changed.{changed};

use crate::changes::changed_count;
use crate::pairs::scaled_pairs;
use crate::renewed::renewed_pairs;
use crate::rho::Rho;
use crate::scaling::Scaling;
use crate::sums::{gross, sum};
use crate::weighed::Weighed;
use concentration::mh_units::{Corr6, clamp_to};
use concentration::simm_rules::BucketMargin;
use pair_sum::{Steps, bucket_root};
use std::sync::ledger::Ledger;

/// The value of the bucket of these factors, whose correlations are made of `rho`. `cr` is the
/// bucket's concentration factor: the currency's in interest rates, 1 elsewhere. A pair of two
/// different factors is multiplied once and counted twice, so that `n` factors take
/// `n * (n + 1) / 2` steps.
pub fn bucket_margin<R: Rho, L: Ledger>(
    factors: &[Weighed],
    rho: &R,
    scaling: Scaling,
    cr: Corr6,
    steps: &mut Steps<L>,
) -> BucketMargin
    requires size { R.size rho.now ≡ length factors.now }
    requires from_one { All (λ factor. one ≤ℤ factor.cr.0) factors.now }
    requires below { All (λ factor. factor.cr.0 <ℤ pos 347000000) factors.now }
    requires in_range { sum_by (λ factor. unsigned_abs factor.w) factors.now < 84 * 10 ^ 14 }
    ensures value { result ≡ bucket_value scaling factors.now (R.rho rho.now) cr }
    ensures not_negative { pos 0 ≤ℤ result.k }
    ensures held { unsigned_abs result.s ≤ unsigned_abs result.k }
    ensures margin { unsigned_abs result.k ≤ sum_by (λ factor. unsigned_abs factor.w) factors.now }
    ensures sum { unsigned_abs result.sum ≤ unsigned_abs result.gross }
    ensures gross { result.gross ≡ pos (sum_by (λ factor. unsigned_abs factor.w) factors.now) }
    ensures steps { let n = length factors.now in 2 * steps.new ≡ 2 * steps.old + n * (n + 1) }
    ensures at_most { steps.new ≤ steps.old + length factors.now * length factors.now }
{
    let q = scaled_pairs(factors, rho, scaling, steps);
    margin_of(q, factors, cr)
}

/// The same value after a change of factors, from the sum `q` of the pairs as they were before it.
/// Both lists are over the same places: a factor that isn't there weighs 0. Where up to a quarter
/// of the factors changed it takes at most two steps for each of them and each factor, and
/// elsewhere it is worked out from scratch.
pub fn bucket_margin_after<R: Rho, L: Ledger>(
    q: i128,
    before: &[Weighed],
    factors: &[Weighed],
    rho: &R,
    scaling: Scaling,
    cr: Corr6,
    steps: &mut Steps<L>,
) -> BucketMargin
    // two lists over the same places, and their correlations
    requires same_places { length before.now ≡ length factors.now }
    requires size { R.size rho.now ≡ length factors.now }

    // the factors before the change
    requires from_one_before { All (λ factor. one ≤ℤ factor.cr.0) before.now }
    requires below_before { All (λ factor. factor.cr.0 <ℤ pos 347000000) before.now }
    requires in_range_before { sum_by (λ factor. unsigned_abs factor.w) before.now < 84 * 10 ^ 14 }
    requires sum { q ≡ pairs_of scaling before.now (R.rho rho.now) }

    // those after it
    requires from_one { All (λ factor. one ≤ℤ factor.cr.0) factors.now }
    requires below { All (λ factor. factor.cr.0 <ℤ pos 347000000) factors.now }
    requires in_range { sum_by (λ factor. unsigned_abs factor.w) factors.now < 84 * 10 ^ 14 }

    // as from scratch
    ensures value { result ≡ bucket_value scaling factors.now (R.rho rho.now) cr }
    ensures not_negative { pos 0 ≤ℤ result.k }
    ensures held { unsigned_abs result.s ≤ unsigned_abs result.k }
    ensures margin { unsigned_abs result.k ≤ sum_by (λ factor. unsigned_abs factor.w) factors.now }
    ensures sum { unsigned_abs result.sum ≤ unsigned_abs result.gross }
    ensures gross { result.gross ≡ pos (sum_by (λ factor. unsigned_abs factor.w) factors.now) }

    // by what changed
    ensures steps { let n = length factors.now in
        steps.new ≤ steps.old + 2 * (changed before.now factors.now * n) }
    ensures at_most { steps.new ≤ steps.old + length factors.now * length factors.now }
{
    if changed_count(before, factors) > factors.len() / 4 {
        return bucket_margin(factors, rho, scaling, cr, steps);
    }
    let q = renewed_pairs(q, before, factors, rho, scaling, steps);
    margin_of(q, factors, cr)
}

// The value of factors whose pairs come to `q`.
fn margin_of(q: i128, factors: &[Weighed], cr: Corr6) -> BucketMargin
    requires in_range { sum_by (λ factor. unsigned_abs factor.w) factors.now < 84 * 10 ^ 14 }
    requires pairs { let gross = sum_by (λ factor. unsigned_abs factor.w) factors.now in
        unsigned_abs q ≤ 1000000 * (gross * gross) }

    // the value, and its sizes
    ensures value { result ≡ value_of q factors.now cr }
    ensures not_negative { pos 0 ≤ℤ result.k }
    ensures held { unsigned_abs result.s ≤ unsigned_abs result.k }
    ensures margin { unsigned_abs result.k ≤ sum_by (λ factor. unsigned_abs factor.w) factors.now }
    ensures sum { unsigned_abs result.sum ≤ unsigned_abs result.gross }
    ensures gross { result.gross ≡ pos (sum_by (λ factor. unsigned_abs factor.w) factors.now) }
{
    let k = bucket_root(q);
    let sum = sum(factors);
    BucketMargin {
        q,
        k,
        s: clamp_to(sum, k),
        sum,
        gross: gross(factors),
        cr,
    }
}
