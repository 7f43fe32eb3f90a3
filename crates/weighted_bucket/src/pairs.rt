ghost use Rattle.std.specs.Prelude.{◌≡◌, ◌+◌, ◌*◌, ◌^◌, ◌<◌, ◌≤◌, All};
ghost use Rattle.std.specs.Prelude.{length, sum_by, pos, ◌≤ℤ◌, ◌<ℤ◌, unsigned_abs};
ghost use Rattle.std.specs.Bool.{OnTrue};
ghost use Rattle.concentration.specs.SimmRules.Concentration.{one};
ghost use Rattle.weighted_bucket.specs.Bucket.{pairs_of};
ghost use Rattle.weighted_bucket.specs.Correlated.{ShareConcentration};
ghost use Rattle.weighted_bucket.specs.declared.scaling.Scaling.TheVariants as ways;

use crate::correlated::Correlated;
use crate::rho::Rho;
use crate::scaling::Scaling;
use crate::way::{Concentrated, Plain, Squared, Way};
use crate::weighed::Weighed;
use pair_sum::{Steps, pair_sum};
use std::sync::ledger::Ledger;

/// The sum over all ordered pairs of these factors of their correlation and both weighted values,
/// in cents squared times 10^6.
pub fn scaled_pairs<R: Rho, L: Ledger>(
    factors: &[Weighed],
    rho: &R,
    scaling: Scaling,
    steps: &mut Steps<L>,
) -> i128
    requires size { R.size rho.now ≡ length factors.now }
    requires from_one { All (λ factor. one ≤ℤ factor.cr.0) factors.now }
    requires below { All (λ factor. factor.cr.0 <ℤ pos 347000000) factors.now }
    requires in_range { sum_by (λ factor. unsigned_abs factor.w) factors.now < 84 * 10 ^ 14 }
    ensures value { result ≡ pairs_of scaling factors.now (R.rho rho.now) }
    ensures gross { let gross = sum_by (λ factor. unsigned_abs factor.w) factors.now in
        unsigned_abs result ≤ 1000000 * (gross * gross) }
    ensures steps { let n = length factors.now in 2 * steps.new ≡ 2 * steps.old + n * (n + 1) }
    ensures at_most { steps.new ≤ steps.old + length factors.now * length factors.now }
{
    match scaling {
        Scaling::Concentrated => concentrated_pairs(factors, rho, steps),
        Scaling::Plain => pairs_in(factors, rho, Plain, steps),
        Scaling::Squared => pairs_in(factors, rho, Squared, steps),
    }
}

// The sum of the pairs, each scaled by the ratio of its concentrations. Where all factors
// share one concentration, as where no net is above its threshold, each ratio is 1: no pair
// looks at one.
fn concentrated_pairs<R: Rho, L: Ledger>(factors: &[Weighed], rho: &R, steps: &mut Steps<L>) -> i128
    requires size { R.size rho.now ≡ length factors.now }
    requires from_one { All (λ factor. one ≤ℤ factor.cr.0) factors.now }
    requires below { All (λ factor. factor.cr.0 <ℤ pos 347000000) factors.now }
    requires in_range { sum_by (λ factor. unsigned_abs factor.w) factors.now < 84 * 10 ^ 14 }
    ensures value { result ≡ pairs_of ways.Concentrated factors.now (R.rho rho.now) }
    ensures gross { let gross = sum_by (λ factor. unsigned_abs factor.w) factors.now in
        unsigned_abs result ≤ 1000000 * (gross * gross) }
    ensures steps { let n = length factors.now in 2 * steps.new ≡ 2 * steps.old + n * (n + 1) }
    ensures at_most { steps.new ≤ steps.old + length factors.now * length factors.now }
{
    if share_concentration(factors) {
        pairs_in(factors, rho, Plain, steps)
    } else {
        pairs_in(factors, rho, Concentrated, steps)
    }
}

// Whether all factors have the same concentration.
pub(crate) fn share_concentration(factors: &[Weighed]) -> bool
    ensures { OnTrue result (ShareConcentration factors.now) }
{
    let Some(first) = factors.first() else {
        return true;
    };
    for factor in factors {
        if factor.cr.0 != first.cr.0 {
            return false;
        }
    }
    true
}

// The sum of the pairs in one way of scaling.
fn pairs_in<R: Rho, W: Way, L: Ledger>(
    factors: &[Weighed],
    rho: &R,
    way: W,
    steps: &mut Steps<L>,
) -> i128
    requires size { R.size rho.now ≡ length factors.now }
    requires from_one { All (λ factor. one ≤ℤ factor.cr.0) factors.now }
    requires below { All (λ factor. factor.cr.0 <ℤ pos 347000000) factors.now }
    requires in_range { sum_by (λ factor. unsigned_abs factor.w) factors.now < 84 * 10 ^ 14 }
    ensures value { result ≡ pairs_of W.scaling factors.now (R.rho rho.now) }
    ensures gross { let gross = sum_by (λ factor. unsigned_abs factor.w) factors.now in
        unsigned_abs result ≤ 1000000 * (gross * gross) }
    ensures steps { let n = length factors.now in 2 * steps.new ≡ 2 * steps.old + n * (n + 1) }
    ensures at_most { steps.new ≤ steps.old + length factors.now * length factors.now }
{
    let correlated = Correlated { rho, factors, way };
    pair_sum(factors, &correlated, steps)
}
