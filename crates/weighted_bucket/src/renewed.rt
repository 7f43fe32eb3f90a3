ghost use Rattle.std.specs.Prelude.{◌≡◌, ℕ, ◌+◌, ◌*◌, ◌^◌, ◌<◌, ◌≤◌, false, All};
ghost use Rattle.std.specs.Prelude.{length, sum_by, pos, ◌≤ℤ◌, ◌<ℤ◌, unsigned_abs};
ghost use Rattle.concentration.specs.SimmRules.Concentration.{one};
ghost use Rattle.weighted_bucket.specs.Bucket.{pairs_of};
ghost use Rattle.weighted_bucket.specs.Changed.{changed, changed_at};
ghost use Rattle.weighted_bucket.specs.Correlated.{correlation};
ghost use Rattle.weighted_bucket.specs.declared.scaling.Scaling.TheVariants as ways;

use crate::changes::Changes;
use crate::correlated::Correlated;
use crate::pairs::share_concentration;
use crate::rho::Rho;
use crate::scaling::Scaling;
use crate::way::{Concentrated, Plain, Squared, Way};
use crate::weighed::Weighed;
use pair_sum::{Steps, renew_sum};
use std::sync::ledger::Ledger;

/// The sum over all ordered pairs of the factors after a change, from that before it, in cents
/// squared times 10^6.
pub fn renewed_pairs<R: Rho, L: Ledger>(
    q: i128,
    before: &[Weighed],
    after: &[Weighed],
    rho: &R,
    scaling: Scaling,
    steps: &mut Steps<L>,
) -> i128
    // two lists over the same places, and their correlations
    requires same_places { length before.now ≡ length after.now }
    requires size { R.size rho.now ≡ length after.now }

    // the factors before the change
    requires from_one_before { All (λ factor. one ≤ℤ factor.cr.0) before.now }
    requires below_before { All (λ factor. factor.cr.0 <ℤ pos 347000000) before.now }
    requires in_range_before { sum_by (λ factor. unsigned_abs factor.w) before.now < 84 * 10 ^ 14 }
    requires sum { q ≡ pairs_of scaling before.now (R.rho rho.now) }

    // those after it
    requires from_one { All (λ factor. one ≤ℤ factor.cr.0) after.now }
    requires below { All (λ factor. factor.cr.0 <ℤ pos 347000000) after.now }
    requires in_range { sum_by (λ factor. unsigned_abs factor.w) after.now < 84 * 10 ^ 14 }

    // as from scratch
    ensures value { result ≡ pairs_of scaling after.now (R.rho rho.now) }
    ensures gross { let gross = sum_by (λ factor. unsigned_abs factor.w) after.now in
        unsigned_abs result ≤ 1000000 * (gross * gross) }
    ensures steps { let n = length after.now in
        steps.new ≤ steps.old + 2 * (changed before.now after.now * n) }
{
    match scaling {
        Scaling::Concentrated => renewed_concentrated(q, before, after, rho, steps),
        Scaling::Plain => renewed_in(q, before, after, rho, Plain, Plain, steps),
        Scaling::Squared => renewed_in(q, before, after, rho, Squared, Squared, steps),
    }
}

// The same, each pair scaled by the ratio of its concentrations. Where all factors of a list share
// one concentration, no pair of it looks at a ratio.
fn renewed_concentrated<R: Rho, L: Ledger>(
    q: i128,
    before: &[Weighed],
    after: &[Weighed],
    rho: &R,
    steps: &mut Steps<L>,
) -> i128
    // two lists over the same places, and their correlations
    requires same_places { length before.now ≡ length after.now }
    requires size { R.size rho.now ≡ length after.now }

    // the factors before the change
    requires from_one_before { All (λ factor. one ≤ℤ factor.cr.0) before.now }
    requires below_before { All (λ factor. factor.cr.0 <ℤ pos 347000000) before.now }
    requires in_range_before { sum_by (λ factor. unsigned_abs factor.w) before.now < 84 * 10 ^ 14 }
    requires sum { q ≡ pairs_of ways.Concentrated before.now (R.rho rho.now) }

    // those after it
    requires from_one { All (λ factor. one ≤ℤ factor.cr.0) after.now }
    requires below { All (λ factor. factor.cr.0 <ℤ pos 347000000) after.now }
    requires in_range { sum_by (λ factor. unsigned_abs factor.w) after.now < 84 * 10 ^ 14 }

    // as from scratch
    ensures value { result ≡ pairs_of ways.Concentrated after.now (R.rho rho.now) }
    ensures gross { let gross = sum_by (λ factor. unsigned_abs factor.w) after.now in
        unsigned_abs result ≤ 1000000 * (gross * gross) }
    ensures steps { let n = length after.now in
        steps.new ≤ steps.old + 2 * (changed before.now after.now * n) }
{
    if share_concentration(before) {
        if share_concentration(after) {
            renewed_in(q, before, after, rho, Plain, Plain, steps)
        } else {
            renewed_in(q, before, after, rho, Plain, Concentrated, steps)
        }
    } else if share_concentration(after) {
        renewed_in(q, before, after, rho, Concentrated, Plain, steps)
    } else {
        renewed_in(q, before, after, rho, Concentrated, Concentrated, steps)
    }
}

// The sum of the pairs, each list in its way of scaling.
fn renewed_in<R: Rho, V: Way, W: Way, L: Ledger>(
    q: i128,
    before: &[Weighed],
    after: &[Weighed],
    rho: &R,
    way_before: V,
    way: W,
    steps: &mut Steps<L>,
) -> i128
    // two lists over the same places, and their correlations
    requires same_places { length before.now ≡ length after.now }
    requires size { R.size rho.now ≡ length after.now }

    // the factors before the change
    requires from_one_before { All (λ factor. one ≤ℤ factor.cr.0) before.now }
    requires below_before { All (λ factor. factor.cr.0 <ℤ pos 347000000) before.now }
    requires in_range_before { sum_by (λ factor. unsigned_abs factor.w) before.now < 84 * 10 ^ 14 }
    requires sum { q ≡ pairs_of V.scaling before.now (R.rho rho.now) }

    // those after it
    requires from_one { All (λ factor. one ≤ℤ factor.cr.0) after.now }
    requires below { All (λ factor. factor.cr.0 <ℤ pos 347000000) after.now }
    requires in_range { sum_by (λ factor. unsigned_abs factor.w) after.now < 84 * 10 ^ 14 }
    requires same { (i j : ℕ) → i < length after.now → j < length after.now →
        changed_at before.now after.now i ≡ false → changed_at before.now after.now j ≡ false →
        correlation V.scaling before.now (R.rho rho.now) i j
        ≡ correlation W.scaling after.now (R.rho rho.now) i j }

    // as from scratch
    ensures value { result ≡ pairs_of W.scaling after.now (R.rho rho.now) }
    ensures gross { let gross = sum_by (λ factor. unsigned_abs factor.w) after.now in
        unsigned_abs result ≤ 1000000 * (gross * gross) }
    ensures steps { let n = length after.now in
        steps.new ≤ steps.old + 2 * (changed before.now after.now * n) }
{
    let was = Correlated {
        rho,
        factors: before,
        way: way_before,
    };
    let is = Correlated {
        rho,
        factors: after,
        way,
    };
    renew_sum(
        q,
        before,
        &was,
        after,
        &is,
        &Changes { before, after },
        steps,
    )
}
