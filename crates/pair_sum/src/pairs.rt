ghost use Rattle.std.specs.Prelude.{◌≡◌, ◌+◌, ◌-◌, ◌*◌, ◌^◌, ◌<◌, ◌≤◌};
ghost use Rattle.std.specs.Prelude.{length, map, sum_by, ◌*ℤ◌, unsigned_abs};
ghost use Rattle.pair_sum.specs.PairTotal.{pair_total, term};

use crate::correlation::Correlation;
use crate::item::Weighted;
use crate::row::row_below;
use crate::steps::Steps;
use simm_rules::mh_units::Corr6;
use std::sync::ledger::Ledger;

/// The product of a correlation and the two amounts, in cents squared times 10^6: one step.
pub fn pair_term<L: Ledger>(a: i128, b: i128, corr: Corr6, steps: &mut Steps<L>) -> i128
    requires first { unsigned_abs a < 84 * 10 ^ 14 }
    requires second { unsigned_abs b < 84 * 10 ^ 14 }
    requires correlation { unsigned_abs corr.0 ≤ 1000000 }
    ensures value { result ≡ corr.0 *ℤ a *ℤ b }
    ensures one_step { steps.new ≡ steps.old + 1 }
{
    steps.tick();
    i128::from(corr.0) * a * b
}

/// The sum over all ordered pairs of items of their correlation and both amounts, in cents squared
/// times 10^6. A pair of two different items is multiplied once and counted twice.
pub fn pair_sum<T: Weighted, C: Correlation, L: Ledger>(
    items: &[T],
    corr: &C,
    steps: &mut Steps<L>,
) -> i128
    requires size { C.size corr.now ≡ length items.now }
    requires in_range { sum_by (λ item. unsigned_abs (T.weight item)) items.now < 84 * 10 ^ 14 }
    ensures value { result ≡ pair_total (C.corr corr.now) (map T.weight items.now) }
    ensures size { unsigned_abs result ≤ 8 * 10 ^ 37 }
    ensures gross { let gross = sum_by (λ item. unsigned_abs (T.weight item)) items.now in
        unsigned_abs result ≤ 1000000 * (gross * gross) }
    ensures steps { let n = length items.now in 2 * steps.new ≡ 2 * steps.old + n * (n + 1) }
    ensures at_most { steps.new ≤ steps.old + length items.now * length items.now }
{
    let mut sum = 0;
    for row in 0..items.len() {
        let below = row_below(items, row, corr, steps);
        sum += below + below + pair_at(items, row, row, corr, steps);
    }
    sum
}

// The term of two places: one step.
pub(crate) fn pair_at<T: Weighted, C: Correlation, L: Ledger>(
    items: &[T],
    row: usize,
    place: usize,
    corr: &C,
    steps: &mut Steps<L>,
) -> i128
    requires row_in { row < length items.now }
    requires place_in { place < length items.now }
    requires size { C.size corr.now ≡ length items.now }
    requires in_range { sum_by (λ item. unsigned_abs (T.weight item)) items.now < 84 * 10 ^ 14 }
    ensures value { result ≡ term (C.corr corr.now) (map T.weight items.now) row place }
    ensures one_step { steps.new ≡ steps.old + 1 }
{
    pair_term(
        items[row].weight(),
        items[place].weight(),
        corr.corr(row, place),
        steps,
    )
}
