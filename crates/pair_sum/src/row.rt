ghost use Rattle.std.specs.Prelude.{◌≡◌, ◌+◌, ◌*◌, ◌^◌, ◌<◌, ◌≤◌};
ghost use Rattle.std.specs.Prelude.{length, map, sum_by, ◌*ℤ◌, unsigned_abs};
ghost use Rattle.pair_sum.specs.PairTotal.{at_place, sum_below, term};

use crate::correlation::Correlation;
use crate::item::Weighted;
use crate::steps::Steps;
use simm_rules::mh_units::Corr6;
use std::sync::ledger::Ledger;

// The terms of one row with the places before it, which are as many steps. The row's own amount is
// a factor of each, so it is multiplied once.
pub(crate) fn row_below<T: Weighted, C: Correlation, L: Ledger>(
    items: &[T],
    row: usize,
    corr: &C,
    steps: &mut Steps<L>,
) -> i128
    requires row_in { row < length items.now }
    requires size { C.size corr.now ≡ length items.now }
    requires in_range { sum_by (λ item. unsigned_abs (T.weight item)) items.now < 84 * 10 ^ 14 }
    ensures value { result
        ≡ sum_below (λ j. term (C.corr corr.now) (map T.weight items.now) row j) row }
    ensures steps { steps.new ≡ steps.old + row }
{
    correlated_below(items, row, corr, steps) * items[row].weight()
}

// The sum of the amounts before a row, each times its correlation with the row.
fn correlated_below<T: Weighted, C: Correlation, L: Ledger>(
    items: &[T],
    row: usize,
    corr: &C,
    steps: &mut Steps<L>,
) -> i128
    requires row_in { row < length items.now }
    requires size { C.size corr.now ≡ length items.now }
    requires in_range { sum_by (λ item. unsigned_abs (T.weight item)) items.now < 84 * 10 ^ 14 }
    ensures value { result
        ≡ sum_below (λ j. C.corr corr.now row j *ℤ at_place (map T.weight items.now) j) row }
    ensures steps { steps.new ≡ steps.old + row }
{
    let mut sum = 0;
    for place in 0..row {
        sum += correlated(items[place].weight(), corr.corr(row, place), steps);
    }
    sum
}

// An amount times a correlation: one step. Such an amount fits 64 bits, so this is
// one multiplication.
pub(crate) fn correlated<L: Ledger>(amount: i128, corr: Corr6, steps: &mut Steps<L>) -> i128
    requires small { unsigned_abs amount < 84 * 10 ^ 14 }
    requires correlation { unsigned_abs corr.0 ≤ 1000000 }
    ensures value { result ≡ corr.0 *ℤ amount }
    ensures one_step { steps.new ≡ steps.old + 1 }
{
    steps.tick();
    i128::from(corr.0) * i128::from(amount as i64)
}
