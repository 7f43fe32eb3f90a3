ghost use Rattle.std.specs.Prelude.{◌≡◌, ◌+◌, ◌*◌, ◌^◌, ◌<◌, ◌≤◌};
ghost use Rattle.std.specs.Prelude.{length, map, sum_by, ◌*ℤ◌, unsigned_abs};
ghost use Rattle.pair_sum.specs.PairTotal.{at_place, sum_below, term};
ghost use Rattle.pair_sum.specs.Marked.{beside};

use crate::correlation::Correlation;
use crate::item::Weighted;
use crate::marks::Marks;
use crate::row::correlated;
use crate::steps::Steps;
use std::sync::ledger::Ledger;

// The terms of one row with all other places but the marked ones before it, which are fewer steps
// than there are places. The row's own amount is multiplied once.
pub(crate) fn row_beside<T: Weighted, C: Correlation, M: Marks, L: Ledger>(
    items: &[T],
    row: usize,
    corr: &C,
    marked: &M,
    steps: &mut Steps<L>,
) -> i128
    requires row_in { row < length items.now }
    requires size { C.size corr.now ≡ length items.now }
    requires marks { M.size marked.now ≡ length items.now }
    requires in_range { sum_by (λ item. unsigned_abs (T.weight item)) items.now < 84 * 10 ^ 14 }
    ensures value { let apart = beside (M.is_marked marked.now) (C.corr corr.now) in
        result ≡ sum_below (λ j. term apart (map T.weight items.now) row j) (length items.now) }
    ensures steps { steps.new + 1 ≤ steps.old + length items.now }
{
    correlated_beside(items, row, corr, marked, steps) * items[row].weight()
}

// The sum of the amounts beside a row, each times its correlation with the row.
fn correlated_beside<T: Weighted, C: Correlation, M: Marks, L: Ledger>(
    items: &[T],
    row: usize,
    corr: &C,
    marked: &M,
    steps: &mut Steps<L>,
) -> i128
    requires row_in { row < length items.now }
    requires size { C.size corr.now ≡ length items.now }
    requires marks { M.size marked.now ≡ length items.now }
    requires in_range { sum_by (λ item. unsigned_abs (T.weight item)) items.now < 84 * 10 ^ 14 }
    ensures value { let apart = beside (M.is_marked marked.now) (C.corr corr.now) in result
        ≡ sum_below (λ j. apart row j *ℤ at_place (map T.weight items.now) j) (length items.now) }
    ensures steps { steps.new + 1 ≤ steps.old + length items.now }
{
    let mut sum = 0;
    for place in 0..items.len() {
        sum += amount_beside(items, row, place, corr, marked, steps);
    }
    sum
}

// The amount of one place times its correlation with the row, where it is beside the row, and
// else 0.
fn amount_beside<T: Weighted, C: Correlation, M: Marks, L: Ledger>(
    items: &[T],
    row: usize,
    place: usize,
    corr: &C,
    marked: &M,
    steps: &mut Steps<L>,
) -> i128
    requires row_in { row < length items.now }
    requires place_in { place < length items.now }
    requires size { C.size corr.now ≡ length items.now }
    requires marks { M.size marked.now ≡ length items.now }
    requires in_range { sum_by (λ item. unsigned_abs (T.weight item)) items.now < 84 * 10 ^ 14 }

    // a place is not beside itself
    ensures value { let apart = beside (M.is_marked marked.now) (C.corr corr.now) in
        result ≡ apart row place *ℤ at_place (map T.weight items.now) place }
    ensures steps { steps.new ≤ steps.old + 1 }
    ensures own { row ≡ place → steps.new ≡ steps.old }
{
    if row == place || (place < row && marked.is_marked(place)) {
        return 0;
    }
    correlated(items[place].weight(), corr.corr(row, place), steps)
}
