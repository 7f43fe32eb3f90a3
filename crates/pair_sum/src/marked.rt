ghost use Rattle.std.specs.Prelude.{◌≡◌, ℕ, ◌+◌, ◌*◌, ◌^◌, ◌<◌, ◌≤◌, length, map, sum_by};
ghost use Rattle.std.specs.Prelude.{ℤ, ◌+ℤ◌, unsigned_abs, if◌then◌else◌};
ghost use Rattle.pair_sum.specs.Marked.{count_marked, marked_before, marked_total};

use crate::beside::row_beside;
use crate::correlation::Correlation;
use crate::item::Weighted;
use crate::marks::Marks;
use crate::pairs::pair_at;
use crate::steps::Steps;
use std::sync::ledger::Ledger;

// The sum over all ordered pairs of items of which at least one is marked. A pair of two different
// items is multiplied once and counted twice.
pub(crate) fn marked_sum<T: Weighted, C: Correlation, M: Marks, L: Ledger>(
    items: &[T],
    corr: &C,
    marked: &M,
    steps: &mut Steps<L>,
) -> i128
    requires size { C.size corr.now ≡ length items.now }
    requires marks { M.size marked.now ≡ length items.now }
    requires in_range { sum_by (λ item. unsigned_abs (T.weight item)) items.now < 84 * 10 ^ 14 }
    ensures value { let ws = map T.weight items.now in
        result ≡ marked_total (M.is_marked marked.now) (C.corr corr.now) ws }
    ensures size { unsigned_abs result ≤ 8 * 10 ^ 37 }
    ensures steps { let n = length items.now in
        steps.new ≤ steps.old + count_marked (M.is_marked marked.now) n * n }
{
    let mut sum = 0;
    for row in 0..items.len() {
        sum += marked_terms(items, row, corr, marked, steps);
    }
    sum
}

// What a place adds to the pairs of the marked ones before it, if it is marked: at most a step for
// each place.
fn marked_terms<T: Weighted, C: Correlation, M: Marks, L: Ledger>(
    items: &[T],
    row: usize,
    corr: &C,
    marked: &M,
    steps: &mut Steps<L>,
) -> i128
    requires row_in { row < length items.now }
    requires size { C.size corr.now ≡ length items.now }
    requires marks { M.size marked.now ≡ length items.now }
    requires in_range { sum_by (λ item. unsigned_abs (T.weight item)) items.now < 84 * 10 ^ 14 }
    ensures value { let marks = M.is_marked marked.now in let ws = map T.weight items.now in
        let total : ℕ → ℤ = λ k. marked_total (marked_before marks k) (C.corr corr.now) ws in
        total row +ℤ result ≡ total (row + 1) }
    ensures steps { let most = if M.is_marked marked.now row then 1 else 0 in
        steps.new ≤ steps.old + most * length items.now }
{
    if !marked.is_marked(row) {
        return 0;
    }
    let rest = row_beside(items, row, corr, marked, steps);
    rest + rest + pair_at(items, row, row, corr, steps)
}
