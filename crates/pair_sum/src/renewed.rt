ghost use Rattle.std.specs.Prelude.{◌≡◌, ℕ, ◌+◌, ◌*◌, ◌^◌, ◌<◌, ◌≤◌};
ghost use Rattle.std.specs.Prelude.{false, length, map, sum_by, ◌+ℤ◌, ◌-ℤ◌, unsigned_abs};
ghost use Rattle.pair_sum.specs.PairTotal.{at_place, pair_total};
ghost use Rattle.pair_sum.specs.Marked.{count_marked, marked_total};

use crate::correlation::Correlation;
use crate::item::Weighted;
use crate::marked::marked_sum;
use crate::marks::Marks;
use crate::steps::Steps;
use std::sync::ledger::Ledger;

/// A sum less that over all ordered pairs of items of which at least one is marked, in cents
/// squared times 10^6. It takes at most a step for each marked item and each item.
pub fn take_out<T: Weighted, C: Correlation, M: Marks, L: Ledger>(
    q: i128,
    items: &[T],
    corr: &C,
    marked: &M,
    steps: &mut Steps<L>,
) -> i128
    requires size { C.size corr.now ≡ length items.now }
    requires marks { M.size marked.now ≡ length items.now }
    requires in_range { sum_by (λ item. unsigned_abs (T.weight item)) items.now < 84 * 10 ^ 14 }
    requires sum { unsigned_abs q ≤ 8 * 10 ^ 37 }

    ensures value { let ws = map T.weight items.now in
        result ≡ q -ℤ marked_total (M.is_marked marked.now) (C.corr corr.now) ws }
    ensures size { unsigned_abs result ≤ 16 * 10 ^ 37 }
    ensures steps { let n = length items.now in
        steps.new ≤ steps.old + count_marked (M.is_marked marked.now) n * n }
{
    q - marked_sum(items, corr, marked, steps)
}

/// A sum and that over all ordered pairs of items of which at least one is marked, in cents
/// squared times 10^6. It takes at most a step for each marked item and each item.
pub fn put_in<T: Weighted, C: Correlation, M: Marks, L: Ledger>(
    q: i128,
    items: &[T],
    corr: &C,
    marked: &M,
    steps: &mut Steps<L>,
) -> i128
    requires size { C.size corr.now ≡ length items.now }
    requires marks { M.size marked.now ≡ length items.now }
    requires in_range { sum_by (λ item. unsigned_abs (T.weight item)) items.now < 84 * 10 ^ 14 }
    requires sum { unsigned_abs q ≤ 8 * 10 ^ 37 }

    ensures value { let ws = map T.weight items.now in
        result ≡ q +ℤ marked_total (M.is_marked marked.now) (C.corr corr.now) ws }
    ensures size { unsigned_abs result ≤ 16 * 10 ^ 37 }
    ensures steps { let n = length items.now in
        steps.new ≤ steps.old + count_marked (M.is_marked marked.now) n * n }
{
    q + marked_sum(items, corr, marked, steps)
}

/// The sum over all ordered pairs of items as they are after a change, from that before it, in
/// cents squared times 10^6. Both lists are of the same places; those that aren't marked have the
/// same amounts and correlations in both. It takes at most two steps for each marked place and
/// each place.
pub fn renew_sum<T: Weighted, B: Correlation, A: Correlation, M: Marks, L: Ledger>(
    q: i128,
    before: &[T],
    before_corr: &B,
    after: &[T],
    after_corr: &A,
    marked: &M,
    steps: &mut Steps<L>,
) -> i128
    // the lists, and the sum before
    requires same_places { length before.now ≡ length after.now }
    requires before_size { B.size before_corr.now ≡ length before.now }
    requires after_size { A.size after_corr.now ≡ length after.now }
    requires marks { M.size marked.now ≡ length after.now }
    requires before_in_range { sum_by (λ item. unsigned_abs (T.weight item)) before.now
        < 84 * 10 ^ 14 }
    requires after_in_range { sum_by (λ item. unsigned_abs (T.weight item)) after.now
        < 84 * 10 ^ 14 }
    requires sum { q ≡ pair_total (B.corr before_corr.now) (map T.weight before.now) }

    // places that aren't marked
    requires same_amounts { (i : ℕ) → i < length after.now → M.is_marked marked.now i ≡ false →
        at_place (map T.weight before.now) i ≡ at_place (map T.weight after.now) i }
    requires same_correlations { (i j : ℕ) → i < length after.now → j < length after.now →
        M.is_marked marked.now i ≡ false → M.is_marked marked.now j ≡ false →
        B.corr before_corr.now i j ≡ A.corr after_corr.now i j }

    // as from scratch
    ensures value { result ≡ pair_total (A.corr after_corr.now) (map T.weight after.now) }
    ensures size { unsigned_abs result ≤ 8 * 10 ^ 37 }
    ensures gross { let gross = sum_by (λ item. unsigned_abs (T.weight item)) after.now in
        unsigned_abs result ≤ 1000000 * (gross * gross) }
    ensures steps { let n = length after.now in
        steps.new ≤ steps.old + 2 * (count_marked (M.is_marked marked.now) n * n) }
{
    let rest = take_out(q, before, before_corr, marked, steps);
    put_in(rest, after, after_corr, marked, steps)
}
