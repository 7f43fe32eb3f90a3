//! What rows touch, and what they leave as it was.
ghost use Rattle.std.specs.Prelude.{◌≡◌, ◌≢◌, ◌+◌, ◌*◌, ◌≤◌, ◌++◌, List, [], None};
ghost use Rattle.factor_book.specs.SimmKinds.declared.key.FactorKey.{FactorKey};
ghost use Rattle.factor_book.specs.SimmKinds.declared.row.CrifRow.{CrifRow as Row};
ghost use Rattle.factor_book.specs.declared.holding.Holding.{Holding};
ghost use Rattle.factor_book.specs.declared.place.Place.{Place};
ghost use Rattle.factor_book.specs.Factors.{factors_of};
ghost use Rattle.factor_book.specs.Places.{factors_at, lent_at};
ghost use Rattle.factor_book.specs.declared.value.PlaceValue.{PlaceValue};
ghost use Rattle.factor_book.specs.Value.{measures_of};
ghost use Rattle.kept_buckets.specs.Dirty.{Count, steps_left};
ghost use Rattle.kept_buckets.specs.Kept.{Kept, KeepsValue, value_at};
ghost use Rattle.kept_buckets.specs.Touched.{Forgets, SameElsewhere};

use factor_book::factors_are_netted;

/// Rows that come to a book, or go from it, change the factors of their own keys alone. It
/// does nothing.
pub fn other_factors_stand()
    ensures added { (held came : List Row)
        → SameElsewhere came (factors_of held) (factors_of (held ++ came)) }
    ensures taken { (before gone after : List Row) → SameElsewhere gone
        (factors_of (before ++ gone ++ after)) (factors_of (before ++ after)) }
{
    factors_are_netted();
}

/// Rows after rows touch what they touch together. It does nothing.
pub fn touches_add_up()
    ensures forgotten { (xs ys : List Row) (a b c : Kept) → Forgets xs a b → Forgets ys b c
        → Forgets (xs ++ ys) a c }
    ensures others { (xs ys : List Row) (f g h : List (FactorKey × Holding)) → SameElsewhere xs f g
        → SameElsewhere ys g h → SameElsewhere (xs ++ ys) f h }
{}

/// A value that is kept of a place of which none was saves the steps that it may take, however the
/// factors of a place are counted. It does nothing.
pub fn kept_values_save_steps()
    ensures { (count : Count) (old new : Kept) (place : Place) (value : PlaceValue)
        (factors : List (FactorKey × Holding)) → KeepsValue old new place value
        → value_at old place ≡ None → factors_at place factors ≢ []
        → let n = count (lent_at factors place) in
        steps_left count new factors + measures_of place.stand * (n * n)
        ≤ steps_left count old factors }
{}
