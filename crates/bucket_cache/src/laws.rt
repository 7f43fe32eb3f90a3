//! What the margin of a book costs once rows came or went.
ghost use Rattle.std.specs.Prelude.{◌≡◌, ◌≤◌, List, Some};
ghost use Rattle.book_margin.specs.SimmKinds.declared.key.FactorKey.{FactorKey};
ghost use Rattle.book_margin.specs.SimmKinds.declared.row.CrifRow.{CrifRow as Row};
ghost use Rattle.book_margin.specs.SimmRules.Params.{Params};
ghost use Rattle.book_margin.specs.FactorBook.declared.holding.Holding.{Holding};
ghost use Rattle.book_margin.specs.FactorBook.declared.place.Place.{Place};
ghost use Rattle.book_margin.specs.FactorBook.declared.value.PlaceValue.{PlaceValue};
ghost use Rattle.book_margin.specs.KeptBuckets.Kept.{Kept, value_at};
ghost use Rattle.book_margin.specs.KeptBuckets.Touched.{Forgets};
ghost use Rattle.book_margin.specs.Steps.{steps_due};
ghost use Rattle.bucket_cache.specs.Worked.{steps_over};

/// Of what was kept, and of more values, rows forget what they touch: the margin of a book then
/// takes at most the steps of the places in which one of them lies and of those that were not kept
/// at first. It does nothing.
pub fn touched_values_cost()
    ensures { (p : Params) (rows : List Row) (had more left : Kept)
        (factors : List (FactorKey × Holding)) → ((place : Place) (v : PlaceValue)
        → value_at had place ≡ Some v → value_at more place ≡ Some v)
        → Forgets rows more left → steps_due p left factors ≤ steps_over p rows had factors }
{}
