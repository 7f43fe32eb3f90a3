//! What the margins of classes hang on, and what is kept rightly as a book changes.
ghost use Rattle.std.specs.Prelude.{◌≡◌, List, Some, None, IfSome};
ghost use Rattle.kept_buckets.specs.SimmKinds.declared.key.FactorKey.{FactorKey};
ghost use Rattle.kept_buckets.specs.SimmKinds.declared.row.CrifRow.{CrifRow as Row};
ghost use Rattle.kept_buckets.specs.SimmKinds.declared.kinds.Measure.{Measure};
ghost use Rattle.kept_buckets.specs.SimmKinds.declared.kinds.ProductClass.{ProductClass};
ghost use Rattle.kept_buckets.specs.SimmKinds.declared.kinds.RiskClass.{RiskClass};
ghost use Rattle.kept_buckets.specs.SimmRules.Params.{Params};
ghost use Rattle.kept_buckets.specs.SimmRules.Simm.{class_margin_of};
ghost use Rattle.kept_buckets.specs.FactorBook.declared.holding.Holding.{Holding};
ghost use Rattle.kept_buckets.specs.FactorBook.declared.place.Place.{Place};
ghost use Rattle.class_margin.specs.names_delta.Values.{nets_in};
ghost use Rattle.kept_buckets.specs.Kept.{Kept, cached_in, value_at, margin_at};
ghost use Rattle.kept_buckets.specs.Touched.{Forgets, SameElsewhere};
ghost use Rattle.book_margin.specs.Classes.{class_factors};
ghost use Rattle.book_margin.specs.Right.{AreRight, value_in};

/// The margin of a risk class in a product class hangs on its own factors alone, of both sides:
/// two books that have the same there have the same margin. It does nothing.
pub fn class_margin_hangs_on_its_factors()
    ensures { (p : Params) (product : ProductClass) (class : RiskClass)
        (f g : List (FactorKey × Holding))
        → class_factors product class f ≡ class_factors product class g
        → class_margin_of p (nets_in product f) class
        ≡ class_margin_of p (nets_in product g) class }
{}

/// What is kept rightly of a book is right for the book after rows came or went, once what the
/// rows touch is forgotten. It does nothing.
pub fn touched_stays_right()
    ensures { (p : Params) (rows : List Row) (f g : List (FactorKey × Holding)) (old new : Kept)
        → AreRight p f old → SameElsewhere rows f g → Forgets rows old new → AreRight p g new }
{
    class_margin_hangs_on_its_factors();
}

/// Where nothing is kept, nothing is wrong. It does nothing.
pub fn nothing_is_right()
    ensures { (p : Params) (f : List (FactorKey × Holding)) (kept : Kept)
        → ((place : Place) → value_at kept place ≡ None)
        → ((product : ProductClass) (class : RiskClass) → margin_at kept product class ≡ None)
        → AreRight p f kept }
{}

/// A value that is kept rightly is that of its place in its measure, from scratch. It does nothing.
pub fn kept_values_are_from_scratch()
    ensures { (p : Params) (f : List (FactorKey × Holding)) (kept : Kept) → AreRight p f kept
        → (place : Place) (measure : Measure) → IfSome (cached_in kept place measure)
        (λ value. Some value ≡ value_in p f place measure) }
{}
