//! Equity and commodities.
ghost use Rattle.std.specs.Prelude.{ℤ};
ghost use Rattle.factor_book.specs.SimmRules.Params.{PricedBucket, PricedParams};
ghost use Rattle.factor_book.specs.SimmRules.declared.classes.PricedClass.{PricedClass};
ghost use Rattle.factor_book.specs.SimmRules.Priced.{price_value, price_vega_value};
ghost use Rattle.factor_book.specs.SimmRules.Priced.{price_curvature_value};
ghost use Rattle.factor_book.specs.SimmRules.Priced.{price_delta, price_vega};
ghost use Rattle.factor_book.specs.SimmRules.Priced.{price_curvature_parts};
ghost use Rattle.negated_book.specs.Turned.{IsEven, Turns, TurnParts};

/// Of negated sensitivities a bucket has the negated sums and is else the same, in each measure;
/// delta and vega of the class are the same, and the buckets of its curvature have their sums
/// negated. It does nothing.
pub fn names_turn()
    ensures delta_value { (b : PricedBucket) → Turns (price_value b) }
    ensures vega_value { (hvr : ℤ) (b : PricedBucket) → Turns (price_vega_value hvr b) }
    ensures curvature_value { (b : PricedBucket) → Turns (price_curvature_value b) }
    ensures delta { (c : PricedParams) (class : PricedClass) → IsEven (price_delta c class) }
    ensures vega { (c : PricedParams) (class : PricedClass) → IsEven (price_vega c class) }
    ensures curvature { (c : PricedParams) (class : PricedClass)
        → TurnParts (price_curvature_parts c class) }
{}
