//! Credit, of both classes.
ghost use Rattle.factor_book.specs.SimmRules.Params.{CreditBucket, CreditParams};
ghost use Rattle.factor_book.specs.SimmRules.declared.classes.CreditClass.{CreditClass};
ghost use Rattle.factor_book.specs.SimmRules.Credit.{credit_value, credit_vega_value};
ghost use Rattle.factor_book.specs.SimmRules.Credit.{credit_curvature_value};
ghost use Rattle.factor_book.specs.SimmRules.Credit.{credit_delta, credit_vega};
ghost use Rattle.factor_book.specs.SimmRules.Credit.{credit_curvature_parts};
ghost use Rattle.negated_book.specs.Turned.{IsEven, Turns, TurnParts};

/// Of negated sensitivities a bucket has the negated sums and is else the same, in each measure;
/// delta and vega of the class are the same, and the buckets of its curvature have their sums
/// negated. It does nothing.
pub fn credit_turns()
    ensures delta_value { (b : CreditBucket) → Turns (credit_value b) }
    ensures vega_value { (b : CreditBucket) → Turns (credit_vega_value b) }
    ensures curvature_value { (b : CreditBucket) → Turns (credit_curvature_value b) }
    ensures delta { (c : CreditParams) (class : CreditClass) → IsEven (credit_delta c class) }
    ensures vega { (c : CreditParams) (class : CreditClass) → IsEven (credit_vega c class) }
    ensures curvature { (c : CreditParams) (class : CreditClass)
        → TurnParts (credit_curvature_parts c class) }
{}
