//! Base correlation.
ghost use Rattle.factor_book.specs.SimmRules.Params.{Params};
ghost use Rattle.factor_book.specs.SimmRules.BaseCorrelation.{base_value, base_margin};
ghost use Rattle.negated_book.specs.Turned.{IsEven, Turns};

/// Of negated sensitivities its one bucket has the negated sums and is else the same, so its
/// margin is the same. It does nothing.
pub fn base_correlation_is_even()
    ensures value { (p : Params) → Turns (base_value p) }
    ensures margin { (p : Params) → IsEven (base_margin p) }
{}
