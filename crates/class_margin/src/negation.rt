//! What the margins of classes are of a book with all sensitivities negated.
ghost use Rattle.class_rates.specs.SimmKinds.declared.kinds.RiskClass.{RiskClass};
ghost use Rattle.class_rates.specs.SimmRules.Params.{Params};
ghost use Rattle.negated_book.specs.Turned.{IsEven};
ghost use Rattle.class_margin.specs.delta.Class.{class_delta_of};
ghost use Rattle.class_margin.specs.volatility.Vega.{class_vega_of};

/// The delta margin and the vega margin of a class are the same of negated sensitivities. It
/// does nothing.
pub fn delta_and_vega_are_even()
    ensures delta { (p : Params) (class : RiskClass) → IsEven (λ ss. class_delta_of p ss class) }
    ensures vega { (p : Params) (class : RiskClass) → IsEven (λ ss. class_vega_of p ss class) }
{}
