//! Interest rates.
ghost use Rattle.std.specs.Prelude.{ℕ, List};
ghost use Rattle.factor_book.specs.SimmRules.Params.{Params};
ghost use Rattle.factor_book.specs.SimmRules.Rates.{currency_value, currency_vega_value};
ghost use Rattle.factor_book.specs.SimmRules.Rates.{currency_curvature_value};
ghost use Rattle.factor_book.specs.SimmRules.Rates.{rate_delta, rate_vega, rate_curvature_parts};
ghost use Rattle.negated_book.specs.Turned.{IsEven, Turns, TurnParts};

/// Of negated sensitivities a currency has the negated sums and is else the same, in each measure;
/// delta and vega of the class are the same, and the currencies of its curvature have their sums
/// negated. It does nothing.
pub fn rates_turn()
    ensures delta_value { (p : Params) (currency : List ℕ) → Turns (currency_value p currency) }
    ensures vega_value { (p : Params) (currency : List ℕ) → Turns (currency_vega_value p currency) }
    ensures curvature_value { (p : Params) → Turns (currency_curvature_value p) }
    ensures delta { (p : Params) → IsEven (rate_delta p) }
    ensures vega { (p : Params) → IsEven (rate_vega p) }
    ensures curvature { (p : Params) → TurnParts (rate_curvature_parts p) }
{}
