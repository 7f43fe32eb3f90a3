//! Foreign exchange.
ghost use Rattle.std.specs.Prelude.{◌≡◌, List};
ghost use Rattle.factor_book.specs.SimmRules.Params.{Params};
ghost use Rattle.factor_book.specs.SimmRules.Net.{Sensitivity};
ghost use Rattle.factor_book.specs.SimmRules.ForeignExchange.{fx_value, fx_vega_value};
ghost use Rattle.factor_book.specs.SimmRules.ForeignExchange.{fx_curvature_value};
ghost use Rattle.factor_book.specs.SimmRules.ForeignExchange.{fx_delta, fx_vega, fx_curvature_part};
ghost use Rattle.negated_book.specs.Negated.{negated_nets, negated_part};
ghost use Rattle.negated_book.specs.Turned.{IsEven, Turns};

/// Of negated sensitivities the one bucket has the negated sums and is else the same, in each
/// measure; delta and vega of the class are the same, and the bucket of its curvature has its sums
/// negated. It does nothing.
pub fn exchange_turns()
    ensures delta_value { (p : Params) → Turns (fx_value p) }
    ensures vega_value { (p : Params) → Turns (fx_vega_value p) }
    ensures curvature_value { (p : Params) → Turns (fx_curvature_value p) }
    ensures delta { (p : Params) → IsEven (fx_delta p) }
    ensures vega { (p : Params) → IsEven (fx_vega p) }
    ensures curvature { (p : Params) (ss : List Sensitivity)
        → fx_curvature_part p (negated_nets ss) ≡ negated_part (fx_curvature_part p ss) }
{}
