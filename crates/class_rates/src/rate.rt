ghost use Rattle.std.specs.Prelude.{◌≡◌, option_map};
ghost use Rattle.measured_bucket.specs.SimmRules.Risks.{risk};
ghost use Rattle.class_rates.specs.Rates.{as_rate_alone, rule_rate};

use measured_bucket::simm_kinds::{Factor, FactorKey, SubCurve, Tenor};

/// A rate of a currency, by what its weight and its correlations go by.
#[derive(Clone, Copy)]
pub enum Rate {
    /// A point of a yield curve.
    Curve { tenor: Tenor, sub: SubCurve },
    /// The inflation rate.
    Inflation,
    /// The basis to other currencies.
    Basis,
}

impl Rate {
    /// The rate that a key is a sensitivity to, of whatever currency; `None` where it is to
    /// no rate.
    pub fn of(key: &FactorKey) -> Option<Rate>
        ensures { option_map rule_rate result ≡ as_rate_alone (risk key.now.factor) }
    {
        match &key.factor {
            Factor::IrCurve { tenor, sub, .. } => Some(Rate::Curve {
                tenor: *tenor,
                sub: *sub,
            }),
            Factor::Inflation { .. } => Some(Rate::Inflation),
            Factor::XccyBasis { .. } => Some(Rate::Basis),
            _ => None,
        }
    }
}
