ghost use Rattle.std.specs.Prelude.{◌≡◌, option_map};
ghost use Rattle.measured_bucket.specs.SimmRules.Risks.{risk};
ghost use Rattle.measured_bucket.specs.SimmRules.Rates.{tenor_of};
ghost use Rattle.class_rates.specs.Volatilities.{as_volatility_alone, rule_volatility};

use measured_bucket::simm_kinds::{Factor, FactorKey, Tenor};

/// A volatility of a currency, by what its correlations go by.
#[derive(Clone, Copy)]
pub enum Volatility {
    /// Of its interest rates.
    Rates { tenor: Tenor },
    /// Of its inflation.
    Inflation { tenor: Tenor },
}

impl Volatility {
    /// The volatility that a key is a sensitivity to, of whatever currency; `None` where it is to
    /// none of a currency.
    pub fn of(key: &FactorKey) -> Option<Volatility>
        ensures { option_map rule_volatility result ≡ as_volatility_alone (risk key.now.factor) }
    {
        match &key.factor {
            Factor::IrVol { tenor, .. } => Some(Volatility::Rates { tenor: *tenor }),
            Factor::InflationVol { tenor, .. } => Some(Volatility::Inflation { tenor: *tenor }),
            _ => None,
        }
    }

    /// Its tenor.
    pub fn tenor(self) -> Tenor
        ensures { result ≡ tenor_of (rule_volatility self) }
    {
        match self {
            Volatility::Rates { tenor } | Volatility::Inflation { tenor } => tenor,
        }
    }
}
