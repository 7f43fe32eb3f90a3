ghost use Rattle.std.specs.Prelude.{◌≡◌};
ghost use Rattle.params_file.specs.IrRate.{rate_key, rate_range};

use crate::range::{CORRELATION, IR_HVR, VEGA_WEIGHT, WEIGHT};
use simm_params::toml_values::Range;

/// What the table of interest rates has as a single rate, in the order of the file.
#[derive(Clone, Copy)]
pub enum IrRate {
    /// The risk weight of inflation.
    InflationWeight,
    /// The risk weight of cross-currency basis.
    BasisWeight,
    /// The correlation of two sub-curves.
    Phi,
    /// The correlation with inflation.
    InflationRho,
    /// The correlation with cross-currency basis.
    BasisRho,
    /// The correlation of two currencies.
    Gamma,
    /// The vega risk weight.
    Vrw,
    /// The historical volatility ratio.
    Hvr,
}

impl IrRate {
    /// The key at which it stands.
    pub fn key(self) -> &'static str
        ensures { result.now ≡ rate_key self }
    {
        match self {
            IrRate::InflationWeight => "inflation_weight",
            IrRate::BasisWeight => "basis_weight",
            IrRate::Phi => "phi",
            IrRate::InflationRho => "inflation_rho",
            IrRate::BasisRho => "basis_rho",
            IrRate::Gamma => "gamma",
            IrRate::Vrw => "vrw",
            IrRate::Hvr => "hvr",
        }
    }

    /// The range that it is in.
    pub fn range(self) -> Range
        ensures { result ≡ rate_range self }
    {
        match self {
            IrRate::InflationWeight | IrRate::BasisWeight => WEIGHT,
            IrRate::Phi | IrRate::InflationRho | IrRate::BasisRho | IrRate::Gamma => CORRELATION,
            IrRate::Vrw => VEGA_WEIGHT,
            IrRate::Hvr => IR_HVR,
        }
    }
}
