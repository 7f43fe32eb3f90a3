//! The look-ups of volatilities of currency pairs.
ghost use Rattle.std.specs.Prelude.{◌≡◌, ◌≤◌, pos, unsigned_abs};
ghost use Rattle.simm_rules.specs.SimmKinds.Pair.{Pair};
ghost use Rattle.simm_rules.specs.ForeignExchange.{fx_vega_threshold as threshold_of};
ghost use Rattle.simm_params.specs.FxLookups.{pair_threshold};
ghost use Rattle.simm_params.specs.Ranges.{vega_weights, hvrs, IsWithin};
ghost use Rattle.simm_params.specs.Facts.{IsWeighed};

use super::Params;
use crate::category::ConcentrationCategory;
use simm_rules::mh_units::Rate4;

impl Params {
    /// What follows at every pair. It does nothing.
    pub fn pair_facts(&self)
        ensures { (pair : Pair) → IsWeighed (pos 10000) (threshold_of self.now pair) }
    {
        let _tables = &self.tables;
    }

    /// The vega threshold of a pair whose currencies, in their order, are of these concentration
    /// categories, in cents.
    pub fn fx_vega_threshold(
        &self,
        first: ConcentrationCategory,
        second: ConcentrationCategory,
    ) -> i64
        ensures { result ≡ pair_threshold self.now.fx first second }
    {
        self.tables.fx.vega_threshold(first, second)
    }

    /// The vega risk weight of foreign exchange, in ten-thousandths.
    pub fn fx_vrw(&self) -> Rate4
        ensures value { result.0 ≡ self.now.fx.vrw }
        ensures range { IsWithin vega_weights result.0 }
    {
        self.tables.fx.volatilities.vrw
    }

    /// The historical volatility ratio of foreign exchange, in ten-thousandths.
    pub fn fx_hvr(&self) -> Rate4
        ensures value { result.0 ≡ self.now.fx.hvr }
        ensures range { IsWithin hvrs result.0 }
    {
        self.tables.fx.volatilities.hvr
    }

    /// The correlation of the volatilities of two different pairs, in ten-thousandths.
    pub fn fx_vol_rho(&self) -> Rate4
        ensures value { result.0 ≡ self.now.fx.vol_rho }
        ensures size { unsigned_abs result.0 ≤ 10000 }
    {
        self.tables.fx.volatilities.rho
    }
}
