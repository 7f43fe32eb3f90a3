mod credit;
mod pairs;
mod priced;
mod rates;
mod rows;

ghost use Rattle.std.specs.Prelude.{◌≡◌, List, ℕ, IfOk, ◌≤◌, unsigned_abs};
ghost use Rattle.simm_rules.specs.ForeignExchange.{is_own_currency, fx_sigma};
ghost use Rattle.simm_rules.specs.ForeignExchange.{fx_weight as weight_of};
ghost use Rattle.simm_rules.specs.ForeignExchange.{fx_threshold as threshold_of};
ghost use Rattle.simm_rules.specs.Simm.{psi};
ghost use Rattle.simm_params.specs.Ranges.{weights, lambda_bases, sigmas, IsWithin};
ghost use Rattle.simm_params.specs.Categories.{volatility, concentration, category_weight};
ghost use Rattle.simm_params.specs.Categories.{category_rho, category_threshold};
ghost use Rattle.simm_params.specs.FxLookups.{pair_sigma};
ghost use Rattle.simm_params.specs.Facts.{IsParams, IsWeighed};
ghost use Rattle.simm_params.specs.TablesView.{tables_view};

use crate::category::{ConcentrationCategory, VolatilityCategory};
use crate::tables::Tables;
use simm_rules::mh_units::{Corr6, Rate4};
use simm_rules::simm_kinds::{Currency, CurrencyPair, RiskClass};
use std::alloc::{AllocError, Global};
use std::marker::Model;
use std::sync::Arc;

/// The parameters of the margin rule. Rates are in ten-thousandths and thresholds in cents, each
/// in its range; each matrix is symmetric, and no threshold is too thin beside a weight. They
/// stand once for all that hold them. Contracts see the plain record of the rule.
#[derive(Drop)]
pub struct Params {
    tables: Arc<Tables, Global>,
}

impl Model for Params {
    ghost use Rattle.simm_rules.specs.Params.{Params as ParamsValue};

    ghost Value = { ParamsValue };

    ghost use Rattle.std.specs.Arc.{arc_value};
    ghost use Rattle.simm_params.specs.TablesView.{tables_view};
    ghost use Rattle.simm_params.specs.Facts.{IsParams};

    ghost view = { λ p. tables_view (arc_value p.tables) };

    ghost invariant = { λ p. IsParams (tables_view (arc_value p.tables)) };
}

impl Params {
    /// The parameters of a file that passed its tests. The only error is want of memory.
    pub fn new(alloc: Global, tables: Tables) -> Result<Params, AllocError>
        requires { IsParams (tables_view tables) }
        ensures { IfOk result (λ p. p ≡ tables_view tables) }
    {
        let tables = Arc::new(alloc, tables)?;
        Ok(Params { tables })
    }

    /// What each parameter set keeps, and what follows at every currency. It does nothing.
    pub fn facts(&self)
        ensures params { IsParams self.now }
        ensures weighed { (currency : List ℕ)
            → IsWeighed (weight_of self.now currency) (threshold_of self.now currency) }
    {
        let _tables = &self.tables;
    }

    /// The same parameters for one more holder. It takes no memory. The only error comes at
    /// 2^63 holders.
    pub fn share(&self) -> Result<Params, AllocError>
        ensures { IfOk result (λ p. p ≡ self.now) }
    {
        let tables = Arc::try_clone(&self.tables)?;
        Ok(Params { tables })
    }

    /// Whether this is the calculation currency.
    pub fn is_calculation_currency(&self, currency: &Currency) -> bool
        ensures { result ≡ is_own_currency self.now currency.now }
    {
        currency.letters() == self.tables.calculation_currency.letters()
    }

    /// The base of the curvature scale, in millionths.
    pub fn lambda_base(&self) -> Corr6
        ensures value { result.0 ≡ self.now.lambda_base }
        ensures range { IsWithin lambda_bases result.0 }
    {
        self.tables.lambda_base
    }

    /// The correlation of two risk classes, in ten-thousandths: 1 of one with itself.
    pub fn psi(&self, a: RiskClass, b: RiskClass) -> Rate4
        ensures value { result.0 ≡ psi self.now a b }
        ensures size { unsigned_abs result.0 ≤ 10000 }
    {
        if a == b {
            Rate4(10_000)
        } else {
            self.tables.psi.rate(a as usize, b as usize)
        }
    }

    /// The risk weight of base correlations, in ten-thousandths.
    pub fn base_weight(&self) -> Rate4
        ensures value { result.0 ≡ self.now.base_weight }
        ensures range { IsWithin weights result.0 }
    {
        self.tables.base.weight
    }

    /// The correlation of two different index families, in ten-thousandths.
    pub fn base_rho(&self) -> Rate4
        ensures value { result.0 ≡ self.now.base_rho }
        ensures size { unsigned_abs result.0 ≤ 10000 }
    {
        self.tables.base.rho
    }

    /// The volatility category of a currency.
    pub fn volatility_category(&self, currency: &Currency) -> VolatilityCategory
        ensures { result ≡ volatility self.now currency.now }
    {
        if self.tables.fx.high.contains(*currency) {
            VolatilityCategory::High
        } else {
            VolatilityCategory::Regular
        }
    }

    /// The concentration category of a currency.
    pub fn concentration_category(&self, currency: &Currency) -> ConcentrationCategory
        ensures { result ≡ concentration self.now currency.now }
    {
        if self.tables.fx.first.contains(*currency) {
            ConcentrationCategory::First
        } else if self.tables.fx.second.contains(*currency) {
            ConcentrationCategory::Second
        } else {
            ConcentrationCategory::Third
        }
    }

    /// The risk weight of a currency of this volatility category, in ten-thousandths.
    pub fn fx_weight(&self, category: VolatilityCategory) -> Rate4
        ensures { result.0 ≡ category_weight self.now category }
    {
        let weights = &self.tables.fx.weights;
        match category {
            VolatilityCategory::Regular => weights.regular,
            VolatilityCategory::High => weights.high,
        }
    }

    /// The correlation of two different currencies of these volatility categories, in
    /// ten-thousandths.
    pub fn fx_rho(&self, a: VolatilityCategory, b: VolatilityCategory) -> Rate4
        ensures value { result.0 ≡ category_rho self.now a b }
        ensures size { unsigned_abs result.0 ≤ 10000 }
    {
        let rhos = &self.tables.fx.rhos;
        match (a, b) {
            (VolatilityCategory::High, VolatilityCategory::High) => rhos.high,
            (VolatilityCategory::Regular, VolatilityCategory::Regular) => rhos.regular,
            _ => rhos.mixed,
        }
    }

    /// The volatility of a pair whose currencies are of these volatility categories,
    /// in ten-thousandths.
    pub fn fx_sigma(&self, a: VolatilityCategory, b: VolatilityCategory) -> Rate4
        ensures value { result.0 ≡ pair_sigma self.now.fx a b }
        ensures range { IsWithin sigmas result.0 }
    {
        self.tables.fx.sigma(a, b)
    }

    /// The volatility of a pair by the volatility categories of both currencies, in
    /// ten-thousandths.
    pub fn pair_volatility(&self, pair: CurrencyPair) -> Rate4
        ensures value { result.0 ≡ fx_sigma self.now pair }
        ensures range { IsWithin sigmas result.0 }
    {
        let first = self.volatility_category(&pair.first());
        let second = self.volatility_category(&pair.second());
        self.fx_sigma(first, second)
    }

    /// The threshold of a concentration category, in cents.
    pub fn fx_threshold(&self, category: ConcentrationCategory) -> i64
        ensures { result ≡ category_threshold self.now category }
    {
        let thresholds = &self.tables.fx.thresholds;
        match category {
            ConcentrationCategory::First => thresholds.first,
            ConcentrationCategory::Second => thresholds.second,
            ConcentrationCategory::Third => thresholds.third,
        }
    }
}
