//! The look-ups of interest rates.
ghost use Rattle.std.specs.Prelude.{◌≡◌, ◌≤◌, List, ℕ, unsigned_abs};
ghost use Rattle.simm_rules.specs.SimmKinds.Order.{tenor_place};
ghost use Rattle.simm_rules.specs.Lookups.{at_place};
ghost use Rattle.simm_rules.specs.Rates.{curve_weights, rate_thresholds, tenor_rho, sub_rho};
ghost use Rattle.simm_params.specs.Ranges.{weights, vega_weights, ir_hvrs, IsWithin};
ghost use Rattle.simm_params.specs.RateLookups.{curve_category, category_curve};
ghost use Rattle.simm_params.specs.ThresholdView.{thresholds_view};
ghost use Rattle.simm_params.specs.Weighed.{AreCorrelations, AreRatesWeighed};

use super::Params;
use crate::category::CurveCategory;
use crate::thresholds::Thresholds;
use simm_rules::mh_units::Rate4;
use simm_rules::simm_kinds::{Currency, SubCurve, Tenor};

/// The correlation of a rate with itself.
const UNIT: Rate4 = Rate4(10_000);

impl Params {
    /// What follows at every currency. It does nothing.
    pub fn rate_facts(&self)
        ensures weighed { (currency : List ℕ) → AreRatesWeighed self.now currency }
        ensures rho { AreCorrelations self.now.ir.rho }
    {
        let _tables = &self.tables;
    }

    /// The volatility category of a currency's curves, which decides their weights.
    pub fn curve_category(&self, currency: &Currency) -> CurveCategory
        ensures value { result ≡ curve_category self.now currency.now }
        ensures weights { category_curve self.now result ≡ curve_weights self.now currency.now }
    {
        let ir = &self.tables.ir;
        if ir.low.contains(*currency) {
            CurveCategory::Low
        } else if ir.regular.contains(*currency) {
            CurveCategory::Regular
        } else {
            CurveCategory::High
        }
    }

    /// The risk weight of a curve at a tenor, in ten-thousandths, where the currency's curves are
    /// of this category.
    pub fn curve_weight(&self, category: CurveCategory, tenor: Tenor) -> Rate4
        ensures value { result.0 ≡ at_place (category_curve self.now category) (tenor_place tenor) }
        ensures range { IsWithin weights result.0 }
    {
        let curves = &self.tables.ir.curves;
        let weights = match category {
            CurveCategory::Low => &curves.low,
            CurveCategory::Regular => &curves.regular,
            CurveCategory::High => &curves.high,
        };
        weights.rate(tenor as usize)
    }

    /// The risk weight of inflation, in ten-thousandths.
    pub fn inflation_weight(&self) -> Rate4
        ensures value { result.0 ≡ self.now.ir.inflation_weight }
        ensures range { IsWithin weights result.0 }
    {
        self.tables.ir.weights.inflation
    }

    /// The risk weight of cross-currency basis, in ten-thousandths.
    pub fn basis_weight(&self) -> Rate4
        ensures value { result.0 ≡ self.now.ir.basis_weight }
        ensures range { IsWithin weights result.0 }
    {
        self.tables.ir.weights.basis
    }

    /// The concentration thresholds of the group that lists a currency, or else of all others,
    /// in cents.
    pub fn rate_thresholds(&self, currency: &Currency) -> Thresholds
        ensures { thresholds_view result ≡ rate_thresholds self.now currency.now }
    {
        let ir = &self.tables.ir;
        match ir.groups.thresholds(*currency) {
            Some(thresholds) => thresholds,
            None => ir.other,
        }
    }

    /// The correlation of two tenors, in ten-thousandths: 1 of one with itself.
    pub fn tenor_rho(&self, a: Tenor, b: Tenor) -> Rate4
        ensures value { result.0 ≡ tenor_rho self.now a b }
        ensures size { unsigned_abs result.0 ≤ 10000 }
    {
        if a == b {
            UNIT
        } else {
            self.tables.ir.tenor_rhos.rate(a as usize, b as usize)
        }
    }

    /// The correlation of two sub-curves, in ten-thousandths: 1 of one with itself.
    pub fn sub_rho(&self, a: SubCurve, b: SubCurve) -> Rate4
        ensures value { result.0 ≡ sub_rho self.now a b }
        ensures size { unsigned_abs result.0 ≤ 10000 }
    {
        if a == b {
            UNIT
        } else {
            self.tables.ir.rhos.phi
        }
    }

    /// The correlation of a curve with inflation, and of their volatilities, in ten-thousandths.
    pub fn inflation_rho(&self) -> Rate4
        ensures value { result.0 ≡ self.now.ir.inflation_rho }
        ensures size { unsigned_abs result.0 ≤ 10000 }
    {
        self.tables.ir.rhos.inflation
    }

    /// The correlation of cross-currency basis with each other rate, in ten-thousandths.
    pub fn basis_rho(&self) -> Rate4
        ensures value { result.0 ≡ self.now.ir.basis_rho }
        ensures size { unsigned_abs result.0 ≤ 10000 }
    {
        self.tables.ir.rhos.basis
    }

    /// The correlation of two different currencies, in ten-thousandths.
    pub fn rate_gamma(&self) -> Rate4
        ensures value { result.0 ≡ self.now.ir.gamma }
        ensures size { unsigned_abs result.0 ≤ 10000 }
    {
        self.tables.ir.rhos.gamma
    }

    /// The vega risk weight of interest rates, in ten-thousandths.
    pub fn rate_vrw(&self) -> Rate4
        ensures value { result.0 ≡ self.now.ir.vrw }
        ensures range { IsWithin vega_weights result.0 }
    {
        self.tables.ir.volatility.vrw
    }

    /// The historical volatility ratio of interest rates, in ten-thousandths.
    pub fn rate_hvr(&self) -> Rate4
        ensures value { result.0 ≡ self.now.ir.hvr }
        ensures range { IsWithin ir_hvrs result.0 }
    {
        self.tables.ir.volatility.hvr
    }
}
