//! The vega of a bucket of equity or of commodities: the volatilities of its names, each a
//! concentration group by itself.
ghost use Rattle.std.specs.Prelude.{◌≡◌, ℕ, ◌*◌, ◌^◌, ◌≤◌, All, IfOk, List, map, unsigned_abs};
ghost use Rattle.measured_bucket.specs.SimmKinds.Order.{name_cmp, same_name};
ghost use Rattle.measured_bucket.specs.SimmRules.Bucket.{weighted_value};
ghost use Rattle.measured_bucket.specs.SimmRules.Concentration.{one};
ghost use Rattle.measured_bucket.specs.SimmRules.Priced.{name_rho};
ghost use Rattle.measured_bucket.specs.SimmParams.ListedBuckets.{priced_bucket_view};
ghost use Rattle.measured_bucket.specs.WeightedBucket.declared.scaling.Scaling.TheVariants as ways;
ghost use Rattle.measured_bucket.specs.Measured.{IsNear};
ghost use Rattle.measured_bucket.specs.Runs.{AreTotals};
ghost use Rattle.measured_bucket.specs.Values.{IsSmall};
ghost use Rattle.measured_bucket.specs.Vega.{vega_alone, vega_from};
ghost use Rattle.measured_bucket.specs.declared.tenor_scale.TenorScale.TheVariants as scale;
ghost use Rattle.class_priced.specs.Sums.{name_sums};
ghost use Rattle.class_priced.specs.Unweighed.{unweighed_vega};
ghost use Rattle.class_priced.specs.Weights.{vega_name};

use crate::listed::ListedPriced;
use measured_bucket::mh_units::Corr6;
use measured_bucket::simm_kinds::FullName;
use measured_bucket::weighted_bucket::{Scaling, Weighed};
use measured_bucket::{
    Column, EvenRho, Measured, TenorSum, VegaTerms, Weighing, vega_weighing, weigh_vega,
};
use std::alloc::{AllocError, Global};

/// The vega of the names of a bucket.
#[derive(Clone, Copy)]
pub struct PricedVega<'a> {
    /// The bucket.
    pub listed: ListedPriced,
    /// What the nets to the volatilities of each name come to, each tenor counted once; in the
    /// order of the names.
    pub names: &'a [TenorSum<&'a FullName>],
}

impl<'a> Measured for PricedVega<'a> {
    type Net = TenorSum<&'a FullName>;

    type Rho = EvenRho;

    ghost ready = { λ x.
        AreTotals name_cmp scale.Even (λ _. x.listed.bucket.sigma.0) (name_sums x.names.now) };

    ghost Of = { List ℕ };

    ghost of = { λ net. net.of.now };

    ghost same = { same_name };

    ghost rho = { λ x. name_rho (priced_bucket_view x.listed.bucket) };

    ghost weighted = { λ x. map (vega_name x.listed.hvr.0 (priced_bucket_view x.listed.bucket))
        (name_sums x.names.now) };

    ghost unweighed = { λ x. let b = priced_bucket_view x.listed.bucket in
        map (unweighed_vega x.listed.hvr.0 b) (name_sums x.names.now) };

    ghost weigh = { weighted_value };

    ghost cr = { λ _. one };

    ghost near = { λ x.
        IsNear (10 ^ 10) 832799998 695 (λ _. x.listed.bucket.sigma.0) (name_sums x.names.now) };

    ghost scaling = { ways.Concentrated };

    fn scaling(&self) -> Scaling {
        Scaling::Concentrated
    }

    fn nets(&self) -> &[TenorSum<&'a FullName>] {
        self.names
    }

    fn weighings(&self, alloc: Global) -> Result<Vec<Weighing>, AllocError> {
        name_weighings(alloc, &vega_terms(&self.listed), self.names)
    }

    fn column(&self, alloc: Global) -> Result<Column<EvenRho>, AllocError> {
        let factors = weigh_names(alloc, &vega_terms(&self.listed), self.names)?;
        let rho = self.listed.correlated(factors.len());
        Ok(Column {
            factors,
            rho,
            cr: Corr6::ONE,
        })
    }
}

// What the file says of the vega of a bucket's names.
fn vega_terms(listed: &ListedPriced) -> VegaTerms
    ensures hvr { result.hvr ≡ listed.now.hvr }
    ensures sigma { result.sigma ≡ listed.now.bucket.sigma }
    ensures weight { result.weight ≡ listed.now.bucket.terms.vrw }
    ensures threshold { result.threshold ≡ listed.now.bucket.terms.thresholds.vega }
{
    VegaTerms {
        hvr: listed.hvr,
        sigma: listed.bucket.sigma,
        weight: listed.bucket.terms.vrw,
        threshold: listed.bucket.terms.thresholds.vega,
    }
}

// The vega risk of each name, weighed by its own concentration.
fn weigh_names(
    alloc: Global,
    terms: &VegaTerms,
    names: &[TenorSum<&FullName>],
) -> Result<Vec<Weighed>, AllocError>
    requires sizes { All (λ name. unsigned_abs name.sum ≤ 2 * 10 ^ 20) names.now }
    requires small { All (λ name. IsSmall terms.now.sigma.0 name.sum) names.now }
    ensures { let t = terms.now in IfOk result (λ weighed. weighed.items
        ≡ map (λ name. vega_alone t.hvr.0 t.sigma.0 t.weight.0 t.threshold name.sum) names.now) }
{
    let mut weighed = Vec::with_capacity(alloc, names.len())?;
    for name in names {
        weighed.push(weigh_vega(terms, name.sum))?;
    }
    Ok(weighed)
}

// What each sum is weighed from.
fn name_weighings(
    alloc: Global,
    terms: &VegaTerms,
    names: &[TenorSum<&FullName>],
) -> Result<Vec<Weighing>, AllocError>
    requires { All (λ name. unsigned_abs name.sum ≤ 2 * 10 ^ 20) names.now }
    ensures { let t = terms.now in IfOk result (λ weighings. weighings.items
        ≡ map (λ name. vega_from t.hvr.0 t.sigma.0 t.weight.0 t.threshold name.sum) names.now) }
{
    let mut weighings = Vec::with_capacity(alloc, names.len())?;
    for name in names {
        weighings.push(vega_weighing(terms, name.sum))?;
    }
    Ok(weighings)
}
