//! The delta of a bucket of equity or of commodities: its names, each a concentration group
//! by itself.
ghost use Rattle.std.specs.Prelude.{◌≡◌, ℕ, ◌*◌, ◌^◌, ◌≤◌, All, IfOk, List, map, unsigned_abs};
ghost use Rattle.measured_bucket.specs.SimmKinds.Order.{same_name};
ghost use Rattle.measured_bucket.specs.SimmRules.Bucket.{weighted_value};
ghost use Rattle.measured_bucket.specs.SimmRules.Concentration.{one};
ghost use Rattle.measured_bucket.specs.SimmRules.Priced.{name_rho};
ghost use Rattle.measured_bucket.specs.SimmParams.ListedBuckets.{priced_bucket_view};
ghost use Rattle.measured_bucket.specs.WeightedBucket.Group.{CanConcentrate};
ghost use Rattle.measured_bucket.specs.WeightedBucket.declared.scaling.Scaling.TheVariants as ways;
ghost use Rattle.measured_bucket.specs.Alone.{weighed_alone};
ghost use Rattle.measured_bucket.specs.Explained.{from_itself};
ghost use Rattle.measured_bucket.specs.Measured.{IsNear};
ghost use Rattle.class_priced.specs.Names.{names_view, AreNames};
ghost use Rattle.class_priced.specs.Unweighed.{unweighed_name};
ghost use Rattle.class_priced.specs.Weights.{delta_name};

use crate::listed::ListedPriced;
use crate::names::NameNet;
use measured_bucket::mh_units::{Corr6, Rate4};
use measured_bucket::weighted_bucket::{Scaling, Weighed};
use measured_bucket::{Column, EvenRho, Measured, Weighing, weigh_alone};
use std::alloc::{AllocError, Global};

/// The delta of the names of a bucket.
#[derive(Clone, Copy)]
pub struct PricedDelta<'a> {
    /// The bucket.
    pub listed: ListedPriced,
    /// Its names, in their order.
    pub names: &'a [NameNet<'a>],
}

impl<'a> Measured for PricedDelta<'a> {
    type Net = NameNet<'a>;

    type Rho = EvenRho;

    ghost ready = { λ x. AreNames x.listed.bucket.terms.weight.0 (names_view x.names.now) };

    ghost Of = { List ℕ };

    ghost of = { λ net. net.name.now };

    ghost same = { same_name };

    ghost rho = { λ x. name_rho (priced_bucket_view x.listed.bucket) };

    ghost weighted = { λ x.
        map (delta_name (priced_bucket_view x.listed.bucket)) (names_view x.names.now) };

    ghost unweighed = { λ x. let b = priced_bucket_view x.listed.bucket in
        map (unweighed_name b) (names_view x.names.now) };

    ghost weigh = { weighted_value };

    ghost cr = { λ _. one };

    ghost near = { λ x. IsNear (10 ^ 10) 346999999 1 (λ _. x.listed.bucket.terms.weight.0)
        (names_view x.names.now) };

    ghost scaling = { ways.Concentrated };

    fn scaling(&self) -> Scaling {
        Scaling::Concentrated
    }

    fn nets(&self) -> &[NameNet<'a>] {
        self.names
    }

    fn weighings(&self, alloc: Global) -> Result<Vec<Weighing>, AllocError> {
        let terms = self.listed.bucket.terms;
        name_weighings(alloc, terms.weight, terms.thresholds.delta, self.names)
    }

    fn column(&self, alloc: Global) -> Result<Column<EvenRho>, AllocError> {
        let terms = self.listed.bucket.terms;
        let factors = weigh_names(alloc, terms.weight, terms.thresholds.delta, self.names)?;
        let rho = self.listed.correlated(factors.len());
        Ok(Column {
            factors,
            rho,
            cr: Corr6::ONE,
        })
    }
}

// Each net, weighed by its own concentration over the threshold, in cents.
fn weigh_names(
    alloc: Global,
    weight: Rate4,
    threshold: i64,
    names: &[NameNet],
) -> Result<Vec<Weighed>, AllocError>
    requires concentrate { All (λ name. CanConcentrate name.net threshold) names.now }
    requires small { All
        (λ name. unsigned_abs name.net * unsigned_abs weight.0 ≤ 10 ^ 28) names.now }
    ensures { IfOk result (λ weighed.
        weighed.items ≡ map (λ name. weighed_alone weight.0 threshold name.net) names.now) }
{
    let mut weighed = Vec::with_capacity(alloc, names.len())?;
    for name in names {
        weighed.push(weigh_alone(weight, threshold, name.net))?;
    }
    Ok(weighed)
}

// What each net is weighed from.
fn name_weighings(
    alloc: Global,
    weight: Rate4,
    threshold: i64,
    names: &[NameNet],
) -> Result<Vec<Weighing>, AllocError>
    ensures { IfOk result (λ weighings.
        weighings.items ≡ map (λ name. from_itself weight.0 threshold name.net) names.now) }
{
    let mut weighings = Vec::with_capacity(alloc, names.len())?;
    for name in names {
        weighings.push(Weighing::of_itself(weight, threshold, name.net))?;
    }
    Ok(weighings)
}
