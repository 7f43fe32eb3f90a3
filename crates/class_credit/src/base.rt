//! Base correlation: the index families of credit that qualifies, in one bucket,
//! without concentration.
ghost use Rattle.std.specs.Prelude.{◌≡◌, ℕ, ◌+◌, ◌*◌, ◌*ℤ◌, ◌^◌, ◌≤◌, pos, unsigned_abs};
ghost use Rattle.std.specs.Prelude.{All, IfOk, List, length, map, option_map};
ghost use Rattle.measured_bucket.specs.MhUnits.Rounding.{away};
ghost use Rattle.measured_bucket.specs.SimmKinds.Order.{same_name};
ghost use Rattle.measured_bucket.specs.SimmRules.BaseCorrelation.{as_index, base_value};
ghost use Rattle.measured_bucket.specs.SimmRules.BaseCorrelation.{index_rho, weighted_index};
ghost use Rattle.measured_bucket.specs.SimmRules.Concentration.{one};
ghost use Rattle.measured_bucket.specs.SimmRules.Risks.{risk};
ghost use Rattle.measured_bucket.specs.WeightedBucket.declared.scaling.Scaling.TheVariants as ways;
ghost use Rattle.measured_bucket.specs.Explained.{without_group};
ghost use Rattle.measured_bucket.specs.Measured.{IsNear, IsSound};
ghost use Rattle.measured_bucket.specs.Values.{IsSmall};
ghost use Rattle.class_credit.specs.Base.{index_nets, index_weight, indices_view};
ghost use Rattle.class_credit.specs.Base.{weighed_net, AreIndices};
ghost use Rattle.class_credit.specs.Unweighed.{unweighed_index};

use measured_bucket::factor_book::PlaceFactors;
use measured_bucket::mh_units::{Corr6, Rate4, div_away};
use measured_bucket::pair_sum::Steps;
use measured_bucket::simm_kinds::{Factor, FactorKey, FullName};
use measured_bucket::simm_params::Params;
use measured_bucket::simm_rules::BucketMargin;
use measured_bucket::weighted_bucket::{Scaling, Weighed};
use measured_bucket::{Column, EvenRho, Measured, Weighing, measure};
use std::alloc::{AllocError, Global};
use std::sync::ledger::Ledger;

/// The net sensitivity to the base correlation of an index family.
#[derive(Clone, Copy)]
pub struct IndexNet<'a> {
    /// The index family.
    pub index: &'a FullName,
    /// In cents.
    pub net: i128,
}

/// The base correlations of a product class, whose margin is the `k` of their one bucket.
#[derive(Clone, Copy)]
pub struct BaseCorrelation<'a> {
    /// The parameters.
    pub params: &'a Params,
    /// The index families, in their order.
    pub indices: &'a [IndexNet<'a>],
}

impl<'a> Measured for BaseCorrelation<'a> {
    type Net = IndexNet<'a>;

    type Rho = EvenRho;

    ghost ready = { λ x. AreIndices x.params.now (indices_view x.indices.now) };

    ghost Of = { List ℕ };

    ghost of = { λ net. net.index.now };

    ghost same = { same_name };

    ghost rho = { λ x. index_rho x.params.now };

    ghost weighted = { λ x. map (weighted_index x.params.now) (indices_view x.indices.now) };

    ghost unweighed = { λ x. map (unweighed_index x.params.now) (indices_view x.indices.now) };

    ghost weigh = { λ weight amount _. away (weight *ℤ amount) (pos (10 ^ 4)) };

    ghost cr = { λ _. one };

    ghost near = { λ x.
        IsNear (10 ^ 10) 346999999 1 (index_weight x.params.now) (indices_view x.indices.now) };

    ghost scaling = { ways.Plain };

    fn scaling(&self) -> Scaling {
        Scaling::Plain
    }

    fn nets(&self) -> &[IndexNet<'a>] {
        self.indices
    }

    fn weighings(&self, alloc: Global) -> Result<Vec<Weighing>, AllocError> {
        index_weighings(alloc, self.params.base_weight(), self.indices)
    }

    fn column(&self, alloc: Global) -> Result<Column<EvenRho>, AllocError> {
        self.params.facts();
        let factors = weigh_indices(alloc, self.params.base_weight(), self.indices)?;
        let rho = EvenRho {
            count: factors.len(),
            rho: self.params.base_rho().in_millionths(),
        };
        Ok(Column {
            factors,
            rho,
            cr: Corr6::ONE,
        })
    }
}

/// The value of the one bucket of a product class's base correlations, of the index families of
/// its place, which are in range and in order. `n` index families take at most `n * n` steps. Want
/// of memory is the only error.
pub fn base_correlation<L: Ledger>(
    alloc: Global,
    params: &Params,
    lent: &PlaceFactors,
    steps: &mut Steps<L>,
) -> Result<BucketMargin, AllocError>
    requires { AreIndices params.now (index_nets lent.now.factors) }
    ensures value { IfOk result (λ m. m ≡ base_value params.now (index_nets lent.now.factors)) }
    ensures sound { IfOk result IsSound }
    ensures near { let indices = index_nets lent.now.factors in IfOk result (λ m.
        IsNear (10 ^ 10) 346999999 1 (index_weight params.now) indices (unsigned_abs m.gross)) }
    ensures steps { let n = length (index_nets lent.now.factors) in steps.new ≤ steps.old + n * n }
{
    let indices = indices_among(alloc, lent)?;
    let measured = BaseCorrelation {
        params,
        indices: indices.as_slice(),
    };
    measure(alloc, &measured, steps)
}

/// The nets to the index families of a place, in their order. Want of memory is the only error.
pub fn indices_among<'a>(
    alloc: Global,
    lent: &'a PlaceFactors,
) -> Result<Vec<IndexNet<'a>>, AllocError>
    ensures { IfOk result (λ nets. indices_view nets.items ≡ index_nets lent.now.factors) }
{
    let mut nets = Vec::with_capacity(alloc, lent.len())?;
    for (key, holding) in lent.iter() {
        if let Some(index) = index_of(key) {
            nets.push(IndexNet {
                index,
                net: holding.net,
            })?;
        }
    }
    Ok(nets)
}

fn index_of(key: &FactorKey) -> Option<&FullName>
    ensures { option_map (λ index. index.now) result ≡ as_index (risk key.now.factor) }
{
    match &key.factor {
        Factor::BaseCorr { index } => Some(index),
        _ => None,
    }
}

// Each net times the weight.
fn weigh_indices(
    alloc: Global,
    weight: Rate4,
    indices: &[IndexNet],
) -> Result<Vec<Weighed>, AllocError>
    requires { All (λ index. IsSmall weight.0 index.net) indices.now }
    ensures { IfOk result (λ weighed.
        weighed.items ≡ map (λ index. weighed_net weight.0 index.net) indices.now) }
{
    let mut weighed = Vec::with_capacity(alloc, indices.len())?;
    for index in indices {
        weighed.push(weigh_index(weight, index.net))?;
    }
    Ok(weighed)
}

// What each net is weighed from.
fn index_weighings(
    alloc: Global,
    weight: Rate4,
    indices: &[IndexNet],
) -> Result<Vec<Weighing>, AllocError>
    ensures { IfOk result (λ weighings.
        weighings.items ≡ map (λ index. without_group weight.0 index.net) indices.now) }
{
    let mut weighings = Vec::with_capacity(alloc, indices.len())?;
    for index in indices {
        weighings.push(Weighing::ungrouped(weight, index.net))?;
    }
    Ok(weighings)
}

// The weight times the net, away from zero to the cent. There is no concentration.
fn weigh_index(weight: Rate4, net: i128) -> Weighed
    requires { IsSmall weight.0 net }
    ensures { result ≡ weighed_net weight.0 net }
{
    Weighed {
        w: div_away(i128::from(weight.0) * net, 10_000),
        cr: Corr6::ONE,
    }
}
