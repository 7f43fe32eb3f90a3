//! The values of a bucket of equity or of commodities that the file lists, of the factors of its
//! place in a book.
ghost use Rattle.std.specs.Prelude.{◌≡◌, ◌+◌, ◌*◌, ◌^◌, ◌≤◌, IfOk, length, unsigned_abs};
ghost use Rattle.measured_bucket.specs.SimmRules.Priced.{names_of, price_value};
ghost use Rattle.measured_bucket.specs.SimmRules.Priced.{price_vega_value, price_curvature_value};
ghost use Rattle.measured_bucket.specs.SimmParams.ListedBuckets.{priced_bucket_view};
ghost use Rattle.measured_bucket.specs.Measured.{IsNear, IsSound};
ghost use Rattle.class_priced.specs.Names.{name_nets, volatility_nets};
ghost use Rattle.class_priced.specs.Names.{AreNames, AreNameVolatilities};

use crate::curvature::PricedCurvature;
use crate::delta::PricedDelta;
use crate::listed::ListedPriced;
use crate::names::{delta_names, volatile_names};
use crate::vega::PricedVega;
use measured_bucket::factor_book::PlaceFactors;
use measured_bucket::pair_sum::Steps;
use measured_bucket::simm_rules::BucketMargin;
use measured_bucket::{TenorScale, measure};
use std::alloc::{AllocError, Global};
use std::sync::ledger::Ledger;

/// The delta value of a bucket that the file lists, of the names of its place, which are in range
/// and in order. `n` names take at most `n * n` steps. Want of memory is the only error.
pub fn priced_delta<L: Ledger>(
    alloc: Global,
    listed: ListedPriced,
    lent: &PlaceFactors,
    steps: &mut Steps<L>,
) -> Result<BucketMargin, AllocError>
    requires { AreNames listed.bucket.terms.weight.0 (name_nets lent.now.factors) }
    ensures value { IfOk result (λ m.
        m ≡ price_value (priced_bucket_view listed.bucket) (name_nets lent.now.factors)) }
    ensures sound { IfOk result IsSound }
    ensures near { let weight = listed.bucket.terms.weight.0 in
        IfOk result (λ m. IsNear (10 ^ 10) 346999999 1 (λ _. weight) (name_nets lent.now.factors)
        (unsigned_abs m.gross)) }
    ensures steps { let n = length (name_nets lent.now.factors) in steps.new ≤ steps.old + n * n }
{
    let names = delta_names(alloc, lent)?;
    let measured = PricedDelta {
        listed,
        names: names.as_slice(),
    };
    measure(alloc, &measured, steps)
}

/// The vega value of a bucket that the file lists, of the volatilities of its place, which are in
/// range and in order. Those of `n` names take at most `n * n` steps. Want of memory is the only
/// error.
pub fn priced_vega<L: Ledger>(
    alloc: Global,
    listed: ListedPriced,
    lent: &PlaceFactors,
    steps: &mut Steps<L>,
) -> Result<BucketMargin, AllocError>
    requires { AreNameVolatilities listed.bucket.sigma.0 (volatility_nets lent.now.factors) }
    ensures value { let b = priced_bucket_view listed.bucket in IfOk result (λ m.
        m ≡ price_vega_value listed.hvr.0 b (volatility_nets lent.now.factors)) }
    ensures sound { IfOk result IsSound }
    ensures near { let sigma = listed.bucket.sigma.0 in
        let nets = volatility_nets lent.now.factors in IfOk result (λ m.
        IsNear (10 ^ 10) 832799998 695 (λ _. sigma) nets (unsigned_abs m.gross)) }
    ensures steps { let n = length (names_of (volatility_nets lent.now.factors)) in
        steps.new ≤ steps.old + n * n }
{
    let names = volatile_names(alloc, lent, TenorScale::Even)?;
    let measured = PricedVega {
        listed,
        names: names.as_slice(),
    };
    measure(alloc, &measured, steps)
}

/// The curvature value of a bucket that the file lists, of the volatilities of its place, which
/// are in range and in order. Those of `n` names take at most `n * n` steps. Want of memory is the
/// only error.
pub fn priced_curvature<L: Ledger>(
    alloc: Global,
    listed: ListedPriced,
    lent: &PlaceFactors,
    steps: &mut Steps<L>,
) -> Result<BucketMargin, AllocError>
    requires { AreNameVolatilities listed.bucket.sigma.0 (volatility_nets lent.now.factors) }
    ensures value { IfOk result (λ m. m ≡ price_curvature_value (priced_bucket_view listed.bucket)
        (volatility_nets lent.now.factors)) }
    ensures sound { IfOk result IsSound }
    ensures near { let sigma = listed.bucket.sigma.0 in IfOk result (λ m.
        IsNear 20000 1 1 (λ _. sigma) (volatility_nets lent.now.factors) (unsigned_abs m.gross)) }
    ensures steps { let n = length (names_of (volatility_nets lent.now.factors)) in
        steps.new ≤ steps.old + n * n }
{
    let names = volatile_names(alloc, lent, TenorScale::Curved)?;
    let measured = PricedCurvature {
        listed,
        names: names.as_slice(),
    };
    measure(alloc, &measured, steps)
}
