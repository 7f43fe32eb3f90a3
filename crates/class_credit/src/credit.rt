//! The values of a bucket of credit that the file lists, of the factors of its place in a book.
ghost use Rattle.std.specs.Prelude.{◌≡◌, ◌+◌, ◌*◌, ◌^◌, ◌≤◌, IfOk, length, pos, unsigned_abs};
ghost use Rattle.measured_bucket.specs.SimmRules.Credit.{credit_value, credit_vega_value};
ghost use Rattle.measured_bucket.specs.SimmRules.Credit.{credit_curvature_value};
ghost use Rattle.measured_bucket.specs.SimmParams.ListedBuckets.{credit_bucket_view};
ghost use Rattle.measured_bucket.specs.Measured.{IsNear, IsSound};
ghost use Rattle.measured_bucket.specs.Values.{alone};
ghost use Rattle.class_credit.specs.Points.{point_nets, ArePoints};

use crate::curvature::CreditCurvature;
use crate::delta::CreditDelta;
use crate::listed::ListedCredit;
use crate::points::points_among;
use crate::vega::CreditVega;
use measured_bucket::factor_book::PlaceFactors;
use measured_bucket::measure;
use measured_bucket::pair_sum::Steps;
use measured_bucket::simm_rules::BucketMargin;
use std::alloc::{AllocError, Global};
use std::sync::ledger::Ledger;

/// The delta value of a bucket that the file lists, of the points of its place, which are in range
/// and in order. `n` points take at most `n * n` steps. Want of memory is the only error.
pub fn credit_delta<L: Ledger>(
    alloc: Global,
    listed: ListedCredit,
    lent: &PlaceFactors,
    steps: &mut Steps<L>,
) -> Result<BucketMargin, AllocError>
    requires { ArePoints listed.bucket.terms.weight.0 (point_nets lent.now.factors) }
    ensures value { IfOk result (λ m.
        m ≡ credit_value (credit_bucket_view listed.bucket) (point_nets lent.now.factors)) }
    ensures sound { IfOk result IsSound }
    ensures near { let weight = listed.bucket.terms.weight.0 in
        IfOk result (λ m. IsNear (10 ^ 10) 346999999 1 (λ _. weight) (point_nets lent.now.factors)
        (unsigned_abs m.gross)) }
    ensures steps { let n = length (point_nets lent.now.factors) in steps.new ≤ steps.old + n * n }
{
    let points = points_among(alloc, lent)?;
    let measured = CreditDelta {
        listed,
        points: points.as_slice(),
    };
    measure(alloc, &measured, steps)
}

/// The vega value of a bucket that the file lists, of the volatilities of its place, which are in
/// range and in order. `n` volatilities take at most `n * n` steps. Want of memory is the only
/// error.
pub fn credit_vega<L: Ledger>(
    alloc: Global,
    listed: ListedCredit,
    lent: &PlaceFactors,
    steps: &mut Steps<L>,
) -> Result<BucketMargin, AllocError>
    requires { ArePoints (pos 10000) (point_nets lent.now.factors) }
    ensures value { IfOk result (λ m.
        m ≡ credit_vega_value (credit_bucket_view listed.bucket) (point_nets lent.now.factors)) }
    ensures sound { IfOk result IsSound }
    ensures near { IfOk result (λ m.
        IsNear (10 ^ 10) 693999998 1 alone (point_nets lent.now.factors) (unsigned_abs m.gross)) }
    ensures steps { let n = length (point_nets lent.now.factors) in steps.new ≤ steps.old + n * n }
{
    let points = points_among(alloc, lent)?;
    let measured = CreditVega {
        listed,
        points: points.as_slice(),
    };
    measure(alloc, &measured, steps)
}

/// The curvature value of a bucket that the file lists, of the volatilities of its place, which
/// are in range and in order. `n` volatilities take at most `n * n` steps. Want of memory is the
/// only error.
pub fn credit_curvature<L: Ledger>(
    alloc: Global,
    listed: ListedCredit,
    lent: &PlaceFactors,
    steps: &mut Steps<L>,
) -> Result<BucketMargin, AllocError>
    requires { ArePoints (pos 10000) (point_nets lent.now.factors) }
    ensures value { IfOk result (λ m. m ≡ credit_curvature_value (credit_bucket_view listed.bucket)
        (point_nets lent.now.factors)) }
    ensures sound { IfOk result IsSound }
    ensures near { IfOk result (λ m.
        IsNear 20000 1 1 alone (point_nets lent.now.factors) (unsigned_abs m.gross)) }
    ensures steps { let n = length (point_nets lent.now.factors) in steps.new ≤ steps.old + n * n }
{
    let points = points_among(alloc, lent)?;
    let measured = CreditCurvature {
        listed,
        points: points.as_slice(),
    };
    measure(alloc, &measured, steps)
}
