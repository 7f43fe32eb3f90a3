ghost use Rattle.std.specs.Prelude.{◌≡◌, ℕ, ◌+◌, ◌*◌, ◌≤◌, Bool, List, IfOk};
ghost use Rattle.std.specs.Prelude.{length, map, sum_by, ℤ, unsigned_abs};
ghost use Rattle.simm_params.specs.SimmRules.Bucket.{Weighted};
ghost use Rattle.weighted_bucket.specs.declared.scaling.Scaling.{Scaling};
ghost use Rattle.measured_bucket.specs.Explained.{Unweighed, weighted_from};
ghost use Rattle.measured_bucket.specs.Measured.{value_by, AreCorrelated, IsSound};
ghost use Rattle.measured_bucket.specs.Values.{weighed_as};

use crate::column::Column;
use crate::weighing::Weighing;
use simm_params::simm_rules::BucketMargin;
use std::alloc::{AllocError, Global};
use std::sync::ledger::Ledger;
use weighted_bucket::pair_sum::Steps;
use weighted_bucket::{Rho, Scaling, bucket_margin};

/// One measure of the factors of one bucket, which it borrows: how they are weighed and how
/// they correlate.
pub trait Measured {
    /// The net sensitivity to a factor, with what it is of.
    type Net: Copy;

    /// The correlations of the factors.
    type Rho: Rho + Drop;

    /// Whether it can weigh its factors.
    ghost ready: { Self → Type 0 };

    /// What a factor of the rule is of.
    ghost Of: { Type 0 };

    /// What a net is to.
    ghost of: { Self.Net → Of };

    /// Whether two are of the same.
    ghost same: { Of → Of → Bool };

    /// The parameters' correlation of two different ones.
    ghost rho: { Self → Of → Of → ℤ };

    /// The rule's weighted factors, in its order.
    ghost weighted: { Self → List (Weighted Of) };

    /// Those factors before they are weighed, in the same order.
    ghost unweighed: { Self → List (Unweighed Of) };

    /// The weighted value that a weight, an amount and a concentration factor come to.
    ghost weigh: { ℤ → ℤ → ℤ → ℤ };

    /// The bucket's own concentration factor.
    ghost cr: { Self → ℤ };

    /// What is known of the sum of the weighted sizes.
    ghost near: { Self → ℕ → Type 0 };

    /// How concentrations count in a pair.
    ghost scaling: { Scaling };

    fn scaling(&self) -> Scaling
        ensures { result ≡ scaling };

    /// The factors before they are weighed, in their order.
    fn nets(&self) -> &[Self::Net]
        ensures { map of result.now ≡ map (λ factor. factor.of) (weighted self.now) };

    /// What each factor is weighed from, in their order. Want of memory is the only error.
    fn weighings(&self, alloc: Global) -> Result<Vec<Weighing>, AllocError>
        requires { ready self.now }
        ensures made { weighted self.now ≡ map (weighted_from weigh) (unweighed self.now) }
        ensures listed { IfOk result (λ weighings.
            weighings.items ≡ map (λ factor. factor.from) (unweighed self.now)) };

    /// The factors, weighed, in their order. Want of memory is the only error.
    fn column(&self, alloc: Global) -> Result<Column<Self::Rho>, AllocError>
        requires { ready self.now }
        ensures made { IfOk result (λ column.
            column.factors.items ≡ map weighed_as (weighted self.now)) }
        ensures correlated { IfOk result (λ column.
            AreCorrelated same (rho self.now) (weighted self.now) (Self.Rho.rho column.rho)) }
        ensures cr { IfOk result (λ column. column.cr.0 ≡ cr self.now) }
        ensures near { IfOk result (λ column.
            near self.now (sum_by (λ factor. unsigned_abs factor.w) column.factors.items)) };
}

/// The value of the bucket of these factors. `n` factors of the rule take at most `n * n` steps.
/// Want of memory is the only error.
pub fn measure<M: Measured, L: Ledger>(
    alloc: Global,
    measured: &M,
    steps: &mut Steps<L>,
) -> Result<BucketMargin, AllocError>
    requires { M.ready measured.now }
    ensures value { IfOk result (λ m. m ≡ value_by M.scaling M.same (M.rho measured.now)
        (M.cr measured.now) (M.weighted measured.now)) }
    ensures sound { IfOk result IsSound }
    ensures near { IfOk result (λ m. M.near measured.now (unsigned_abs m.gross)) }
    ensures steps { let n = length (M.weighted measured.now) in steps.new ≤ steps.old + n * n }
{
    let column = measured.column(alloc)?;
    Ok(bucket_margin(
        column.factors.as_slice(),
        &column.rho,
        measured.scaling(),
        column.cr,
        steps,
    ))
}
