//! The parameters of the classes that have buckets.
ghost use Rattle.std.specs.Prelude.{◌≡◌, true, IfOk};
ghost use Rattle.simm_params.specs.SimmKinds.BucketNumber.{is_bucket_number};
ghost use Rattle.simm_params.specs.SimmKinds.declared.bucket.Bucket.TheVariants.{Number};
ghost use Rattle.simm_params.specs.BucketView.{bucket_view, terms_view};
ghost use Rattle.simm_params.specs.ClassView.{credit_view, priced_view};
ghost use Rattle.house_sample.specs.Parameters.{terms, qualifying};
ghost use Rattle.house_sample.specs.Parameters.{non_qualifying, equity, commodity};

use crate::matrices::even;
use simm_params::mh_units::Rate4;
use simm_params::simm_kinds::{Bucket, BucketNumber};
use simm_params::{BucketTerms, Buckets, ClassBucket, CreditParams, PricedParams, Thresholds};
use std::alloc::{AllocError, Global};

/// A bucket of a class, with the thresholds and the vega weight that each has.
fn bucket(weight: Rate4, rho: Rate4, own: Rate4, id: Bucket, curvature: bool) -> ClassBucket
    ensures { bucket_view result
        ≡ record { terms = terms weight.0 rho.0 id curvature; own = own.0 } }
{
    ClassBucket {
        terms: BucketTerms {
            id,
            weight,
            thresholds: Thresholds {
                delta: 100_000_000,
                vega: 1_000_000_000,
            },
            rho,
            vrw: Rate4(5_000),
            curvature,
        },
        own,
    }
}

/// The numbered bucket of this number.
fn number(number: u8) -> Bucket
    requires { is_bucket_number number ≡ true }
    ensures { result ≡ Number number }
{
    Bucket::Number(BucketNumber::new(number).unwrap())
}

pub(crate) fn qualifying(alloc: Global) -> Result<CreditParams, AllocError>
    ensures { IfOk result (λ class. credit_view class ≡ qualifying) }
{
    let (weight, rho, same) = (Rate4(100_000), Rate4(4_000), Rate4(5_000));
    let mut buckets = Buckets::with_capacity(alloc, 3)?;
    buckets.push(bucket(weight, rho, same, number(1), true))?;
    buckets.push(bucket(weight, rho, same, number(2), true))?;
    buckets.push(bucket(weight, rho, same, Bucket::Residual, true))?;
    let gamma = even(alloc, Rate4(3_000), 2)?;
    Ok(CreditParams { buckets, gamma })
}

pub(crate) fn non_qualifying(alloc: Global) -> Result<CreditParams, AllocError>
    ensures { IfOk result (λ class. credit_view class ≡ non_qualifying) }
{
    let (weight, rho, same) = (Rate4(1_000_000), Rate4(3_000), Rate4(6_000));
    let mut buckets = Buckets::with_capacity(alloc, 2)?;
    buckets.push(bucket(weight, rho, same, number(1), true))?;
    buckets.push(bucket(weight, rho, same, Bucket::Residual, true))?;
    let gamma = even(alloc, Rate4(3_000), 1)?;
    Ok(CreditParams { buckets, gamma })
}

/// The second bucket has no curvature.
pub(crate) fn equity(alloc: Global) -> Result<PricedParams, AllocError>
    ensures { IfOk result (λ class. priced_view class ≡ equity) }
{
    let (weight, rho, sigma) = (Rate4(300_000), Rate4(5_000), Rate4(500_000));
    let mut buckets = Buckets::with_capacity(alloc, 3)?;
    buckets.push(bucket(weight, rho, sigma, number(1), true))?;
    buckets.push(bucket(weight, rho, sigma, number(2), false))?;
    buckets.push(bucket(weight, rho, sigma, Bucket::Residual, true))?;
    let gamma = even(alloc, Rate4(3_000), 2)?;
    Ok(PricedParams {
        buckets,
        hvr: Rate4(6_000),
        gamma,
    })
}

pub(crate) fn commodity(alloc: Global) -> Result<PricedParams, AllocError>
    ensures { IfOk result (λ class. priced_view class ≡ commodity) }
{
    let (weight, rho, sigma) = (Rate4(200_000), Rate4(5_000), Rate4(400_000));
    let mut buckets = Buckets::with_capacity(alloc, 2)?;
    buckets.push(bucket(weight, rho, sigma, number(1), true))?;
    buckets.push(bucket(weight, rho, sigma, number(2), true))?;
    let gamma = even(alloc, Rate4(3_000), 2)?;
    Ok(PricedParams {
        buckets,
        hvr: Rate4(6_000),
        gamma,
    })
}
