//! Classes whose margin is one part over all buckets: interest rates, with a bucket for each
//! currency, and foreign exchange, with one in all.
ghost use Rattle.std.specs.Prelude.{◌≡◌, ◌+◌, ◌*◌, ◌^◌, ◌≤◌, IfOk, pos, ◌≤ℤ◌, unsigned_abs};
ghost use Rattle.class_rates.specs.SimmParams.Ranges.{ir_hvrs, IsWithin};
ghost use Rattle.class_margin.specs.curvature.Combine.{over_currencies, over_ratio, over_single};
ghost use Rattle.class_margin.specs.curvature.Combine.{margins_size, gross_size};
ghost use Rattle.class_margin.specs.curvature.Combine.{AreCurrencyParts, AreSized};

use crate::curvature::part::{margin_over, part_over};
use crate::parts::values_of;
use crate::table::{Gamma, GammaTable, Scaling};
use class_rates::factor_book::Slot;
use class_rates::mh_units::{Cents, Rate4, div_up};
use class_rates::pair_sum::outer_root;
use class_rates::simm_kinds::Currency;
use class_rates::simm_params::Params;
use class_rates::simm_rules::BucketMargin;
use std::alloc::{AllocError, Global};

/// The margin of interest rates, in cents, over the buckets of currencies. Want of memory is the
/// only error.
pub fn over_currencies(
    alloc: Global,
    params: &Params,
    parts: &[(Currency, BucketMargin)],
) -> Result<Cents, AllocError>
    requires { AreCurrencyParts parts.now }
    ensures value { IfOk result (λ m.
        m.0 ≡ over_ratio (over_currencies params.now parts.now) params.now.ir.hvr) }
    ensures low { IfOk result (λ m. pos 0 ≤ℤ m.0) }
    ensures size { IfOk result (λ m.
        m.0 ≤ℤ pos (25 * (gross_size parts.now + 10 * margins_size parts.now))) }
{
    let margin = currency_part(alloc, params, parts)?;
    Ok(Cents(over_ratio(margin, params.rate_hvr())))
}

// The part over all currencies, before it is divided by the square of the historical
// volatility ratio.
fn currency_part(
    alloc: Global,
    params: &Params,
    parts: &[(Currency, BucketMargin)],
) -> Result<i128, AllocError>
    requires { AreCurrencyParts parts.now }
    ensures value { IfOk result (λ m. m ≡ over_currencies params.now parts.now) }
    ensures low { IfOk result (λ m. pos 0 ≤ℤ m) }
    ensures size { IfOk result (λ m.
        m ≤ℤ pos (gross_size parts.now + 10 * margins_size parts.now)) }
{
    let values = values_of(alloc, parts)?;
    let between = params.rate_gamma().in_millionths();
    let gamma = GammaTable {
        gamma: Gamma::Even(values.len(), between),
        scaling: Scaling::Squared,
    };
    let root = outer_root(values.as_slice(), &gamma);
    Ok(part_over(params.lambda_base(), values.as_slice(), root))
}

// A margin divided by the square of the ratio, upwards to the cent.
fn over_ratio(margin: i128, hvr: Rate4) -> i128
    requires hvr { IsWithin ir_hvrs hvr.0 }
    requires low { pos 0 ≤ℤ margin }
    requires high { margin ≤ℤ pos (10 ^ 18) }
    ensures value { result ≡ over_ratio margin hvr.0 }
    ensures low { pos 0 ≤ℤ result }
    ensures size { result ≤ℤ pos (25 * unsigned_abs margin) }
{
    let ratio = i128::from(hvr.0);
    div_up(margin * 100_000_000, ratio * ratio)
}

/// The margin of foreign exchange, in cents, whose one bucket is its own root. Want of memory is
/// the only error.
pub fn over_single(
    alloc: Global,
    params: &Params,
    parts: &[(Slot, BucketMargin)],
) -> Result<Cents, AllocError>
    requires { AreSized parts.now }
    ensures value { IfOk result (λ m. m.0 ≡ over_single params.now parts.now) }
    ensures low { IfOk result (λ m. pos 0 ≤ℤ m.0) }
    ensures size { IfOk result (λ m. m.0 ≤ℤ pos (14 * 10 ^ 14)) }
{
    let values = values_of(alloc, parts)?;
    let root = margin_over(values.as_slice());
    Ok(Cents(part_over(params.lambda_base(), values.as_slice(), root)))
}
