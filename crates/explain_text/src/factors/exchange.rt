//! The lines of the factors of foreign exchange.
ghost use Rattle.std.specs.Prelude.{◌≡◌, ◌++◌, OnOk};
ghost use Rattle.class_exchange.specs.Currencies.{risky_nets, AreRisky};
ghost use Rattle.class_exchange.specs.Pairs.{pair_nets, ArePairs};
ghost use Rattle.explain_text.specs.Factors.{currency_lines, pair_curvature_lines, pair_vega_lines};

use crate::factor_lines::push_factors;
use bucket_cache::factor_book::PlaceFactors;
use class_exchange::{FxCurvature, FxDelta, FxVega, risky_currencies, volatile_pairs};
use measured_bucket::mh_units::Text;
use measured_bucket::simm_kinds::{Measure, ProductClass};
use measured_bucket::simm_params::Params;
use measured_bucket::{TenorScale, explain};
use std::alloc::{AllocError, Global};

/// Adds those of delta.
pub(crate) fn push_delta(
    text: &mut Text,
    alloc: Global,
    params: &Params,
    product: ProductClass,
    lent: &PlaceFactors,
) -> Result<(), AllocError>
    requires { AreRisky params.now (risky_nets params.now lent.now.factors) }
    ensures { OnOk result (text.new ≡ text.old
        ++ currency_lines params.now product (risky_nets params.now lent.now.factors)) }
{
    let currencies = risky_currencies(alloc, params, lent)?;
    let measured = FxDelta {
        params,
        currencies: currencies.as_slice(),
    };
    let factors = explain(alloc, &measured)?;
    push_factors(text, Measure::Delta, product, &(), factors.as_slice())
}

/// Adds those of vega.
pub(crate) fn push_vega(
    text: &mut Text,
    alloc: Global,
    params: &Params,
    product: ProductClass,
    lent: &PlaceFactors,
) -> Result<(), AllocError>
    requires { ArePairs params.now (pair_nets lent.now.factors) }
    ensures { OnOk result (text.new ≡ text.old
        ++ pair_vega_lines params.now product (pair_nets lent.now.factors)) }
{
    params.facts();
    let pairs = volatile_pairs(alloc, lent, TenorScale::Even)?;
    let measured = FxVega {
        params,
        pairs: pairs.as_slice(),
    };
    let factors = explain(alloc, &measured)?;
    push_factors(text, Measure::Vega, product, &(), factors.as_slice())
}

/// Adds those of curvature.
pub(crate) fn push_curvature(
    text: &mut Text,
    alloc: Global,
    params: &Params,
    product: ProductClass,
    lent: &PlaceFactors,
) -> Result<(), AllocError>
    requires { ArePairs params.now (pair_nets lent.now.factors) }
    ensures { OnOk result (text.new ≡ text.old
        ++ pair_curvature_lines params.now product (pair_nets lent.now.factors)) }
{
    params.facts();
    let pairs = volatile_pairs(alloc, lent, TenorScale::Curved)?;
    let measured = FxCurvature {
        params,
        pairs: pairs.as_slice(),
    };
    let factors = explain(alloc, &measured)?;
    push_factors(text, Measure::Curvature, product, &(), factors.as_slice())
}
