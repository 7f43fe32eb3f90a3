//! The lines of the factors of a currency.
ghost use Rattle.std.specs.Prelude.{◌≡◌, ◌++◌, OnOk};
ghost use Rattle.class_rates.specs.Rates.{rates_among, AreRates};
ghost use Rattle.class_rates.specs.Volatilities.{volatilities_among, AreVolatilities};
ghost use Rattle.explain_text.specs.Factors.{rate_curvature_lines, rate_lines, rate_vega_lines};

use crate::factor_lines::push_factors;
use bucket_cache::factor_book::PlaceFactors;
use class_rates::{
    CurrencyCurvature, CurrencyDelta, CurrencyVega, rates_among, volatilities_among,
};
use measured_bucket::explain;
use measured_bucket::mh_units::Text;
use measured_bucket::simm_kinds::{Currency, Measure, ProductClass};
use measured_bucket::simm_params::Params;
use std::alloc::{AllocError, Global};

/// Adds those of delta.
pub(crate) fn push_delta(
    text: &mut Text,
    alloc: Global,
    params: &Params,
    product: ProductClass,
    currency: &Currency,
    lent: &PlaceFactors,
) -> Result<(), AllocError>
    requires { AreRates params.now (rates_among currency.now lent.now.factors) }
    ensures { OnOk result (text.new ≡ text.old
        ++ rate_lines params.now product currency.now (rates_among currency.now lent.now.factors)) }
{
    let rates = rates_among(alloc, lent)?;
    let measured = CurrencyDelta {
        params,
        currency,
        rates: rates.as_slice(),
    };
    let factors = explain(alloc, &measured)?;
    push_factors(text, Measure::Delta, product, currency, factors.as_slice())
}

/// Adds those of vega.
pub(crate) fn push_vega(
    text: &mut Text,
    alloc: Global,
    params: &Params,
    product: ProductClass,
    currency: &Currency,
    lent: &PlaceFactors,
) -> Result<(), AllocError>
    requires { AreVolatilities (volatilities_among currency.now lent.now.factors) }
    ensures { OnOk result (text.new ≡ text.old ++ rate_vega_lines params.now product currency.now
        (volatilities_among currency.now lent.now.factors)) }
{
    let volatilities = volatilities_among(alloc, lent)?;
    let measured = CurrencyVega {
        params,
        currency,
        volatilities: volatilities.as_slice(),
    };
    let factors = explain(alloc, &measured)?;
    push_factors(text, Measure::Vega, product, currency, factors.as_slice())
}

/// Adds those of curvature.
pub(crate) fn push_curvature(
    text: &mut Text,
    alloc: Global,
    params: &Params,
    product: ProductClass,
    currency: &Currency,
    lent: &PlaceFactors,
) -> Result<(), AllocError>
    requires { AreVolatilities (volatilities_among currency.now lent.now.factors) }
    ensures { OnOk result (text.new ≡ text.old ++ rate_curvature_lines product currency.now
        (volatilities_among currency.now lent.now.factors)) }
{
    let volatilities = volatilities_among(alloc, lent)?;
    let measured = CurrencyCurvature {
        params,
        currency,
        volatilities: volatilities.as_slice(),
    };
    let factors = explain(alloc, &measured)?;
    push_factors(
        text,
        Measure::Curvature,
        product,
        currency,
        factors.as_slice(),
    )
}
