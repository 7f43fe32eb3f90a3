//! The lines of the index families of base correlation.
ghost use Rattle.std.specs.Prelude.{◌≡◌, ◌++◌, OnOk};
ghost use Rattle.class_credit.specs.Base.{index_nets, AreIndices};
ghost use Rattle.explain_text.specs.Factors.{index_lines};

use crate::factor_lines::push_factors;
use bucket_cache::factor_book::PlaceFactors;
use class_credit::{BaseCorrelation, indices_among};
use measured_bucket::explain;
use measured_bucket::mh_units::Text;
use measured_bucket::simm_kinds::{Measure, ProductClass};
use measured_bucket::simm_params::Params;
use std::alloc::{AllocError, Global};

/// Adds them.
pub(crate) fn push_base(
    text: &mut Text,
    alloc: Global,
    params: &Params,
    product: ProductClass,
    lent: &PlaceFactors,
) -> Result<(), AllocError>
    requires { AreIndices params.now (index_nets lent.now.factors) }
    ensures { OnOk result (text.new ≡ text.old
        ++ index_lines params.now product (index_nets lent.now.factors)) }
{
    let indices = indices_among(alloc, lent)?;
    let measured = BaseCorrelation {
        params,
        indices: indices.as_slice(),
    };
    let factors = explain(alloc, &measured)?;
    push_factors(text, Measure::BaseCorr, product, &(), factors.as_slice())
}
