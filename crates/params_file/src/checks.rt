ghost use Rattle.std.specs.Prelude.{◌≡◌, OnOk};
ghost use Rattle.params_file.specs.Faults.{Gives};
ghost use Rattle.simm_params.specs.FxView.{rows_view};
ghost use Rattle.simm_params.specs.TablesView.{tables_view};
ghost use Rattle.simm_params.specs.Symmetry.{IsSymmetric, AreMirrored};
ghost use Rattle.params_file.specs.Symmetry.{symmetric_psi, symmetric_tenors, symmetric_pairs};
ghost use Rattle.params_file.specs.Symmetry.{symmetric_gamma, symmetric_params, AreSymmetric};
ghost use Rattle.params_file.specs.Thickness.{thick_params, AreThick};

use crate::bucket_class::BucketClass;
use crate::class_thickness::check_classes;
use crate::fault::ParamFault;
use crate::fx_thickness::{check_fx, check_pairs};
use crate::ir_thickness::check_ir;
use crate::symmetry::{check_correlations, check_pair_thresholds};
use simm_params::toml_values::Part;
use simm_params::{Matrix, PairThresholds, Tables, ThresholdKind};
use std::alloc::Global;

#[tactic(auto, unfolding(crate::specs::Symmetry::symmetric_psi))]
fn check_psi(alloc: Global, psi: &Matrix) -> Result<(), ParamFault>
    ensures value { Gives (λ u. u) result (symmetric_psi psi.now) }
    ensures mirrored { OnOk result (AreMirrored psi.now) }
{
    check_correlations(alloc, &[Part::Key("psi")], psi)
}

#[tactic(auto, unfolding(crate::specs::Symmetry::symmetric_tenors))]
fn check_tenors(alloc: Global, rho: &Matrix) -> Result<(), ParamFault>
    ensures value { Gives (λ u. u) result (symmetric_tenors rho.now) }
    ensures mirrored { OnOk result (AreMirrored rho.now) }
{
    check_correlations(alloc, &[Part::Key("ir"), Part::Key("rho")], rho)
}

#[tactic(auto, unfolding(crate::specs::Symmetry::symmetric_pairs))]
fn check_pair_matrix(alloc: Global, thresholds: &PairThresholds) -> Result<(), ParamFault>
    ensures value { Gives (λ u. u) result (symmetric_pairs (rows_view thresholds.now)) }
    ensures symmetric { OnOk result (IsSymmetric (rows_view thresholds.now)) }
{
    let path = [Part::Key("fx"), Part::Key("vega_threshold")];
    check_pair_thresholds(alloc, &path, thresholds)
}

#[tactic(auto, unfolding(crate::specs::Symmetry::symmetric_gamma))]
fn check_gamma(alloc: Global, which: BucketClass, gamma: &Matrix) -> Result<(), ParamFault>
    ensures value { Gives (λ u. u) result (symmetric_gamma which gamma.now) }
    ensures mirrored { OnOk result (AreMirrored gamma.now) }
{
    let path = [Part::Key(which.key()), Part::Key("gamma")];
    check_correlations(alloc, &path, gamma)
}

/// Refuses a matrix that isn't symmetric, or a diagonal of correlations that isn't 1.
#[tactic(auto, unfolding(crate::specs::Symmetry::symmetric_params))]
pub fn check_symmetry(alloc: Global, tables: &Tables) -> Result<(), ParamFault>
    ensures value { Gives (λ u. u) result (symmetric_params (tables_view tables.now)) }
    ensures symmetric { OnOk result (AreSymmetric (tables_view tables.now)) }
{
    let classes = &tables.classes;
    check_psi(alloc, &tables.psi)?;
    check_tenors(alloc, &tables.ir.tenor_rhos)?;
    check_pair_matrix(alloc, &tables.fx.volatilities.thresholds)?;
    check_gamma(alloc, BucketClass::CreditQ, &classes.credit_q.gamma)?;
    check_gamma(alloc, BucketClass::CreditNonQ, &classes.credit_nq.gamma)?;
    check_gamma(alloc, BucketClass::Equity, &classes.equity.gamma)?;
    check_gamma(alloc, BucketClass::Commodity, &classes.commodity.gamma)
}

/// Refuses a threshold that is too thin beside its weight: those of delta first, and then those
/// of vega.
#[tactic(auto, unfolding(crate::specs::Thickness::thick_params))]
pub fn check_thickness(alloc: Global, tables: &Tables) -> Result<(), ParamFault>
    ensures value { Gives (λ u. u) result (thick_params (tables_view tables.now)) }
    ensures thick { OnOk result (AreThick (tables_view tables.now)) }
{
    check_ir(alloc, ThresholdKind::Delta, &tables.ir)?;
    check_fx(alloc, &tables.fx)?;
    check_classes(alloc, ThresholdKind::Delta, &tables.classes)?;
    check_ir(alloc, ThresholdKind::Vega, &tables.ir)?;
    check_pairs(alloc, &tables.fx.volatilities.thresholds)?;
    check_classes(alloc, ThresholdKind::Vega, &tables.classes)
}
