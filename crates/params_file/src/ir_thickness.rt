ghost use Rattle.std.specs.Prelude.{◌≡◌, map, OnOk};
ghost use Rattle.std.specs.Int.{int_min};
ghost use Rattle.std.specs.List.{All, fold};
ghost use Rattle.params_file.specs.Faults.{Gives};
ghost use Rattle.simm_params.specs.Ranges.{IsThick};
ghost use Rattle.simm_params.specs.ThresholdKinds.{threshold_in, weight_beside};
ghost use Rattle.simm_params.specs.ThresholdView.{thresholds_view};
ghost use Rattle.simm_params.specs.GroupView.{group_view};
ghost use Rattle.simm_params.specs.IrView.{ir_view};
ghost use Rattle.params_file.specs.Thickness.{each_passes, least_weight, thick_other};
ghost use Rattle.params_file.specs.Thickness.{thick_group, thick_ir, IsThickIr};

use crate::fault::ParamFault;
use crate::thickness::check_kind;
use simm_params::mh_units::Rate4;
use simm_params::toml_values::Part;
use simm_params::{CurrencyGroup, IrParams, ThresholdKind, Thresholds};
use std::alloc::Global;

/// The least of the curve weights and the inflation weight, in ten-thousandths.
fn least_weight(ir: &IrParams) -> Rate4
    ensures { result.0 ≡ least_weight (ir_view ir.now) }
{
    let least = ir.curves.regular.least_with(ir.weights.inflation);
    let least = ir.curves.low.least_with(least);
    ir.curves.high.least_with(least)
}

#[tactic(auto, unfolding(crate::specs::Thickness::thick_other))]
fn check_other(
    alloc: Global,
    kind: ThresholdKind,
    weight: Rate4,
    other: Thresholds,
) -> Result<(), ParamFault>
    ensures value { Gives (λ u. u) result (thick_other kind weight.0 (thresholds_view other)) }
    ensures thick { OnOk result
        (IsThick (weight_beside kind weight.0) (threshold_in kind (thresholds_view other))) }
{
    let path = [Part::Key("ir"), Part::Key("other")];
    check_kind(alloc, &path, kind, weight, other)
}

/// Refuses a threshold of the group at a place, counted from 1.
#[tactic(auto, unfolding(crate::specs::Thickness::thick_group))]
fn check_group(
    alloc: Global,
    kind: ThresholdKind,
    weight: Rate4,
    number: usize,
    group: &CurrencyGroup,
) -> Result<(), ParamFault>
    ensures { Gives (λ u. u) result (thick_group kind weight.0 number (group_view group.now)) }
{
    let path = [Part::Key("ir"), Part::Key("group"), Part::Place(number)];
    check_kind(alloc, &path, kind, weight, group.thresholds)
}

fn check_groups(
    alloc: Global,
    kind: ThresholdKind,
    weight: Rate4,
    groups: &[CurrencyGroup],
) -> Result<(), ParamFault>
    ensures { Gives (λ u. u) result
        (each_passes (thick_group kind weight.0) 1 (map group_view groups.now)) }
{
    for (index, group) in groups.iter().enumerate() {
        check_group(alloc, kind, weight, index + 1, group)?;
    }
    Ok(())
}

/// Refuses a threshold of interest rates that is too thin: of the currencies in no group, and then
/// of each group.
#[tactic(auto, unfolding(crate::specs::Thickness::thick_ir))]
pub fn check_ir(alloc: Global, kind: ThresholdKind, ir: &IrParams) -> Result<(), ParamFault>
    ensures value { Gives (λ u. u) result (thick_ir kind (ir_view ir.now)) }
    ensures thick { OnOk result (IsThickIr kind (ir_view ir.now)) }
{
    let weight = least_weight(ir);
    check_other(alloc, kind, weight, ir.other)?;
    check_groups(alloc, kind, weight, ir.groups.groups())
}
