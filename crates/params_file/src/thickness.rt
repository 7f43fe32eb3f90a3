ghost use Rattle.std.specs.Prelude.{◌≡◌, map, OnOk};
ghost use Rattle.simm_params.specs.TomlValues.Paths.{word_of, path_of};
ghost use Rattle.params_file.specs.Faults.{Gives};
ghost use Rattle.simm_params.specs.Ranges.{is_thick, IsThick};
ghost use Rattle.simm_params.specs.ThresholdKinds.{threshold_in, weight_beside};
ghost use Rattle.simm_params.specs.ThresholdView.{thresholds_view};
ghost use Rattle.params_file.specs.Thickness.{thick_at, thick_in};

use crate::fault::ParamFault;
use crate::place::key_path;
use simm_params::mh_units::Rate4;
use simm_params::toml_values::{Part, path_text};
use simm_params::{ThresholdKind, Thresholds};
use std::alloc::Global;

/// The least product of a weight and a threshold.
const THICK: i128 = 1_000_000_000_000;

/// Whether a threshold in cents is thick beside a weight in ten-thousandths.
fn is_thick(weight: i64, threshold: i64) -> bool
    ensures { result ≡ is_thick weight threshold }
{
    i128::from(weight) * i128::from(threshold) >= THICK
}

/// Refuses a threshold that is too thin beside the weight.
pub fn check_threshold(
    alloc: Global,
    path: &[Part<'_>],
    weight: i64,
    threshold: i64,
) -> Result<(), ParamFault>
    ensures value { Gives (λ u. u) result (thick_at (path_of path.now) weight threshold) }
    ensures thick { OnOk result (IsThick weight threshold) }
{
    if !is_thick(weight, threshold) {
        let path = path_text(alloc, path)?;
        return Err(ParamFault::ThinThreshold(path, weight, threshold));
    }
    Ok(())
}

/// Refuses a threshold of a kind in the table at a path, where `weight` is that of delta.
pub fn check_kind(
    alloc: Global,
    path: &[Part<'_>],
    kind: ThresholdKind,
    weight: Rate4,
    thresholds: Thresholds,
) -> Result<(), ParamFault>
    ensures value { Gives (λ u. u) result
        (thick_in (map word_of path.now) kind weight.0 (thresholds_view thresholds)) }
    ensures thick { OnOk result
        (IsThick (weight_beside kind weight.0) (threshold_in kind (thresholds_view thresholds))) }
{
    let path = key_path(alloc, path, kind.key())?;
    check_threshold(
        alloc,
        path.as_slice(),
        kind.weight(weight.0),
        thresholds.of(kind),
    )
}
