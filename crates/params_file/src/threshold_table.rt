ghost use Rattle.std.specs.Prelude.{◌≡◌, IfOk, map};
ghost use Rattle.toml.specs.View.{table_view};
ghost use Rattle.simm_params.specs.TomlValues.Answers.{Gives};
ghost use Rattle.simm_params.specs.TomlValues.Paths.{word_of};
ghost use Rattle.simm_params.specs.ThresholdView.{thresholds_view};
ghost use Rattle.simm_params.specs.Thresholds.{AreThresholds};
ghost use Rattle.params_file.specs.Thresholds.{thresholds_of};

use crate::place::key_path;
use simm_params::Thresholds;
use simm_params::toml_values::{Part, ValueFault, member, usd};
use std::alloc::Global;
use toml::Table;

/// The thresholds of the table at a path: at `threshold`, and then at `vega_threshold`.
#[tactic(auto, unfolding(crate::specs::Thresholds::thresholds_of))]
pub fn read_thresholds(
    alloc: Global,
    path: &[Part<'_>],
    table: &Table,
) -> Result<Thresholds, ValueFault>
    ensures value { Gives thresholds_view result
        (thresholds_of (map word_of path.now) (table_view table.now)) }
    ensures within { IfOk result (λ t. AreThresholds (thresholds_view t)) }
{
    let delta_path = key_path(alloc, path, "threshold")?;
    let delta = usd(alloc, delta_path.as_slice(), member(table, "threshold"))?;
    let vega_path = key_path(alloc, path, "vega_threshold")?;
    let vega = usd(alloc, vega_path.as_slice(), member(table, "vega_threshold"))?;
    Ok(Thresholds { delta, vega })
}
