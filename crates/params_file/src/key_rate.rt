ghost use Rattle.std.specs.Prelude.{◌≡◌, IfOk, map};
ghost use Rattle.toml.specs.View.{table_view};
ghost use Rattle.simm_params.specs.TomlValues.Answers.{Gives};
ghost use Rattle.simm_params.specs.TomlValues.Paths.{word_of};
ghost use Rattle.simm_params.specs.TomlValues.Ranges.{IsWithin};
ghost use Rattle.params_file.specs.KeyRate.{key_rate};

use crate::place::key_path;
use simm_params::mh_units::Rate4;
use simm_params::toml_values::{Part, Range, ValueFault, member, rate};
use std::alloc::Global;
use toml::Table;

/// A rate in the range at a key of the table at a path.
#[tactic(auto, unfolding(crate::specs::KeyRate::key_rate))]
pub fn key_rate(
    alloc: Global,
    path: &[Part<'_>],
    table: &Table,
    key: &str,
    range: Range,
) -> Result<Rate4, ValueFault>
    ensures value { Gives (λ r. r.0) result
        (key_rate (map word_of path.now) key.now range (table_view table.now)) }
    ensures within { IfOk result (λ r. IsWithin range r.0) }
{
    let path = key_path(alloc, path, key)?;
    rate(alloc, path.as_slice(), member(table, key), range)
}
