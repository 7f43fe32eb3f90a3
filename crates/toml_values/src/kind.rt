ghost use Rattle.std.specs.Prelude.{◌≡◌};
ghost use Rattle.toml_values.specs.Paths.{path_of};
ghost use Rattle.toml_values.specs.Answers.{Gives};
ghost use Rattle.toml_values.specs.Values.{found, text_of, flag_of, currency_of};

use crate::fault::ValueFault;
use crate::path::{Part, path_text};
use simm_kinds::Currency;
use std::alloc::Global;
use toml::Value;

/// A text. Any other value is `Missing`.
pub fn text<'a>(
    alloc: Global,
    path: &[Part<'_>],
    value: Option<&'a Value>,
) -> Result<&'a str, ValueFault>
    ensures { Gives (λ s. s.now) result (text_of (path_of path.now) (found value.entry)) }
{
    match value.and_then(Value::as_str) {
        Some(text) => Ok(text),
        None => Err(ValueFault::Missing(path_text(alloc, path)?)),
    }
}

/// True or false. Any other value is `Missing`.
pub fn flag(alloc: Global, path: &[Part<'_>], value: Option<&Value>) -> Result<bool, ValueFault>
    ensures { Gives (λ b. b) result (flag_of (path_of path.now) (found value.entry)) }
{
    match value.and_then(Value::as_bool) {
        Some(flag) => Ok(flag),
        None => Err(ValueFault::Missing(path_text(alloc, path)?)),
    }
}

/// A currency, which the text has in either case. A text that is none is `BadNumber`, any other
/// value `Missing`.
#[tactic(auto, unfolding(crate::specs::Values::currency_of))]
pub fn currency(
    alloc: Global,
    path: &[Part<'_>],
    value: Option<&Value>,
) -> Result<Currency, ValueFault>
    ensures { Gives (λ c. c) result (currency_of (path_of path.now) (found value.entry)) }
{
    let text = text(alloc, path, value)?;
    match Currency::read(text.as_bytes()) {
        Some(currency) => Ok(currency),
        None => Err(ValueFault::BadNumber(path_text(alloc, path)?)),
    }
}
