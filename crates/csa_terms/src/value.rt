ghost use Rattle.std.specs.Prelude.{◌≡◌, ◌<◌, length, IfOk};
ghost use Rattle.toml_values.specs.Paths.{path_of};
ghost use Rattle.toml_values.specs.Values.{found};
ghost use Rattle.iso_dates.specs.Dates.{IsCalendarDay};
ghost use Rattle.csa_terms.specs.Faults.{Gives};
ghost use Rattle.csa_terms.specs.Values.{name_of, set_name_of, minute_of, date_of};

use crate::fault::TermsFault;
use iso_dates::{date_in, minute_in};
use std::alloc::Global;
use toml::Value;
use toml_values::simm_kinds::{Name, NameFault};
use toml_values::{Part, path_text, text};

/// A name, which may be empty. Any other text is `BadName`.
pub fn name(alloc: Global, path: &[Part<'_>], text: &str) -> Result<Name, TermsFault>
    ensures { Gives (λ n. n) result (name_of (path_of path.now) text.now) }
{
    match Name::read(alloc, text.as_bytes()) {
        Ok(name) => Ok(name),
        Err(NameFault::Memory) => Err(TermsFault::Memory),
        Err(_) => Err(TermsFault::BadName(path_text(alloc, path)?)),
    }
}

/// A name that isn't empty. Any other text is `BadName`, any other value `Missing`.
#[tactic(auto, unfolding(crate::specs::Values::set_name_of))]
pub fn set_name(alloc: Global, path: &[Part<'_>], value: Option<&Value>) -> Result<Name, TermsFault>
    ensures value { Gives (λ n. n) result (set_name_of (path_of path.now) (found value.entry)) }
    ensures named { IfOk result (λ n. 0 < length n) }
{
    let text = text(alloc, path, value)?;
    if !Name::is_full_name(text.as_bytes()) {
        return Err(TermsFault::BadName(path_text(alloc, path)?));
    }
    name(alloc, path, text)
}

/// A time of day `HH:MM`, in minutes from midnight. Any other text is `BadDate`, any other
/// value `Missing`.
#[tactic(auto, unfolding(crate::specs::Values::minute_of))]
pub fn minute(alloc: Global, path: &[Part<'_>], value: Option<&Value>) -> Result<u16, TermsFault>
    ensures value { Gives (λ n. n) result (minute_of (path_of path.now) (found value.entry)) }
    ensures within { IfOk result (λ n. n < 1440) }
{
    let text = text(alloc, path, value)?;
    match minute_in(text.as_bytes()) {
        Some(minute) => Ok(minute),
        None => Err(TermsFault::BadDate(path_text(alloc, path)?)),
    }
}

/// A date `YYYY-MM-DD`, as a day counted from 1970-01-01. Any other text is `BadDate`, any other
/// value `Missing`.
#[tactic(auto, unfolding(crate::specs::Values::date_of))]
pub fn date(alloc: Global, path: &[Part<'_>], value: Option<&Value>) -> Result<i32, TermsFault>
    ensures value { Gives (λ d. d) result (date_of (path_of path.now) (found value.entry)) }
    ensures calendar { IfOk result IsCalendarDay }
{
    let text = text(alloc, path, value)?;
    match date_in(text.as_bytes()) {
        Some(day) => Ok(day),
        None => Err(TermsFault::BadDate(path_text(alloc, path)?)),
    }
}
