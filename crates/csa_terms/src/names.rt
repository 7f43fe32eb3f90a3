ghost use Rattle.std.specs.Prelude.{◌≡◌, [], map, option_map, OnOk};
ghost use Rattle.std.specs.List.{IsDistinct, list_any};
ghost use Rattle.toml_values.specs.SimmKinds.Order.{same_name};
ghost use Rattle.csa_terms.specs.Faults.{Gives};
ghost use Rattle.csa_terms.specs.Grammar.{once_each, repeated};

use crate::both_terms::BothTerms;
use crate::fault::TermsFault;
use std::alloc::Global;
use toml_values::simm_kinds::Name;

fn has_name(sets: &[BothTerms], name: &Name) -> bool
    ensures { result ≡ list_any (λ s. same_name name.now s.collect.name) sets.now }
{
    sets.iter()
        .any(|set| name.bytes().cmp(set.name().bytes()).is_eq())
}

/// The first name that stood before.
fn first_repeated(sets: &[BothTerms]) -> Option<&Name>
    ensures { option_map (λ n. n.now) result ≡ repeated [] sets.now }
{
    for (index, set) in sets.iter().enumerate() {
        if has_name(&sets[0..index], set.name()) {
            return Some(set.name());
        }
    }
    None
}

/// Refuses a set that has the name of one before it.
pub fn check_names(alloc: Global, sets: &[BothTerms]) -> Result<(), TermsFault>
    ensures value { Gives (λ u. u) result (once_each (repeated [] sets.now)) }
    ensures different { OnOk result (IsDistinct same_name (map (λ s. s.collect.name) sets.now)) }
{
    match first_repeated(sets) {
        Some(name) => Err(TermsFault::DuplicateSet(name.copy(alloc)?)),
        None => Ok(()),
    }
}
