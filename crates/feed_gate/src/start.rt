//! Netting sets before their first call.
ghost use Rattle.std.specs.Prelude.{◌≡◌, map, IfOk};
ghost use Rattle.feed_gate.specs.Sets.{AreApart};
ghost use Rattle.feed_events.specs.SetCore.Set.{start};

use feed_events::feed_reader::csa_terms::{BothTerms, Terms};
use feed_events::set_core::SetState;
use feed_events::set_core::simm_params::Params;
use std::alloc::{AllocError, Global};

/// A set without calls.
fn make_set(alloc: Global, params: &Params, terms: &BothTerms) -> Result<SetState, AllocError>
    ensures { IfOk result (λ set. set ≡ start params.now terms.now) }
{
    SetState::new(alloc, params.share()?, terms.copy(alloc)?)
}

/// A set for each of the terms, in their order, without calls.
///
/// # Errors
///
/// For want of memory alone.
pub fn make_sets(alloc: Global, params: &Params, terms: &Terms) -> Result<Vec<SetState>, AllocError>
    ensures sets { IfOk result (λ sets. sets.items ≡ map (start params.now) terms.now) }
    ensures apart { IfOk result (λ sets. AreApart sets.items) }
{
    let mut sets = Vec::new(alloc);
    for agreement in terms.sets() {
        sets.push(make_set(alloc, params, agreement)?)?;
    }
    Ok(sets)
}
