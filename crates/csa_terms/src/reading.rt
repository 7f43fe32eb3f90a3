ghost use Rattle.csa_terms.specs.Faults.{Gives};
ghost use Rattle.csa_terms.specs.Grammar.{terms_of};

use crate::fault::TermsFault;
use crate::sets::read_sets;
use crate::terms::Terms;
use std::alloc::Global;
use toml_values::read_document;

/// The terms that a file has: one to sixteen sets.
///
/// # Errors
///
/// A fault is the first of the grammar's tests that fails, with its place. `Toml` comes first,
/// then `Missing` where there is no array of sets, `TooManySets`, and `Missing` where no set is a
/// table. The keys of the sets follow, set by set in the file's order: name, amounts,
/// notification, FX haircut, haircuts, holidays, and then, where it has a table `post`, amounts,
/// FX haircut and haircuts in that one. `DuplicateSet` comes last. `Memory` may come at any test
/// and says nothing of the file.
#[tactic(auto, unfolding(crate::specs::Grammar::terms_of))]
pub fn read_terms(alloc: Global, bytes: &[u8]) -> Result<Terms, TermsFault>
    ensures exact { Gives (λ t. t) result (terms_of bytes.now) }
{
    match read_document(alloc, bytes)? {
        Some(root) => read_sets(alloc, &root),
        None => Err(TermsFault::Toml),
    }
}
