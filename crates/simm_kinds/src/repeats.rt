ghost use Rattle.std.specs.Prelude.{◌≡◌, IfOk};
ghost use Rattle.std.specs.Ordering.{eq_by_cmp};
ghost use Rattle.simm_kinds.specs.Repeats.{repeats};

use std::alloc::{AllocError, Global};
use std::collections::BTreeSet;

/// Whether two of the keys compare as equal.
pub fn repeats<K: Ord + Copy>(alloc: Global, keys: &[K]) -> Result<bool, AllocError>
    ensures { IfOk result (λ found. found ≡ repeats (eq_by_cmp K.cmp) keys.now) }
{
    let mut seen = BTreeSet::new(alloc);
    for key in keys {
        if !seen.insert(*key)? {
            return Ok(true);
        }
    }
    Ok(false)
}
