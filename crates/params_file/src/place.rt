ghost use Rattle.std.specs.Prelude.{◌≡◌, [], ◌∷◌, ◌++◌, map, decimal, IfOk};
ghost use Rattle.simm_params.specs.TomlValues.Paths.{word_of};

use simm_params::toml_values::Part;
use std::alloc::{AllocError, Global};

/// The path of a place, counted from 1, of the array at a path. The only error is want of memory.
pub fn place_path<'a>(
    alloc: Global,
    path: &[Part<'a>],
    number: usize,
) -> Result<Vec<Part<'a>>, AllocError>
    ensures { IfOk result (λ longer.
        map word_of longer.items ≡ map word_of path.now ++ decimal number ∷ []) }
{
    let mut longer = Vec::from_slice(alloc, path)?;
    longer.push(Part::Place(number))?;
    Ok(longer)
}

/// The path of a key of the table at a path. The only error is want of memory.
pub fn key_path<'a>(
    alloc: Global,
    path: &[Part<'a>],
    key: &'a str,
) -> Result<Vec<Part<'a>>, AllocError>
    ensures { IfOk result (λ longer.
        map word_of longer.items ≡ map word_of path.now ++ key.now ∷ []) }
{
    let mut longer = Vec::from_slice(alloc, path)?;
    longer.push(Part::Key(key))?;
    Ok(longer)
}
