ghost use Rattle.std.specs.Prelude.{◌≡◌, ◌++◌, map, IfOk, OnOk, string_bytes};
ghost use Rattle.toml_values.specs.Paths.{behind_points, word_of, path_of};

use simm_kinds::mh_units::Text;
use std::alloc::{AllocError, Global};

/// A part of a path. A path is all parts from the root of the file to a value.
#[derive(Clone, Copy)]
pub enum Part<'a> {
    /// A key of a table.
    Key(&'a str),
    /// A place of an array, counted from 1.
    Place(usize),
}

fn push_part(alloc: Global, text: &mut String, part: Part<'_>) -> Result<(), AllocError>
    ensures { OnOk result (string_bytes text.new ≡ string_bytes text.old ++ word_of part.entry) }
{
    match part {
        Part::Key(key) => text.push_str(key)?,
        Part::Place(place) => text.push_str(format!(in alloc; "{place}")?.as_str())?,
    }
    Ok(())
}

fn push_behind(alloc: Global, text: &mut String, parts: &[Part<'_>]) -> Result<(), AllocError>
    ensures { OnOk result
        (string_bytes text.new ≡ string_bytes text.old ++ behind_points (map word_of parts.now)) }
{
    for part in parts {
        text.push_str(".")?;
        push_part(alloc, text, *part)?;
    }
    Ok(())
}

/// The path's text: its parts joined by points. The only error is want of memory.
pub fn path_text(alloc: Global, path: &[Part<'_>]) -> Result<Text, AllocError>
    ensures { IfOk result (λ text. text ≡ path_of path.now) }
{
    let mut text = String::new(alloc);
    if let [first, rest @ ..] = path {
        push_part(alloc, &mut text, *first)?;
        push_behind(alloc, &mut text, rest)?;
    }
    Ok(Text::from_vec(text.into_bytes()))
}
