//! A file in which bytes and lines are changed, as directives say.
use crate::cases::Case;
use anyhow::{Context, Result};
use mh_units::Bytes;
use std::alloc::Global;
use std::str;

/// The lines of a file that directives change, counted from 1.
#[derive(Drop)]
struct Changes<'a> {
    /// Those that have another text, with it.
    others: Vec<(u64, &'a str)>,
    left_out: Vec<u64>,
    /// Those before which an empty line comes.
    behind_an_empty_line: Vec<u64>,
    doubled: Vec<u64>,
    /// Those of which the first half is left, without the byte in the middle where there is one.
    cut: Vec<u64>,
    ended_by_cr_lf: Vec<u64>,
}

/// The lines of a file that have another text, with it.
fn others<'a>(alloc: Global, case: Case<'a>, name: &str) -> Result<Vec<(u64, &'a str)>> {
    let mut others = Vec::new(alloc);
    for directive in case.directives {
        if let Some(rest) = directive.strip_prefix("line ") {
            let (place, rest) = rest.split_once(" of ").context("a line of what")?;
            let (file, text) = rest.split_once(": ").context("a line without a text")?;
            if file == name {
                others.push((place.parse::<u64>()?, text))?;
            }
        }
    }
    Ok(others)
}

impl<'a> Changes<'a> {
    fn of(alloc: Global, case: Case<'a>, name: &str) -> Result<Changes<'a>> {
        let lines = |done: &str| -> Result<Vec<u64>> {
            let front = format!(in alloc; "lines of {name} {done}: ")?;
            case.numbers(alloc, front.as_str())
        };
        Ok(Changes {
            others: others(alloc, case, name)?,
            left_out: lines("left out")?,
            behind_an_empty_line: lines("behind an empty line")?,
            doubled: lines("doubled")?,
            cut: lines("cut")?,
            ended_by_cr_lf: lines("ended by CR LF")?,
        })
    }

    fn are_none(&self) -> bool {
        self.others.is_empty()
            && self.left_out.is_empty()
            && self.behind_an_empty_line.is_empty()
            && self.doubled.is_empty()
            && self.cut.is_empty()
            && self.ended_by_cr_lf.is_empty()
    }

    /// The text that stands in the place of a line, if it has another.
    fn other(&self, place: u64) -> Option<&'a str> {
        let other = self.others.iter().find(|other| other.0 == place)?;
        Some(other.1)
    }

    fn add_line(&self, edited: &mut Bytes, place: u64, line: &str) -> Result<()> {
        if self.left_out.contains(&place) {
            return Ok(());
        }
        if self.behind_an_empty_line.contains(&place) {
            edited.push(b'\n')?;
        }
        let mut text = match self.other(place) {
            Some(other) => other.as_bytes(),
            None => line.as_bytes(),
        };
        if self.cut.contains(&place) {
            text = first_half(text);
        }
        let times = if self.doubled.contains(&place) { 2 } else { 1 };
        for _ in 0..times {
            edited.extend(text)?;
            if self.ended_by_cr_lf.contains(&place) {
                edited.push(b'\r')?;
            }
            edited.push(b'\n')?;
        }
        Ok(())
    }
}

fn first_half(text: &[u8]) -> &[u8] {
    text.get(..text.len() / 2).unwrap_or(text)
}

/// The bytes of a file, with another last bit where directives say.
fn with_other_bits(alloc: Global, case: Case<'_>, name: &str, bytes: Bytes) -> Result<Bytes> {
    let front = format!(in alloc; "last bits of {name} that differ: ")?;
    let places = case.numbers(alloc, front.as_str())?;
    if places.is_empty() {
        return Ok(bytes);
    }
    let mut others = Bytes::new(alloc);
    let mut place = 0u64;
    for byte in bytes.as_slice() {
        place = place.saturating_add(1);
        let bit = if places.contains(&place) { 1 } else { 0 };
        others.push(*byte ^ bit)?;
    }
    Ok(others)
}

/// The bytes of a file with the changes of the directives. A file of which lines are changed has
/// LF behind each.
pub fn edited(alloc: Global, case: Case<'_>, name: &str, bytes: Bytes) -> Result<Bytes> {
    let bytes = with_other_bits(alloc, case, name, bytes)?;
    let changes = Changes::of(alloc, case, name)?;
    if changes.are_none() {
        return Ok(bytes);
    }
    let mut edited = Bytes::new(alloc);
    let mut place = 0u64;
    for line in str::from_utf8(bytes.as_slice())?.lines() {
        place = place.saturating_add(1);
        changes.add_line(&mut edited, place, line)?;
    }
    Ok(edited)
}
