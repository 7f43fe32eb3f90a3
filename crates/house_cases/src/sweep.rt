//! What comes of a command at number after number, told in few lines, or whole where the same came.
use crate::directed::{Outcome, write_outcome};
use margin_top::Status;
use std::io::{self, Write};

/// What a run left, beside the plain run of the command.
#[derive(Clone, Copy, PartialEq)]
pub struct Seen {
    status: Status,
    /// Whether the text is a front of the plain one, and whether it is all of it.
    is_front: bool,
    is_whole: bool,
    /// Whether the desks are left, retired and told alike.
    is_told: bool,
    bytes: usize,
}

impl Seen {
    /// What an outcome is beside the plain one.
    pub fn of(outcome: &Outcome, plain: &Outcome) -> Seen {
        let text = outcome.text.as_slice();
        Seen {
            status: outcome.status,
            is_front: plain.text.as_slice().starts_with(text),
            is_whole: plain.text.as_slice() == text,
            is_told: plain.told.as_slice() == outcome.told.as_slice(),
            bytes: text.len(),
        }
    }

    /// Whether nothing differs but the status.
    pub fn is_same(self) -> bool {
        self.is_whole && self.is_told
    }

    /// By how many bytes more it differs from the one before it, if by nothing else.
    fn grown(self, before: Seen) -> Option<usize> {
        let alike = Seen {
            bytes: before.bytes,
            ..self
        };
        if alike == before {
            self.bytes.checked_sub(before.bytes)
        } else {
            None
        }
    }
}

/// Numbers that follow one another, at which the text grows by as many bytes each.
#[derive(Clone, Copy)]
pub struct Group {
    first: u64,
    last: u64,
    from: Seen,
    to: Seen,
    step: Option<usize>,
}

impl Group {
    fn new(number: u64, seen: Seen) -> Group {
        Group {
            first: number,
            last: number,
            from: seen,
            to: seen,
            step: None,
        }
    }

    /// The same with the number that follows, if it belongs to them.
    fn with(self, number: u64, seen: Seen) -> Option<Group> {
        let grown = seen.grown(self.to)?;
        if self.step.is_some() && self.step != Some(grown) {
            return None;
        }
        Some(Group {
            last: number,
            to: seen,
            step: Some(grown),
            ..self
        })
    }

    /// The numbers with the one that follows; or they are written, and it begins others.
    pub fn after<W: Write>(
        group: Option<Group>,
        number: u64,
        seen: Seen,
        out: &mut W,
    ) -> io::Result<Group> {
        let Some(group) = group else {
            return Ok(Group::new(number, seen));
        };
        if let Some(longer) = group.with(number, seen) {
            return Ok(longer);
        }
        group.write(out)?;
        Ok(Group::new(number, seen))
    }

    /// Writes a line of the numbers, the status, how many bytes of the plain text there are, and
    /// what else differs.
    pub fn write<W: Write>(self, out: &mut W) -> io::Result<()> {
        write!(out, "N {} to {}: ", self.first, self.last)?;
        write!(out, "status {}, ", self.to.status.code())?;
        if self.to.is_whole {
            write!(out, "the whole text")?;
        } else if self.to.is_front {
            write!(
                out,
                "the first {} to {} bytes",
                self.from.bytes, self.to.bytes
            )?;
        } else {
            write!(out, "another text")?;
        }
        if !self.to.is_told {
            write!(out, ", other notices")?;
        }
        writeln!(out)
    }
}

/// Numbers that follow one another, at each of which the same came.
#[derive(Drop)]
pub struct Alike {
    first: u64,
    last: u64,
    outcome: Outcome,
}

impl Alike {
    /// The numbers with the one that follows, where the same came of it; or they are written, and
    /// it begins others.
    pub fn after<W: Write>(
        alike: Option<Alike>,
        number: u64,
        outcome: Outcome,
        out: &mut W,
    ) -> io::Result<Alike> {
        let mut first = number;
        if let Some(alike) = alike {
            if outcome.is_like(&alike.outcome) {
                first = alike.first;
            } else {
                alike.write(out)?;
            }
        }
        Ok(Alike {
            first,
            last: number,
            outcome,
        })
    }

    /// Writes a line of the numbers, and below it what came.
    pub fn write<W: Write>(&self, out: &mut W) -> io::Result<()> {
        writeln!(out, "N {} to {}", self.first, self.last)?;
        write_outcome(out, &self.outcome)
    }
}
