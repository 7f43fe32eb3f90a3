//! Cases with directives: a command, and above it the lines that begin with `! `, which say what
//! it runs over and into.
use anyhow::{Context, Result, bail};
use std::alloc::Global;

/// How a directive begins. Behind a colon stand numbers; for N its range, and for a file how often
/// it has which others.
const FORMS: [&str; 18] = [
    "N: ",
    "any order",
    "bytes of a put: ",
    "bytes of a read: ",
    "bytes of the sink: ",
    "desk",
    "file ",
    "finds that fail: ",
    "in full",
    "last bits of ",
    "last lines: ",
    "line ",
    "lines of ",
    "no desk",
    "order: ",
    "puts that fail: ",
    "quiet desk",
    "reads of ",
];

/// A command with its directives, and the number that the letter N stands for in them. Where it
/// stands for none, a directive with an N says nothing.
#[derive(Clone, Copy)]
pub struct Case<'a> {
    pub command: &'a str,
    pub directives: &'a [&'a str],
    number: Option<u64>,
}

impl<'a> Case<'a> {
    /// A command with directives, each without the `! ` before it.
    pub fn new(command: &'a str, directives: &'a [&'a str]) -> Result<Case<'a>> {
        for line in directives {
            if !FORMS.iter().any(|form| line.starts_with(*form)) {
                bail!("{line} is no directive");
            }
        }
        Ok(Case {
            command,
            directives,
            number: None,
        })
    }

    /// The same with this number.
    pub fn at(self, number: u64) -> Case<'a> {
        Case {
            number: Some(number),
            ..self
        }
    }

    /// Whether one of the directives is this one.
    pub fn says(self, directive: &str) -> bool {
        self.directives.iter().any(|line| *line == directive)
    }

    fn number(self, word: &str) -> Result<Option<u64>> {
        if word == "N" {
            return Ok(self.number);
        }
        let number = word.parse::<u64>().context(format_args!("reading {word}"))?;
        Ok(Some(number))
    }

    /// Adds the numbers of a directive, if it begins so.
    fn add_numbers(self, numbers: &mut Vec<u64>, directive: &str, front: &str) -> Result<()> {
        if let Some(rest) = directive.strip_prefix(front) {
            for word in rest.split(' ') {
                if let Some(number) = self.number(word)? {
                    numbers.push(number)?;
                }
            }
        }
        Ok(())
    }

    /// The numbers of a directive, if it begins so.
    pub fn numbers_of(self, alloc: Global, directive: &str, front: &str) -> Result<Vec<u64>> {
        let mut numbers = Vec::new(alloc);
        self.add_numbers(&mut numbers, directive, front)?;
        Ok(numbers)
    }

    /// The numbers of all directives that begin so.
    pub fn numbers(self, alloc: Global, front: &str) -> Result<Vec<u64>> {
        let mut numbers = Vec::new(alloc);
        for directive in self.directives {
            self.add_numbers(&mut numbers, directive, front)?;
        }
        Ok(numbers)
    }

    /// The first number of the directives that begin so, if there is one.
    pub fn first_number(self, alloc: Global, front: &str) -> Result<Option<u64>> {
        Ok(self.numbers(alloc, front)?.first().copied())
    }

    /// The first and the last number that N stands for.
    pub fn range(self) -> Result<Option<(u64, u64)>> {
        for directive in self.directives {
            if let Some(range) = directive.strip_prefix("N: ") {
                let (first, last) = range.split_once(" to ").context("N has no range")?;
                return Ok(Some((first.parse::<u64>()?, last.parse::<u64>()?)));
            }
        }
        Ok(None)
    }
}
