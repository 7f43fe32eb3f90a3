/// The words of a what-if.
#[derive(Clone, Copy)]
pub struct WhatIfFiles<'a> {
    /// The name of the parameter file.
    pub params: &'a str,
    /// The name of the CRIF file of the book.
    pub crif: &'a str,
    /// The name of the CRIF file of the candidate.
    pub candidate: &'a str,
    /// The names of the trades that leave the book, each a name that isn't empty.
    pub names: &'a [String],
}
