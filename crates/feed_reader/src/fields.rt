//! The fields of a line, read one after another.
ghost use Rattle.std.specs.Prelude.{◌≡◌, ◌∷◌, [], not, MatchResult};
ghost use Rattle.side_events.specs.CsaTerms.Moments.{moment_of};
ghost use Rattle.feed_reader.specs.declared.unread.Unread.TheVariants as unread;
ghost use Rattle.feed_reader.specs.Fields.{fields_of, fields_left, first, is_nil, no_more, Gives};
ghost use Rattle.feed_reader.specs.Values.{full_name, full_names, amount};
ghost use Rattle.feed_reader.specs.Values.{number, lot_currency, margin_side};
ghost use Rattle.feed_reader.specs.Sides.{last_side};
ghost use Rattle.feed_reader.specs.Words.{word_of};

use crate::unread::Unread;
use crate::values::{cents_in, currency_in, number_in, side_in};
use crate::words::Word;
use mh_io::mh_units::cut_at;
use side_events::csa_terms::simm_kinds::{Listed, MarginSide, Name};
use side_events::csa_terms::{LotCurrency, Moment};
use std::alloc::Global;

/// What separates the fields of a line.
const TAB: u8 = b'\t';

/// The fields of a line that are still to be read.
#[derive(Drop)]
pub(crate) struct Fields<'a> {
    /// With tabs between; `None` behind the last one.
    rest: Option<&'a [u8]>,
}

impl<'a> Fields<'a> {
    /// All fields of a line.
    pub fn of(line: &'a [u8]) -> Fields<'a>
        ensures { fields_left result ≡ fields_of line.now }
    {
        Fields { rest: Some(line) }
    }

    /// The next field.
    fn next(&mut self) -> Result<&'a [u8], Unread>
        ensures { MatchResult result
            (λ field. fields_left self.old ≡ field.now ∷ fields_left self.new)
            (λ e. (e ≡ unread.Bad) × (fields_left self.old ≡ [])) }
    {
        let Some(rest) = self.rest else {
            return Err(Unread::Bad);
        };
        match cut_at(rest, TAB) {
            Some((field, further)) => {
                self.rest = Some(further);
                Ok(field)
            }
            None => {
                self.rest = None;
                Ok(rest)
            }
        }
    }

    /// Whether fields are left.
    fn has_more(&self) -> bool
        ensures { result ≡ not (is_nil (fields_left self.now)) }
    {
        self.rest.is_some()
    }

    /// Tests that no field is left.
    pub fn end(&self) -> Result<(), Unread>
        ensures { Gives (λ u. u) result (no_more (fields_left self.now)) }
    {
        if self.has_more() {
            return Err(Unread::Bad);
        }
        Ok(())
    }

    /// The word that the next field is.
    pub fn word(&mut self) -> Result<Word, Unread>
        ensures { Gives (λ word. (word, fields_left self.new)) result
            (first word_of (fields_left self.old)) }
    {
        let field = self.next()?;
        Word::of(field).ok_or(Unread::Bad)
    }

    /// The name that the next field is; it isn't empty.
    pub fn name(&mut self, alloc: Global) -> Result<Name, Unread>
        ensures { Gives (λ name. (name, fields_left self.new)) result
            (first full_name (fields_left self.old)) }
    {
        let field = self.next()?;
        if !Name::is_full_name(field) {
            return Err(Unread::Bad);
        }
        Ok(Name::of_bytes(alloc, field)?)
    }

    /// The names that the fields are that are left: one at least.
    pub fn names(&mut self, alloc: Global) -> Result<Listed<Name>, Unread>
        ensures { Gives (λ names. names) result (full_names (fields_left self.old)) }
    {
        let mut names = Listed::new(alloc);
        names.push(self.name(alloc)?)?;
        while self.has_more() {
            names.push(self.name(alloc)?)?;
        }
        Ok(names)
    }

    /// The amount that the next field is, in cents.
    pub fn cents(&mut self) -> Result<i64, Unread>
        ensures { Gives (λ cents. (cents, fields_left self.new)) result
            (first amount (fields_left self.old)) }
    {
        let field = self.next()?;
        cents_in(field).ok_or(Unread::Bad)
    }

    /// The number from 1 that the next field is.
    pub fn number(&mut self) -> Result<u32, Unread>
        ensures { Gives (λ n. (n, fields_left self.new)) result
            (first number (fields_left self.old)) }
    {
        let field = self.next()?;
        number_in(field).ok_or(Unread::Bad)
    }

    /// The currency of a lot that the next field is.
    pub fn currency(&mut self) -> Result<LotCurrency, Unread>
        ensures { Gives (λ currency. (currency, fields_left self.new)) result
            (first lot_currency (fields_left self.old)) }
    {
        let field = self.next()?;
        currency_in(field).ok_or(Unread::Bad)
    }

    /// The time of a demand that the next field is.
    pub fn moment(&mut self) -> Result<Moment, Unread>
        ensures { Gives (λ moment. (moment, fields_left self.new)) result
            (first moment_of (fields_left self.old)) }
    {
        let field = self.next()?;
        Moment::read(field).ok_or(Unread::Bad)
    }

    /// The side of the margin that the next field names.
    fn named_side(&mut self) -> Result<MarginSide, Unread>
        ensures { Gives (λ side. (side, fields_left self.new)) result
            (first margin_side (fields_left self.old)) }
    {
        let field = self.next()?;
        side_in(field).ok_or(Unread::Bad)
    }

    /// The side of the margin, which the last field names; what is collected where no field
    /// is left.
    #[tactic(auto, unfolding(crate::specs::Sides::last_side))]
    pub fn side(&mut self) -> Result<MarginSide, Unread>
        ensures { Gives (λ side. side) result (last_side (fields_left self.old)) }
    {
        if !self.has_more() {
            return Ok(MarginSide::Collect);
        }
        let side = self.named_side()?;
        self.end()?;
        Ok(side)
    }
}
