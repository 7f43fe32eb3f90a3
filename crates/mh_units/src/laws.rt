//! The readings by which the grammars of files are stated are those of the written grammar, for
//! every text.
ghost use Rattle.std.specs.Prelude.{◌≡◌, ◌↔◌, ◌^◌, ℕ, List, true, ℤ, Option, Result};
ghost use Rattle.mh_units.specs.declared.quantities.Cents.{Cents};
ghost use Rattle.mh_units.specs.declared.quantities.Rate4.{Rate4};
ghost use Rattle.mh_units.specs.declared.numeral.NumeralFault.{NumeralFault};
ghost use Rattle.mh_units.specs.declared.scan.Phase.TheVariants.{Start};
ghost use Rattle.mh_units.specs.Grammar.{IsNumeral, IsLongestFront};
ghost use Rattle.mh_units.specs.Scan.{is_numeral, reach};
ghost use Rattle.mh_units.specs.Numeral.{cents_of, rate4_of, fixed_of, IsReading, IsFixedReading};

/// A text that is read byte by byte comes to an end just where it is a numeral of the written
/// grammar, and reading stops just behind the longest front of the text with which some
/// numeral begins.
pub fn numerals_are_scanned()
    ensures ends { (text : List ℕ) → (is_numeral text ≡ true) ↔ IsNumeral text }
    ensures stops { (text : List ℕ) (place : ℕ)
        → (place ≡ reach Start text) ↔ IsLongestFront text place }
{}

/// What is read of a text as cents, as a rate and as a number of so many digits behind the point
/// is just what the written grammar gives: the first fault that holds, or the number.
pub fn readings_are_written()
    ensures cents { (text : List ℕ) (r : Result Cents NumeralFault)
        → (r ≡ cents_of text) ↔ IsReading (λ c. c.0) 2 (10 ^ 15) text r }
    ensures rates { (text : List ℕ) (r : Result Rate4 NumeralFault)
        → (r ≡ rate4_of text) ↔ IsReading (λ c. c.0) 4 (10 ^ 12) text r }
    ensures fixed { (places : ℕ) (text : List ℕ) (r : Option ℤ)
        → (r ≡ fixed_of places text) ↔ IsFixedReading places text r }
{}
