ghost use Rattle.std.specs.Prelude.{◌≡◌, true, if◌then◌else◌};
ghost use Rattle.std.proofs.Common.{rules};
ghost use Rattle.std.specs.Cmp.{partial_order_from_own_ties};
ghost use Rattle.std.specs.Cmp.Rules.{comparing};
ghost use Rattle.std.specs.Cmp.Lexicographic.{slice_cmp};
ghost use Rattle.std.specs.Ordering.{nat_cmp, as_partial_cmp};
ghost use Rattle.simm_kinds.specs.NameText.{is_currency};
ghost use Rattle.simm_kinds.specs.Currency.{currency_text};

use std::cmp::Ordering;
use std::marker::Model;

/// A currency: three ASCII letters in upper case. Currencies are equal, ordered and hashed by
/// their letters; contracts see just these.
#[derive(Clone, Copy, Debug, PartialEq, Eq, Hash)]
pub struct Currency {
    letters: [u8; 3],
}

impl Model for Currency {
    ghost use Rattle.std.specs.Prelude.{◌≡◌, List, ℕ, true};
    ghost use Rattle.simm_kinds.specs.NameText.{is_currency};

    ghost Value = { List ℕ };

    ghost view = { λ c. c.letters };

    ghost invariant = { λ c. is_currency c.letters ≡ true };

    ghost inverse = { λ bytes. record { letters = bytes } };
}

impl Currency {
    /// The currency of these letters, or `None` where they aren't three in upper case.
    pub fn new(letters: &[u8]) -> Option<Currency>
        ensures { result ≡ (if is_currency letters.now then Some letters.now else None) }
    {
        match letters {
            [first, second, third] => of_three([*first, *second, *third]),
            _ => None,
        }
    }

    /// The currency that a text of three letters in either case names, or `None` for another text.
    pub fn read(text: &[u8]) -> Option<Currency>
        ensures { result ≡ currency_text text.now }
    {
        match text {
            [first, second, third] => of_three([
                first.to_ascii_uppercase(),
                second.to_ascii_uppercase(),
                third.to_ascii_uppercase(),
            ]),
            _ => None,
        }
    }

    /// Lends the letters.
    pub fn letters(&self) -> &[u8]
        ensures value { result.now ≡ self.now }
        ensures currency { is_currency self.now ≡ true }
    {
        &self.letters
    }
}

fn of_three(letters: [u8; 3]) -> Option<Currency>
    ensures { result ≡ (if is_currency letters then Some letters else None) }
{
    if letters.iter().all(|letter| letter.is_ascii_uppercase()) {
        Some(Currency { letters })
    } else {
        None
    }
}

impl Ord for Currency {
    ghost cmp = { slice_cmp nat_cmp };

    ghost total = { Prim.search (comparing, rules) };

    ghost matches_partial_cmp = { Prim.search (comparing, rules) };

    ghost matches_eq = { Prim.search (comparing, rules) };

    fn cmp(&self, other: &Currency) -> Ordering {
        let ours = self.letters;
        let theirs = other.letters;
        let first = ours[0].cmp(&theirs[0]);
        first
            .then(ours[1].cmp(&theirs[1]))
            .then(ours[2].cmp(&theirs[2]))
    }
}

impl PartialOrd for Currency {
    ghost partial_cmp = { as_partial_cmp (slice_cmp nat_cmp) };

    ghost laws = { partial_order_from_own_ties (Prim.search (comparing, rules))
        (Prim.search (comparing, rules)) };

    fn partial_cmp(&self, other: &Currency) -> Option<Ordering> {
        Some(self.cmp(other))
    }
}
