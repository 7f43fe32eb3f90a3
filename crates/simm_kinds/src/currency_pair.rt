ghost use Rattle.std.specs.Prelude.{◌≡◌, true};
ghost use Rattle.simm_kinds.specs.Pair.{Pair, is_pair, pair_of, pair_named};

use crate::Currency;
use std::marker::Model;

/// A pair of two different currencies, the alphabetically smaller one first: an exchange rate has
/// one pair, whichever way round a file writes it. Contracts see the two currencies.
#[derive(Clone, Copy, Debug, PartialEq, Eq, PartialOrd, Ord, Hash)]
pub struct CurrencyPair {
    first: Currency,
    second: Currency,
}

impl Model for CurrencyPair {
    ghost use Rattle.std.specs.Prelude.{◌≡◌, true};
    ghost use Rattle.simm_kinds.specs.Pair.{Pair, is_pair};

    ghost Value = { Pair };

    ghost view = { λ p. record { first = p.first; second = p.second } };

    ghost invariant = { λ p. is_pair (record { first = p.first; second = p.second }) ≡ true };

    ghost inverse = { λ p. record { first = p.first; second = p.second } };
}

impl CurrencyPair {
    /// The pair of two currencies, given in either order, or `None` where they are one and
    /// the same.
    pub fn new(a: Currency, b: Currency) -> Option<CurrencyPair>
        ensures { result ≡ pair_of a b }
    {
        let _three_letters = a.letters();
        let _three_letters = b.letters();
        if a.cmp(&b).is_lt() {
            Some(CurrencyPair {
                first: a,
                second: b,
            })
        } else if b.cmp(&a).is_lt() {
            Some(CurrencyPair {
                first: b,
                second: a,
            })
        } else {
            None
        }
    }

    /// The pair that a text of six letters in either case names, or `None` for another text or
    /// twice the same currency.
    pub fn read(text: &[u8]) -> Option<CurrencyPair>
        ensures { result ≡ pair_named text.now }
    {
        if text.len() != 6 {
            return None;
        }
        let (a, b) = text.split_at(3);
        CurrencyPair::new(Currency::read(a)?, Currency::read(b)?)
    }

    /// The currency that comes first in the alphabet.
    pub fn first(self) -> Currency
        ensures { result ≡ self.first }
    {
        self.first
    }

    /// The other currency.
    pub fn second(self) -> Currency
        ensures { result ≡ self.second }
    {
        self.second
    }

    /// Does nothing: what each pair keeps.
    pub fn facts(self)
        ensures { is_pair self ≡ true }
    {}
}
