//! What is left of a book when some of its rows go: which keys go with them, before any row
//! is taken.
ghost use Rattle.std.specs.Prelude.{◌≡◌, ◌+◌, ◌≤◌, List, length, count_by};
ghost use Rattle.simm_rules.specs.SimmKinds.declared.key.FactorKey.{FactorKey};
ghost use Rattle.factor_book.specs.declared.holding.Holding.{Holding};
ghost use Rattle.factor_book.specs.Factors.{IsWithout};
ghost use Rattle.factor_book.specs.Holdings.{goes};
ghost use Rattle.factor_book.specs.Places.{factors_at};

use crate::factors::Factors;
use crate::place::Place;
use crate::place_factors::PlaceFactors;

impl Factors {
    /// How many factors there are without the rows of `leaving`, which are rows of this book. It
    /// takes no memory, and costs the logarithm of the number of keys for each key of `leaving`.
    pub fn len_without(&self, leaving: &Factors) -> usize
        requires { (left : List (FactorKey × Holding)) × IsWithout self.now leaving.now left }
        ensures { (left : List (FactorKey × Holding)) → IsWithout self.now leaving.now left
            → result ≡ length left }
    {
        let mut keys = self.len();
        for lent in leaving.places() {
            keys = self.keys_left(keys, lent);
        }
        keys
    }

    /// How many factors a place has without the rows of `leaving`, which are rows of this book. It
    /// takes no memory, and costs the logarithm of the number of keys for each key of `leaving` at
    /// the place.
    pub fn len_at_without(&self, place: &Place, leaving: &Factors) -> usize
        requires { (left : List (FactorKey × Holding)) × IsWithout self.now leaving.now left }
        ensures { (left : List (FactorKey × Holding)) → IsWithout self.now leaving.now left
            → result ≡ length (factors_at place.now left) }
    {
        let keys = self.len_at(place);
        match leaving.at(place) {
            Some(lent) => self.keys_left(keys, lent),
            None => keys,
        }
    }

    /// Of so many keys, those that are left when these rows of theirs go.
    fn keys_left(&self, keys: usize, leaving: &PlaceFactors) -> usize
        requires { count_by (goes self.now) leaving.now.factors ≤ keys }
        ensures { result + count_by (goes self.now) leaving.now.factors ≡ keys }
    {
        let mut left = keys;
        for (key, holding) in leaving.iter() {
            if self.rows(key) == holding.rows {
                left -= 1;
            }
        }
        left
    }
}
