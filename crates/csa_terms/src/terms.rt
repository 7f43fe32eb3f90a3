ghost use Rattle.std.specs.Prelude.{◌≡◌};
ghost use Rattle.csa_terms.specs.Terms.{AreTerms};

use crate::both_terms::BothTerms;
use std::marker::Model;

/// The terms of netting sets, in the order of their file: one to sixteen, of different names.
/// Contracts see just their list.
#[derive(Drop)]
pub struct Terms {
    sets: Vec<BothTerms>,
}

impl Model for Terms {
    ghost use Rattle.std.specs.Prelude.{List};
    ghost use Rattle.csa_terms.specs.Terms.{Agreements, AreTerms};

    ghost Value = { List Agreements };

    ghost view = { λ t. t.sets.items };

    ghost invariant = { λ t. AreTerms t.sets.items };
}

impl Terms {
    /// The terms of these sets.
    pub fn from_sets(sets: Vec<BothTerms>) -> Terms
        requires { AreTerms sets.items }
        ensures { result ≡ sets.items }
    {
        Terms { sets }
    }

    /// Lends the terms of the sets. It takes no memory.
    pub fn sets(&self) -> &[BothTerms]
        ensures value { result.now ≡ self.now }
        ensures facts { AreTerms self.now }
    {
        self.sets.as_slice()
    }
}
