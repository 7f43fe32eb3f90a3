ghost use Rattle.std.specs.Prelude.{◌≡◌, ℕ, ◌≤◌, length, unsigned_abs};
ghost use Rattle.class_credit.specs.Groups.{issuer_rho};

use measured_bucket::mh_units::Corr6;
use measured_bucket::weighted_bucket::{Grouped, Rho};

/// The correlations of the points of a bucket of credit, by the numbers of their issuers.
#[derive(Drop)]
pub struct IssuerRho {
    /// The points, each with the number of its issuer.
    pub grouped: Vec<Grouped>,
    /// Of two points of one issuer.
    pub same: Corr6,
    /// Of points of two issuers.
    pub rho: Corr6,
    ghost symmetric: { (i j : ℕ)
        → issuer_rho same.0 rho.0 grouped.items i j ≡ issuer_rho same.0 rho.0 grouped.items j i },
    ghost at_most_one: { (i j : ℕ)
        → unsigned_abs (issuer_rho same.0 rho.0 grouped.items i j) ≤ 1000000 },
}

impl Rho for IssuerRho {
    ghost size = { λ x. length x.grouped.items };

    ghost rho = { λ x. issuer_rho x.same.0 x.rho.0 x.grouped.items };

    ghost symmetric = { λ x i j _ _. x.symmetric i j };

    ghost at_most_one = { λ x i j _ _. x.at_most_one i j };

    fn size(&self) -> usize {
        self.grouped.len()
    }

    fn rho(&self, row: usize, column: usize) -> Corr6 {
        if self.grouped[row].group == self.grouped[column].group {
            self.same
        } else {
            self.rho
        }
    }
}
