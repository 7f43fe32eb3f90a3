//! The correlations of the buckets of a class, by their places among its values.
ghost use Rattle.std.specs.Prelude.{◌≡◌, ℕ, ◌<◌, ◌≤◌, unsigned_abs};
ghost use Rattle.class_rates.specs.PairSums.WithItself.{with_itself-one};
ghost use Rattle.class_margin.specs.Table.{across_at, corr_at, count_of, room_of};
ghost use Rattle.class_margin.specs.Table.{scaled_by, table_at, IsInside};

use crate::listed::ListedClass;
use crate::ratios::Ratios;
use class_rates::concentration::combine;
use class_rates::mh_units::Corr6;
use class_rates::pair_sum::Correlation;
use class_rates::simm_params::Params;

/// The table of a class.
#[derive(Drop)]
pub enum Gamma<'a> {
    /// That of interest rates: one correlation of any two of so many buckets.
    Even(usize, Corr6),
    /// That of a class of which the file lists buckets, by the places of these in the file.
    Listed(&'a Params, ListedClass, Vec<usize>),
}

impl Gamma<'_> {
    // How many buckets there are.
    fn count(&self) -> usize
        ensures { result ≡ count_of self.now }
    {
        match self {
            Gamma::Even(count, _) => *count,
            Gamma::Listed(_, _, places) => places.len(),
        }
    }

    // That of two places.
    fn at(&self, i: usize, j: usize) -> Corr6
        requires row { i < count_of self.now }
        requires column { j < count_of self.now }
        requires small { unsigned_abs (table_at self.now i j) ≤ 1000000 }
        ensures value { result.0 ≡ table_at self.now i j }
        ensures size { unsigned_abs result.0 ≤ 1000000 }
    {
        match self {
            Gamma::Even(_, gamma) => *gamma,
            Gamma::Listed(params, class, places) => {
                class.gamma(params, places[i], places[j]).in_millionths()
            }
        }
    }
}

/// How a table counts.
#[derive(Drop)]
pub enum Scaling<'a> {
    /// As it is: delta and vega outside interest rates.
    Plain,
    /// Squared: curvature.
    Squared,
    /// Times the ratio of the concentration factors of these buckets: delta and vega of
    /// interest rates.
    Concentrated(Ratios<'a>),
}

impl Scaling<'_> {
    // The correlation of two places, by that of the table.
    fn scale(&self, gamma: Corr6, i: usize, j: usize) -> Corr6
        requires row { IsInside self.now i }
        requires column { IsInside self.now j }
        requires small { unsigned_abs gamma.0 ≤ 1000000 }
        ensures { result.0 ≡ scaled_by self.now gamma.0 i j }
    {
        match self {
            Scaling::Plain => gamma,
            Scaling::Squared => combine(gamma, gamma),
            Scaling::Concentrated(ratios) => combine(gamma, ratios.between(i, j)),
        }
    }
}

/// Those of all buckets.
#[derive(Drop)]
pub struct GammaTable<'a> {
    /// The table.
    pub gamma: Gamma<'a>,
    /// How it counts.
    pub scaling: Scaling<'a>,
    ghost small: { (i j : ℕ) → i < count_of gamma → j < count_of gamma
        → unsigned_abs (table_at gamma i j) ≤ 1000000 },
    ghost sized: { room_of scaling (count_of gamma) ≡ count_of gamma },
    ghost symmetric: { (i j : ℕ) → i < count_of gamma → j < count_of gamma
        → corr_at scaling gamma i j ≡ corr_at scaling gamma j i },
    ghost at_most_one: { (i j : ℕ) → i < count_of gamma → j < count_of gamma
        → unsigned_abs (corr_at scaling gamma i j) ≤ 1000000 },
}

impl Correlation for GammaTable<'_> {
    ghost size = { λ x. count_of x.gamma };

    ghost corr = { λ x. corr_at x.scaling x.gamma };

    ghost symmetric = { λ x. x.symmetric };

    ghost at_most_one = { λ x. x.at_most_one };

    ghost one_with_itself = { λ x i _. with_itself-one (across_at x.scaling x.gamma) i };

    fn size(&self) -> usize {
        self.gamma.count()
    }

    fn corr(&self, i: usize, j: usize) -> Corr6 {
        if i == j {
            return Corr6::ONE;
        }
        let gamma = self.gamma.at(i, j);
        self.scaling.scale(gamma, i, j)
    }
}
