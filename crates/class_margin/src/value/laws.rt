//! Which places can be measured.
ghost use Rattle.std.specs.Prelude.{◌≢◌, List, []};
ghost use Rattle.class_rates.specs.SimmKinds.declared.key.FactorKey.{FactorKey};
ghost use Rattle.class_rates.specs.FactorBook.declared.holding.Holding.{Holding};
ghost use Rattle.class_rates.specs.FactorBook.declared.place.Place.{Place};
ghost use Rattle.class_rates.specs.FactorBook.Places.{factors_at, lent_at};
ghost use Rattle.book_range.specs.Bounded.{IsMarginable};
ghost use Rattle.class_margin.specs.value.Place.{IsMeasurable};

use class_rates::factor_book::factors_are_netted;
use class_rates::simm_params::Params;

/// The factors of each place that has some in a book that can be margined can be measured. It
/// does nothing.
pub fn places_can_be_measured(params: &Params)
    ensures { (factors : List (FactorKey × Holding)) (place : Place)
        → IsMarginable params.now factors
        → factors_at place factors ≢ [] → IsMeasurable params.now (lent_at factors place) }
{
    params.facts();
    params.rate_facts();
    factors_are_netted();
}
