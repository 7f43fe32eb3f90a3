//! The add-on of notional factors.
ghost use Rattle.std.specs.Prelude.{◌≡◌, ◌^◌, List, true, pos, ◌*ℤ◌};
ghost use Rattle.simm_params.specs.MhUnits.Rounding.{up};
ghost use Rattle.simm_params.specs.SimmKinds.declared.row.CrifRow.{CrifRow as Row};
ghost use Rattle.simm_params.specs.SimmKinds.Batch.{is_in_range};
ghost use Rattle.simm_params.specs.SimmRules.AddOns.{notional_add_on};
ghost use Rattle.class_combine.specs.Notionals.{share_in, share_of, size_at};
ghost use Rattle.class_combine.specs.Notionals.{AreSizes, IsFactor, IsNotional};
ghost use Rattle.class_combine.specs.Sums.{AreOfBook, StandFor};
ghost use Rattle.class_combine.specs.Whole.{IsAddOn};

use crate::notionals::Notionals;
use crate::sums::AddOnSums;
use simm_params::mh_units::{Cents, Rate4, div_up};
use simm_params::simm_kinds::{CrifRow, Name};

/// A factor of 100 percent: factors are in percent, in ten-thousandths.
const WHOLE: i128 = 1_000_000;

/// What the factors among the parameters add for the notionals of their qualifiers, in cents, each
/// upwards to the cent.
pub fn notional_add_on(sums: &AddOnSums, parameters: &[CrifRow]) -> Cents
    requires { AreOfBook sums.now parameters.now }
    ensures value { (held : List Row) → StandFor sums.now parameters.now held
        → result.0 ≡ notional_add_on held }
    ensures range { IsAddOn result.0 }
{
    let mut sum = 0;
    for row in parameters {
        sum += share(sums.notionals(), row).0;
    }
    Cents(sum)
}

// What a row adds: a factor for the notionals of its qualifier, and another row nothing.
fn share(notionals: &Notionals, row: &CrifRow) -> Cents
    requires row { is_in_range row.now ≡ true }
    requires notionals { AreSizes notionals.now }
    ensures { result.0 ≡ share_in (size_at notionals.now) row.now }
{
    match row {
        CrifRow::NotionalFactor { qualifier, factor } => {
            share_of(*factor, notionals.size(qualifier.name()))
        }
        CrifRow::Sensitivity { .. }
        | CrifRow::Notional { .. }
        | CrifRow::FixedAmount(_)
        | CrifRow::Multiplier { .. } => Cents(0),
    }
}

/// What a factor of notionals comes to.
#[derive(Clone, Copy)]
pub struct NotionalShare {
    /// The sum of the sizes of the notionals of its qualifier.
    pub size: Cents,
    /// What it adds for them, upwards to the cent.
    pub amount: Cents,
}

/// What a factor, in percent, in ten-thousandths and up to 100 percent, comes to over the
/// notionals of its qualifier, where the sums are those of a book. It takes no memory, and costs
/// the logarithm of the number of qualifiers.
pub fn notional_share(sums: &AddOnSums, qualifier: &Name, factor: Rate4) -> NotionalShare
    requires book { (parameters : List Row) × AreOfBook sums.now parameters }
    requires factor { IsFactor factor.0 }
    ensures size { result.size.0 ≡ size_at sums.now.notionals qualifier.now }
    ensures amount { result.amount.0 ≡ share_of (size_at sums.now.notionals)
        (record { of = qualifier.now; amount = factor.0 }) }
{
    let size = sums.notionals().size(qualifier);
    NotionalShare {
        size: Cents(size),
        amount: share_of(factor, size),
    }
}

// What a factor adds for a notional, upwards to the cent.
fn share_of(factor: Rate4, notional: i128) -> Cents
    requires factor { IsFactor factor.0 }
    requires notional { IsNotional notional }
    ensures { result.0 ≡ up (factor.0 *ℤ notional) (pos (10 ^ 6)) }
{
    let product = i128::from(factor.0) * notional;
    Cents(div_up(product, WHOLE))
}
