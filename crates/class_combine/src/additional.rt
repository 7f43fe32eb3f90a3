ghost use Rattle.std.specs.Prelude.{◌≡◌, List};
ghost use Rattle.simm_params.specs.SimmKinds.declared.row.CrifRow.{CrifRow as Row};
ghost use Rattle.simm_params.specs.SimmRules.AddOns.{fixed_amounts, notional_add_on};
ghost use Rattle.class_combine.specs.Multipliers.{multiplied_in, AreProductMargins};
ghost use Rattle.class_combine.specs.Sums.{AreOfBook, StandFor};
ghost use Rattle.class_combine.specs.Whole.{AreAddOns};

use crate::multipliers::multiplied_margins;
use crate::notional::notional_add_on;
use crate::sums::AddOnSums;
use simm_params::mh_units::Cents;
use simm_params::simm_kinds::CrifRow;
use simm_params::simm_rules::ByProduct;

/// The additional margins of a book.
#[derive(Clone, Copy)]
pub struct AddOns {
    /// Of fixed amounts.
    pub fixed: Cents,
    /// Of notional factors.
    pub notional: Cents,
    /// Of product class multipliers.
    pub multiplier: Cents,
}

/// The additional margins of a book whose product classes have these margins: by the sums of its
/// rows, and by its parameters, the rows of the trade without a name, which has all factors of
/// notionals and all multipliers. It takes no memory, and costs the parameters, each the logarithm
/// of the number of qualifiers.
pub fn add_ons(sums: &AddOnSums, parameters: &[CrifRow], margins: &ByProduct<Cents>) -> AddOns
    requires book { AreOfBook sums.now parameters.now }
    requires margins { AreProductMargins margins.now }
    ensures fixed { (held : List Row) → StandFor sums.now parameters.now held
        → result.fixed.0 ≡ fixed_amounts held }
    ensures notional { (held : List Row) → StandFor sums.now parameters.now held
        → result.notional.0 ≡ notional_add_on held }
    ensures multiplier { (held : List Row) → StandFor sums.now parameters.now held
        → result.multiplier.0 ≡ multiplied_in held margins.now }
    ensures range { AreAddOns result }
{
    AddOns {
        fixed: sums.fixed(),
        notional: notional_add_on(sums, parameters),
        multiplier: multiplied_margins(parameters, margins),
    }
}
