ghost use Rattle.std.specs.Prelude.{◌≡◌, ◌≤◌, is_some, IfSome, pos, ◌-ℤ◌, unsigned_abs};
ghost use Rattle.csa_terms.specs.Terms.{IsShare, haircut_of};
ghost use Rattle.collateral_ledger.specs.Booked.{rate_of, currency_haircut};

use csa_terms::mh_units::Rate4;
use csa_terms::simm_kinds::Name;
use csa_terms::{LotCurrency, SetTerms};

/// A rate of 1.
pub const WHOLE: Rate4 = Rate4(10_000);

/// What counts of each dollar of a lot of this class, where the terms have a haircut for it: the
/// whole, less the haircut, and less the FX haircut in another currency. It may be below 0.
pub fn rate_for(terms: &SetTerms, class: &Name, currency: LotCurrency) -> Option<Rate4>
    ensures found { is_some result ≡ is_some (haircut_of terms.now class.now) }
    ensures value { IfSome result (λ rate. rate.0 ≡ rate_of terms.now class.now currency) }
    ensures size { IfSome result (λ rate. unsigned_abs rate.0 ≤ 10000) }
{
    terms.facts();
    let haircut = terms.haircut(class)?;
    Some(rate_after(haircut, terms.fx_haircut(), currency))
}

/// What is left of each dollar less a haircut, and less the FX haircut in another currency.
fn rate_after(haircut: Rate4, fx_haircut: Rate4, currency: LotCurrency) -> Rate4
    requires haircut { IsShare haircut.0 }
    requires fx_haircut { IsShare fx_haircut.0 }
    ensures value { result.0 ≡ pos 10000 -ℤ haircut.0 -ℤ currency_haircut fx_haircut.0 currency }
    ensures size { unsigned_abs result.0 ≤ 10000 }
{
    Rate4(WHOLE.0 - haircut.0 - currency_haircut(fx_haircut, currency))
}

fn currency_haircut(fx_haircut: Rate4, currency: LotCurrency) -> i64
    requires { IsShare fx_haircut.0 }
    ensures value { result ≡ currency_haircut fx_haircut.0 currency }
    ensures share { IsShare result }
{
    match currency {
        LotCurrency::Same => 0,
        LotCurrency::Other => fx_haircut.0,
    }
}
