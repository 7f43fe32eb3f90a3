ghost use Rattle.std.specs.Prelude.{◌≡◌, ◌*◌, ◌^◌, ◌≤◌, pos, ◌≤ℤ◌, unsigned_abs};
ghost use Rattle.simm_params.specs.SimmRules.Simm.{classes as each_class, joined};
ghost use Rattle.simm_params.specs.SimmRules.Sums.{total_by, total_by_pairs};
ghost use Rattle.simm_params.specs.SimmRules.Tables.{class_at};
ghost use Rattle.class_combine.specs.Classes.{class_pair, AreClassMargins};

use simm_params::Params;
use simm_params::mh_units::{Cents, div_up, least_root};
use simm_params::simm_kinds::RiskClass;
use simm_params::simm_rules::ByClass;

/// The margin of a product class that has these margins of its risk classes: the root of all
/// ordered pairs of them, each by the correlation of the two classes, upwards to the cent.
pub fn product_margin(params: &Params, classes: &ByClass<Cents>) -> Cents
    requires { AreClassMargins classes.now }
    ensures value { result.0 ≡ joined params.now (λ class. (class_at classes.now class).0) }
    ensures low { pos 0 ≤ℤ result.0 }
    ensures size { result.0 ≤ℤ pos (12 * 10 ^ 16) }
{
    let square = div_up(pairs(params, classes), 10_000);
    if square <= 0 {
        Cents(0)
    } else {
        Cents(least_root(square as u128) as i128)
    }
}

// All ordered pairs of classes, in cents squared times 10^4.
fn pairs(params: &Params, classes: &ByClass<Cents>) -> i128
    requires { AreClassMargins classes.now }
    ensures value { result ≡ total_by_pairs (class_pair params.now classes.now) each_class }
    ensures size { unsigned_abs result ≤ 10000 * (12 * 10 ^ 16 * (12 * 10 ^ 16)) }
{
    pairs_with(params, classes, RiskClass::IR)
        + pairs_with(params, classes, RiskClass::CreditQ)
        + pairs_with(params, classes, RiskClass::CreditNonQ)
        + pairs_with(params, classes, RiskClass::Equity)
        + pairs_with(params, classes, RiskClass::Commodity)
        + pairs_with(params, classes, RiskClass::FX)
}

// A class and each class, in cents squared times 10^4. A class without margin adds nothing.
fn pairs_with(params: &Params, classes: &ByClass<Cents>, class: RiskClass) -> i128
    requires { AreClassMargins classes.now }
    ensures value { result ≡ total_by (class_pair params.now classes.now class) each_class }
    ensures size { unsigned_abs result ≤ 6 * (10000 * (2 * 10 ^ 16 * (2 * 10 ^ 16))) }
{
    if classes.of(class).0 == 0 {
        0
    } else {
        each_pair_with(params, classes, class)
    }
}

// The same, class by class.
fn each_pair_with(params: &Params, classes: &ByClass<Cents>, class: RiskClass) -> i128
    requires { AreClassMargins classes.now }
    ensures value { result ≡ total_by (class_pair params.now classes.now class) each_class }
    ensures size { unsigned_abs result ≤ 6 * (10000 * (2 * 10 ^ 16 * (2 * 10 ^ 16))) }
{
    pair(params, classes, class, RiskClass::IR)
        + pair(params, classes, class, RiskClass::CreditQ)
        + pair(params, classes, class, RiskClass::CreditNonQ)
        + pair(params, classes, class, RiskClass::Equity)
        + pair(params, classes, class, RiskClass::Commodity)
        + pair(params, classes, class, RiskClass::FX)
}

// The product of the margins of two classes and their correlation, in cents squared times 10^4.
fn pair(params: &Params, classes: &ByClass<Cents>, a: RiskClass, b: RiskClass) -> i128
    requires { AreClassMargins classes.now }
    ensures value { result ≡ class_pair params.now classes.now a b }
    ensures size { unsigned_abs result ≤ 10000 * (2 * 10 ^ 16 * (2 * 10 ^ 16)) }
{
    let correlation = params.psi(a, b);
    i128::from(correlation.0) * classes.of(a).0 * classes.of(b).0
}
