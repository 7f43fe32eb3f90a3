//! How the factors of a place weigh.
ghost use Rattle.std.specs.Prelude.{◌≡◌, ◌^◌, ◌≤◌, unsigned_abs};
ghost use Rattle.simm_params.specs.SimmKinds.declared.factor.Factor.{Factor};
ghost use Rattle.book_range.specs.Weighing.{delta_weight, volatility_weight, weight_in, weight_at};
ghost use Rattle.book_range.specs.Weighing.{IsLow};

use crate::weight::{
    ONE, credit_volatility, credit_weight, own_weight, price_volatility, price_weight,
};
use factor_book::{Place, Slot, Stand};
use simm_params::Params;
use simm_params::mh_units::Rate4;
use simm_params::simm_kinds::Factor;

/// How the factors of a place weigh, in ten-thousandths: by risk weights, or on the side of
/// volatilities by these, of which those of rates and of credit weigh 1.
#[derive(Clone, Copy)]
pub enum Weighing {
    /// All alike, as their bucket says.
    Alike(Rate4),
    /// Each by its own rate, currency or pair.
    Own,
}

impl Weighing {
    /// How those of a place weigh: their bucket is looked up once.
    pub fn at(params: &Params, place: &Place) -> Weighing
        ensures value { (f : Factor)
            → weight_in params.now result f ≡ weight_at params.now place.now.stand f }
        ensures bound { IsLow result }
    {
        match place.stand {
            Stand::Delta(slot) => Weighing::delta(params, slot),
            Stand::BaseCorrelation => Weighing::Alike(params.base_weight()),
            Stand::Volatility(slot) => Weighing::volatility(params, slot),
        }
    }

    // How those of delta of a bucket weigh.
    fn delta(params: &Params, slot: Slot) -> Weighing
        ensures value { (f : Factor)
            → weight_in params.now result f ≡ delta_weight params.now slot f }
        ensures bound { IsLow result }
    {
        match slot {
            Slot::Rates(_) | Slot::Exchange => Weighing::Own,
            Slot::Credit(class, bucket) => Weighing::Alike(credit_weight(params, class, bucket)),
            Slot::Priced(class, bucket) => Weighing::Alike(price_weight(params, class, bucket)),
        }
    }

    // How its volatilities weigh.
    fn volatility(params: &Params, slot: Slot) -> Weighing
        ensures value { (f : Factor)
            → weight_in params.now result f ≡ volatility_weight params.now slot f }
        ensures bound { IsLow result }
    {
        match slot {
            Slot::Rates(_) => Weighing::Alike(ONE),
            Slot::Credit(class, bucket) => {
                Weighing::Alike(credit_volatility(params, class, bucket))
            }
            Slot::Priced(class, bucket) => Weighing::Alike(price_volatility(params, class, bucket)),
            Slot::Exchange => Weighing::Own,
        }
    }

    /// The weight of a factor of the place.
    pub fn weight(self, params: &Params, factor: &Factor) -> Rate4
        requires { IsLow self }
        ensures value { result.0 ≡ weight_in params.now self factor.now }
        ensures bound { unsigned_abs result.0 ≤ 10 ^ 8 }
    {
        match self {
            Weighing::Alike(weight) => weight,
            Weighing::Own => own_weight(params, factor),
        }
    }
}
