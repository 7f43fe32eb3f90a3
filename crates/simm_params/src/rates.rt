ghost use Rattle.std.specs.Prelude.{◌≡◌, ◌<◌, [], ◌∷◌, ◌++◌};
ghost use Rattle.std.specs.Prelude.{length, pos, slice_index_or, IfOk, OnOk, OnErr};
ghost use Rattle.std.specs.Int.{int_min};
ghost use Rattle.std.specs.List.{fold};
ghost use Rattle.simm_rules.specs.Lookups.{at_place};

use simm_rules::mh_units::Rate4;
use std::alloc::{AllocError, Global};
use std::marker::Model;

/// Rates in the order of the file, which contracts see as the list of their ten-thousandths.
#[derive(Drop)]
pub struct Rates {
    rates: Vec<Rate4>,
}

impl Model for Rates {
    ghost use Rattle.std.specs.Prelude.{List, ℤ};
    ghost use Rattle.simm_params.specs.RateUnits.{ten_thousandths};

    ghost Value = { List ℤ };

    ghost view = { λ r. ten_thousandths r.rates.items };
}

impl Rates {
    /// No rate, with room for `count`. The only error is want of memory.
    pub fn with_capacity(alloc: Global, count: usize) -> Result<Rates, AllocError>
        ensures { IfOk result (λ r. r ≡ []) }
    {
        Ok(Rates {
            rates: Vec::with_capacity(alloc, count)?,
        })
    }

    /// Adds a rate at the end. The only error is want of memory, and then nothing changes.
    pub fn push(&mut self, rate: Rate4) -> Result<(), AllocError>
        ensures ok { OnOk result (self.new ≡ self.old ++ rate.0 ∷ []) }
        ensures err { OnErr result (self.new ≡ self.old) }
    {
        self.rates.push(rate)?;
        Ok(())
    }

    /// How many rates there are.
    pub fn len(&self) -> usize
        ensures { result ≡ length self.now }
    {
        self.rates.len()
    }

    /// The rate at a place, counted from 0.
    pub fn at(&self, index: usize) -> Rate4
        requires { index < length self.now }
        ensures { result.0 ≡ slice_index_or self.now index (pos 0) }
    {
        self.rates[index]
    }

    /// The rate at a place, counted from 0, or 0 where there is no such place.
    pub fn rate(&self, index: usize) -> Rate4
        ensures { result.0 ≡ at_place self.now index }
    {
        match self.rates.get(index) {
            Some(rate) => *rate,
            None => Rate4(0),
        }
    }

    /// The least of a rate and all of these.
    pub fn least_with(&self, rate: Rate4) -> Rate4
        ensures { result.0 ≡ fold int_min rate.0 self.now }
    {
        let mut least = rate;
        for rate in &self.rates {
            least = lesser(least, *rate);
        }
        least
    }
}

fn lesser(a: Rate4, b: Rate4) -> Rate4
    ensures { result.0 ≡ int_min a.0 b.0 }
{
    if b.0 < a.0 { b } else { a }
}
