//! Room for the parts of margins that is there before it is wanted.
ghost use Rattle.std.specs.Prelude.{◌≡◌, ◌+◌, ◌≤◌, OnOk, MatchOption};

use bucket_cache::simm_rules::{Breakdown, ByClass, ByProduct, ProductMargin};
use collateral_ledger::mh_units::Cents;
use std::alloc::{AllocError, Global};
use std::marker::Model;

const NOTHING: Cents = Cents(0);

const NO_PRODUCT: ProductMargin = ProductMargin {
    margin: NOTHING,
    classes: ByClass {
        ir: NOTHING,
        credit_q: NOTHING,
        credit_nonq: NOTHING,
        equity: NOTHING,
        commodity: NOTHING,
        fx: NOTHING,
    },
};

/// What stands in room that no margin has yet.
const BLANK: Breakdown = Breakdown {
    products: ByProduct {
        rates_fx: NO_PRODUCT,
        credit: NO_PRODUCT,
        equity: NO_PRODUCT,
        commodity: NO_PRODUCT,
    },
    fixed: NOTHING,
    notional: NOTHING,
    multiplier: NOTHING,
    total: NOTHING,
};

/// Room for the parts of margins. Contracts see for how many.
#[derive(Drop)]
pub(crate) struct PutBy {
    boxes: Vec<Box<Breakdown, Global>>,
}

impl Model for PutBy {
    ghost use Rattle.std.specs.Prelude.{ℕ, length};

    ghost Value = { ℕ };

    ghost view = { λ room. length room.boxes.items };
}

impl PutBy {
    /// No room. It takes no memory.
    pub fn new(alloc: Global) -> PutBy
        ensures { result ≡ 0 }
    {
        PutBy {
            boxes: Vec::new(alloc),
        }
    }

    /// Makes room for so many at least. For want of memory, the only error, there is no less
    /// than before.
    pub fn grow(&mut self, alloc: Global, count: usize) -> Result<(), AllocError>
        ensures no_less { self.old ≤ self.new }
        ensures enough { OnOk result (count ≤ self.new) }
    {
        let missing = count.saturating_sub(self.boxes.len());
        self.boxes.reserve(missing)?;
        for _ in 0..missing {
            self.boxes.push(Box::new(alloc, BLANK)?)?;
        }
        Ok(())
    }

    /// Puts parts into room that there is; `None` where there is none. It takes no memory.
    pub fn take(&mut self, parts: Breakdown) -> Option<Box<Breakdown, Global>>
        ensures { MatchOption result ((self.old ≡ 0) × (self.new ≡ 0))
            (λ own. (own.value ≡ parts) × (self.new + 1 ≡ self.old)) }
    {
        let mut own = self.boxes.pop()?;
        let _blank = Box::replace(&mut own, parts);
        Some(own)
    }
}
