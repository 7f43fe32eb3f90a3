//! The parameters of add-ons that stood before.
ghost use Rattle.std.specs.Prelude.{◌≡◌, ◌++◌, ◌∷◌, [], ℕ, List};
ghost use Rattle.std.specs.Prelude.{not, true, IfOk, IsTrue, if◌then◌else◌};
ghost use Rattle.std.specs.BTreeSet.{contains};
ghost use Rattle.crif_records.specs.SimmKinds.Order.{name_cmp, same_name};
ghost use Rattle.crif_records.specs.SimmKinds.declared.row.CrifRow.{CrifRow};
ghost use Rattle.crif_reader.specs.Repeated.{is_repeated};
ghost use Rattle.crif_reader.specs.Noted.{has_multiplier, with_multiplier, IsNoted};

use crif_records::simm_kinds::{CrifRow, Name, ProductClass};
use std::alloc::{AllocError, Global};
use std::collections::BTreeSet;

/// Which product classes have a multiplier.
#[derive(Clone, Copy)]
struct Multipliers {
    rates_fx: bool,
    credit: bool,
    equity: bool,
    commodity: bool,
}

fn has_multiplier(multipliers: Multipliers, product: ProductClass) -> bool
    ensures { result ≡ has_multiplier multipliers product }
{
    match product {
        ProductClass::RatesFX => multipliers.rates_fx,
        ProductClass::Credit => multipliers.credit,
        ProductClass::Equity => multipliers.equity,
        ProductClass::Commodity => multipliers.commodity,
    }
}

fn with_multiplier(multipliers: Multipliers, product: ProductClass) -> Multipliers
    ensures { result ≡ with_multiplier multipliers product }
{
    let mut multipliers = multipliers;
    match product {
        ProductClass::RatesFX => multipliers.rates_fx = true,
        ProductClass::Credit => multipliers.credit = true,
        ProductClass::Equity => multipliers.equity = true,
        ProductClass::Commodity => multipliers.commodity = true,
    }
    multipliers
}

/// The parameters so far of which there is one at most: factors by their qualifier, multipliers by
/// their product class.
#[derive(Drop)]
pub struct Params {
    factors: BTreeSet<Name>,
    multipliers: Multipliers,
}

impl Params {
    /// No parameter. It takes no memory.
    pub fn new(alloc: Global) -> Params
        ensures { IsNoted result [] }
    {
        Params {
            factors: BTreeSet::new(alloc),
            multipliers: Multipliers {
                rates_fx: false,
                credit: false,
                equity: false,
                commodity: false,
            },
        }
    }

    /// Notes a row, and answers whether it repeats no parameter that stood before.
    pub fn note(&mut self, alloc: Global, added: &CrifRow) -> Result<bool, AllocError>
        ensures once { (before : List CrifRow) → IsNoted self.old before
            → IfOk result (λ once. once ≡ not (is_repeated before added.now)) }
        ensures noted { (before : List CrifRow) → IsNoted self.old before
            → IfOk result (λ once. IsTrue once → IsNoted self.new (before ++ added.now ∷ [])) }
    {
        match added {
            CrifRow::Sensitivity { .. } | CrifRow::Notional { .. } | CrifRow::FixedAmount(_) => Ok(
                true,
            ),
            CrifRow::NotionalFactor { qualifier, .. } => self.note_factor(alloc, qualifier.name()),
            CrifRow::Multiplier { product, .. } => Ok(self.note_multiplier(*product)),
        }
    }

    fn note_factor(&mut self, alloc: Global, qualifier: &Name) -> Result<bool, AllocError>
        ensures multipliers { self.new.multipliers ≡ self.old.multipliers }
        ensures once { IfOk result (λ once.
            once ≡ not (contains name_cmp self.old.factors qualifier.now)) }
        ensures noted { IfOk result (λ once. (name : List ℕ)
            → contains name_cmp self.new.factors name ≡ (if same_name qualifier.now name then true
            else contains name_cmp self.old.factors name)) }
    {
        let name = qualifier.copy(alloc)?;
        Ok(self.factors.insert(name)?)
    }

    fn note_multiplier(&mut self, product: ProductClass) -> bool
        ensures factors { self.new.factors ≡ self.old.factors }
        ensures once { result ≡ not (has_multiplier self.old.multipliers product) }
        ensures noted { self.new.multipliers ≡ with_multiplier self.old.multipliers product }
    {
        let once = !has_multiplier(self.multipliers, product);
        self.multipliers = with_multiplier(self.multipliers, product);
        once
    }
}
