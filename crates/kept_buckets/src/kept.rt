ghost use Rattle.std.specs.Prelude.{◌≡◌, ◌^◌, ◌<◌, [], ◌∷◌, ◌&&◌, length};
ghost use Rattle.std.specs.Prelude.{None, Some, IfOk, OnOk, OnErr, if◌then◌else◌};
ghost use Rattle.std.specs.BTreeMap.{IsUnchanged, Updates};
ghost use Rattle.std.specs.Option.{option_copied};
ghost use Rattle.factor_book.specs.SimmKinds.declared.kinds.ProductClass.{ProductClass as Product};
ghost use Rattle.factor_book.specs.SimmKinds.declared.kinds.RiskClass.{RiskClass as Class};
ghost use Rattle.factor_book.specs.SimmKinds.Order.{same_class, same_product};
ghost use Rattle.factor_book.specs.declared.place.Place.{Place as Where};
ghost use Rattle.factor_book.specs.Place.{same_place, stand_class};
ghost use Rattle.kept_buckets.specs.Kept.{value_at, margin_at, cached_in};
ghost use Rattle.kept_buckets.specs.Kept.{AreOfPlaces, KeepsValue, KeepsMargin};
ghost use Rattle.kept_buckets.specs.Touched.{Forgets};
ghost use Rattle.kept_buckets.specs.Dirty.{dirty_in, dirty_at};

use crate::both_margins::BothMargins;
use factor_book::simm_kinds::{CrifRow, Measure, ProductClass, RiskClass};
use factor_book::simm_rules::{BucketMargin, ByClass, ByProduct};
use factor_book::{Address, Factors, Place, PlaceValue, measures_of};
use std::alloc::{AllocError, Global};
use std::collections::BTreeMap;
use std::marker::Model;

/// What is kept of a book: of each place its value or nothing, and of each risk class in a product
/// class its margin or nothing. Finding a place costs the logarithm of the number of places that
/// are kept.
#[derive(Drop)]
pub struct KeptBuckets {
    values: BTreeMap<Address, PlaceValue>,
    margins: ByProduct<ByClass<Option<BothMargins>>>,
}

impl Model for KeptBuckets {
    ghost use Rattle.kept_buckets.specs.Kept.{AreOfPlaces, Kept};

    ghost Value = { Kept };

    ghost view = { λ k. record { values = k.values.entries; margins = k.margins } };

    ghost invariant = { λ k. AreOfPlaces k.values.entries };
}

impl KeptBuckets {
    /// Nothing is kept. It takes no memory.
    pub fn new(alloc: Global) -> Self
        ensures empty { result.values ≡ [] }
        ensures values { (place : Where) → value_at result place ≡ None }
        ensures margins { (product : Product) (class : Class)
            → margin_at result product class ≡ None }
    {
        KeptBuckets {
            values: BTreeMap::new(alloc),
            margins: ByProduct::each(ByClass::each(None)),
        }
    }

    /// Does nothing: what is always so of what is kept.
    pub fn facts(&self)
        ensures { AreOfPlaces self.now.values }
    {
        let _values = &self.values;
    }

    /// The same is kept once more. It costs the places that are kept. The only error is want
    /// of memory.
    pub fn copy(&self) -> Result<KeptBuckets, AllocError>
        ensures { IfOk result (λ copy. copy ≡ self.now) }
    {
        Ok(KeptBuckets {
            values: self.values.clone()?,
            margins: self.margins,
        })
    }

    /// What is kept of a place. It takes no memory.
    pub fn get(&self, place: &Place) -> Option<&PlaceValue>
        ensures { option_copied result ≡ value_at self.now place.now }
    {
        self.values.get(&place.address())
    }

    /// The margins kept of a class. It takes no memory.
    pub fn margin(&self, product: ProductClass, class: RiskClass) -> Option<BothMargins>
        ensures { result ≡ margin_at self.now product class }
    {
        *self.margins.part(product, class)
    }

    /// Keeps the value of a place. For want of memory, the only error, nothing changes.
    pub fn keep(&mut self, place: &Place, value: &PlaceValue) -> Result<(), AllocError>
        ensures ok { OnOk result (KeepsValue self.old self.new place.now value.now) }
        ensures err { OnErr result (self.new ≡ self.old) }
    {
        put(&mut self.values, &place.address(), value)?;
        Ok(())
    }

    /// Keeps the margins of a class. It takes no memory.
    pub fn keep_margin(&mut self, product: ProductClass, class: RiskClass, margin: BothMargins)
        ensures { KeepsMargin self.old self.new product class margin }
    {
        self.margins.set_part(product, class, Some(margin));
    }

    /// Forgets, for each row that is a sensitivity, what is kept of its place and the margin of
    /// its class. It takes no memory.
    pub fn touch(&mut self, rows: &[CrifRow])
        ensures { Forgets rows.now self.old self.new }
    {
        for row in rows {
            self.touch_row(row);
        }
    }

    /// How many values of places that have a factor in the book are not kept; vega and curvature
    /// of a bucket count two. The book has fewer than 2^31 factors. It takes no memory.
    pub fn dirty_count(&self, factors: &Factors) -> u32
        requires { length factors.now < 2 ^ 31 }
        ensures { result ≡ dirty_in self.now factors.now }
    {
        let mut count = 0;
        for lent in factors.places() {
            count += self.dirty_at(&lent.place());
        }
        count
    }

    /// What is kept of a place in a measure; nothing in one that it does not have. It takes
    /// no memory.
    pub fn cached(&self, place: &Place, measure: Measure) -> Option<BucketMargin>
        ensures { result ≡ cached_in self.now place.now measure }
    {
        self.get(place)?.part(measure)
    }

    // How many values of a place are not kept.
    fn dirty_at(&self, place: &Place) -> u32
        ensures { result ≡ dirty_at self.now place.now }
    {
        match self.get(place) {
            Some(_) => 0,
            None => measures_of(place.stand),
        }
    }

    // Forgets what a row touches.
    fn touch_row(&mut self, row: &CrifRow)
        ensures { Forgets (row.now ∷ []) self.old self.new }
    {
        match row {
            CrifRow::Sensitivity { key, .. } => self.forget(&Place::of(key)),
            CrifRow::Notional { .. }
            | CrifRow::FixedAmount(_)
            | CrifRow::NotionalFactor { .. }
            | CrifRow::Multiplier { .. } => {}
        }
    }

    // Forgets what is kept of a place, and the margin of its class.
    fn forget(&mut self, place: &Place)
        ensures values { (other : Where) → value_at self.new other
            ≡ (if same_place place.now other then None else value_at self.old other) }
        ensures margins { (product : Product) (class : Class) → margin_at self.new product class
            ≡ (if same_product place.now.product product
            && same_class (stand_class place.now.stand) class
            then None else margin_at self.old product class) }
    {
        self.values.remove(&place.address());
        self.margins
            .set_part(place.product, place.stand.class(), None);
    }
}

// Puts a copy of a value under a copy of its key, in place of any that was. For want of memory
// nothing changes.
fn put<K: Ord + Copy, V: Copy>(
    entries: &mut BTreeMap<K, V>,
    key: &K,
    value: &V,
) -> Result<(), AllocError>
    ensures ok { OnOk result (Updates K.cmp entries.old entries.new key.now (Some value.now)) }
    ensures err { OnErr result (IsUnchanged entries.old entries.new) }
{
    entries.insert(*key, *value)?;
    Ok(())
}
