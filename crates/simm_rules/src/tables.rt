//! Tables with one value for each risk class, and for each product class.
ghost use Rattle.std.specs.Prelude.{◌≡◌, ◌&&◌, if◌then◌else◌};
ghost use Rattle.simm_kinds.specs.declared.kinds.ProductClass.{ProductClass as Product};
ghost use Rattle.simm_kinds.specs.declared.kinds.RiskClass.{RiskClass as Class};
ghost use Rattle.simm_kinds.specs.Order.{same_class, same_product};
ghost use Rattle.simm_rules.specs.Tables.{class_at, product_at, part_at};

use simm_kinds::{ProductClass, RiskClass};

/// A value for each risk class.
#[derive(Clone, Copy)]
pub struct ByClass<T> {
    /// That of interest rates.
    pub ir: T,
    /// That of credit that qualifies.
    pub credit_q: T,
    /// That of credit that does not qualify.
    pub credit_nonq: T,
    /// That of equity.
    pub equity: T,
    /// That of commodities.
    pub commodity: T,
    /// That of foreign exchange.
    pub fx: T,
}

impl<T: Copy> ByClass<T> {
    /// The same value for each class.
    pub fn each(value: T) -> ByClass<T>
        ensures { (class : Class) → class_at result class ≡ value }
    {
        ByClass {
            ir: value,
            credit_q: value,
            credit_nonq: value,
            equity: value,
            commodity: value,
            fx: value,
        }
    }

    /// Lends that of a class.
    pub fn of(&self, class: RiskClass) -> &T
        ensures { result.now ≡ class_at self.now class }
    {
        match class {
            RiskClass::IR => &self.ir,
            RiskClass::CreditQ => &self.credit_q,
            RiskClass::CreditNonQ => &self.credit_nonq,
            RiskClass::Equity => &self.equity,
            RiskClass::Commodity => &self.commodity,
            RiskClass::FX => &self.fx,
        }
    }

    /// Puts another for a class.
    pub fn set(&mut self, class: RiskClass, value: T)
        ensures { (other : Class) → class_at self.new other
            ≡ (if same_class class other then value else class_at self.old other) }
    {
        match class {
            RiskClass::IR => self.ir = value,
            RiskClass::CreditQ => self.credit_q = value,
            RiskClass::CreditNonQ => self.credit_nonq = value,
            RiskClass::Equity => self.equity = value,
            RiskClass::Commodity => self.commodity = value,
            RiskClass::FX => self.fx = value,
        }
    }
}

/// A value for each product class.
#[derive(Clone, Copy)]
pub struct ByProduct<T> {
    /// That of rates and foreign exchange.
    pub rates_fx: T,
    /// That of credit.
    pub credit: T,
    /// That of equity.
    pub equity: T,
    /// That of commodities.
    pub commodity: T,
}

impl<T: Copy> ByProduct<T> {
    /// The same value for each product class.
    pub fn each(value: T) -> ByProduct<T>
        ensures { (product : Product) → product_at result product ≡ value }
    {
        ByProduct {
            rates_fx: value,
            credit: value,
            equity: value,
            commodity: value,
        }
    }

    /// Lends that of a product class.
    pub fn of(&self, product: ProductClass) -> &T
        ensures { result.now ≡ product_at self.now product }
    {
        match product {
            ProductClass::RatesFX => &self.rates_fx,
            ProductClass::Credit => &self.credit,
            ProductClass::Equity => &self.equity,
            ProductClass::Commodity => &self.commodity,
        }
    }

    /// Puts another for a product class.
    pub fn set(&mut self, product: ProductClass, value: T)
        ensures { (other : Product) → product_at self.new other
            ≡ (if same_product product other then value else product_at self.old other) }
    {
        match product {
            ProductClass::RatesFX => self.rates_fx = value,
            ProductClass::Credit => self.credit = value,
            ProductClass::Equity => self.equity = value,
            ProductClass::Commodity => self.commodity = value,
        }
    }
}

impl<T: Copy> ByProduct<ByClass<T>> {
    /// Lends that of a risk class in a product class.
    pub fn part(&self, product: ProductClass, class: RiskClass) -> &T
        ensures { result.now ≡ part_at self.now product class }
    {
        self.of(product).of(class)
    }

    /// Puts another for a risk class in a product class.
    pub fn set_part(&mut self, product: ProductClass, class: RiskClass, value: T)
        ensures { (in_product : Product) (other : Class) → part_at self.new in_product other
            ≡ (if same_product product in_product && same_class class other then value
            else part_at self.old in_product other) }
    {
        let mut classes = *self.of(product);
        classes.set(class, value);
        self.set(product, classes);
    }
}
