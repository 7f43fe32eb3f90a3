//! What the rows of a book come to, kept as rows come and go.
ghost use Rattle.std.specs.Prelude.{◌≡◌, ◌++◌, List, [], IfOk, OnOk, OnErr};
ghost use Rattle.book_margin.specs.SimmKinds.declared.row.CrifRow.{CrifRow as Row};
ghost use Rattle.book_margin.specs.SimmRules.Params.{Params as Rules};

use crate::lent::LentRows;
use book_margin::book_range::GrossSizes;
use book_margin::class_combine::AddOnSums;
use book_margin::factor_book::Factors;
use book_margin::simm_kinds::CrifRow;
use book_margin::simm_params::Params;
use std::alloc::{AllocError, Global};

/// What the range and the margin of a book are worked out from: how many rows it has, their
/// factors, their gross sizes and the sums of their add-ons. A row that comes or goes costs the
/// logarithm of the number of keys.
#[derive(Drop)]
pub struct Sums {
    /// How many rows there are.
    pub rows: usize,
    /// Their factors.
    pub factors: Factors,
    /// Their gross sizes.
    pub sizes: GrossSizes,
    /// The sums of their add-ons.
    pub add_ons: AddOnSums,
}

impl Sums {
    ghost use Rattle.bucket_cache.specs.Lent.{all_rows};
    ghost use Rattle.bucket_cache.specs.Sums.{book_sums, HasRoom, AreHeld, Holds};

    /// The sums of no rows. It takes no memory.
    pub fn new(alloc: Global) -> Sums
        ensures { (p : Rules) → result ≡ book_sums p [] }
    {
        let factors = Factors::new(alloc);
        let sizes = GrossSizes::new();
        let add_ons = AddOnSums::new(alloc);
        Sums {
            rows: 0,
            factors,
            sizes,
            add_ons,
        }
    }

    /// Equal sums, of the same rows. It costs the keys. The only error is want of memory.
    pub fn copy(&self, alloc: Global) -> Result<Sums, AllocError>
        ensures { IfOk result (λ copy. copy ≡ self.now) }
    {
        Ok(Sums {
            rows: self.rows,
            factors: self.factors.copy(alloc)?,
            sizes: self.sizes,
            add_ons: self.add_ons.copy(alloc)?,
        })
    }

    /// Adds the rows of some trades. For want of memory nothing changes.
    pub fn add_lent(
        &mut self,
        alloc: Global,
        params: &Params,
        lent: &[LentRows],
    ) -> Result<(), AllocError>
        requires { HasRoom params.now self.old (all_rows lent.now) }
        ensures ok { (held : List Row) → self.old ≡ book_sums params.now held
            → OnOk result (self.new ≡ book_sums params.now (held ++ all_rows lent.now)) }
        ensures err { OnErr result (self.new ≡ self.old) }
    {
        for (index, trade) in lent.iter().enumerate() {
            if let Err(fault) = self.add_rows(alloc, params, trade.rows) {
                self.take_lent(params, &lent[..index]);
                return Err(fault);
            }
        }
        Ok(())
    }

    /// Takes the rows of some trades, which are held. It takes no memory.
    pub fn take_lent(&mut self, params: &Params, lent: &[LentRows])
        requires { Holds params.now self.old (all_rows lent.now) }
        ensures { (rest : List Row) → self.old ≡ book_sums params.now (rest ++ all_rows lent.now)
            → self.new ≡ book_sums params.now rest }
    {
        for trade in lent {
            self.take_rows(params, trade.rows);
        }
    }

    // Adds rows. For want of memory nothing changes.
    fn add_rows(
        &mut self,
        alloc: Global,
        params: &Params,
        rows: &[CrifRow],
    ) -> Result<(), AllocError>
        requires { HasRoom params.now self.old rows.now }
        ensures ok { (held : List Row) → self.old ≡ book_sums params.now held
            → OnOk result (self.new ≡ book_sums params.now (held ++ rows.now)) }
        ensures err { OnErr result (self.new ≡ self.old) }
    {
        self.factors.add_rows(alloc, rows)?;
        if let Err(fault) = self.add_ons.add_rows(alloc, rows) {
            self.factors.take_rows(rows);
            return Err(fault);
        }
        self.sizes.add_rows(params, rows);
        self.rows += rows.len();
        Ok(())
    }

    // Takes rows that are held.
    fn take_rows(&mut self, params: &Params, rows: &[CrifRow])
        requires { AreHeld params.now self.old rows.now }
        ensures { (before after : List Row)
            → self.old ≡ book_sums params.now (before ++ rows.now ++ after)
            → self.new ≡ book_sums params.now (before ++ after) }
    {
        self.factors.take_rows(rows);
        self.add_ons.take_rows(rows);
        self.sizes.take_rows(params, rows);
        self.rows -= rows.len();
    }
}
