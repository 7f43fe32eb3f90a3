ghost use Rattle.std.specs.Prelude.{◌≡◌, ◌∷◌, ◌++◌, List, [], length, true, IfOk, OnOk, OnErr};
ghost use Rattle.std.specs.List.{list_all};
ghost use Rattle.simm_params.specs.SimmKinds.declared.row.CrifRow.{CrifRow as Row};
ghost use Rattle.simm_params.specs.SimmKinds.Batch.{is_in_range};
ghost use Rattle.class_combine.specs.Sums.{sums_of, HasRoom, AreHeld, Holds};

use crate::notionals::Notionals;
use simm_params::mh_units::Cents;
use simm_params::simm_kinds::CrifRow;
use std::alloc::{AllocError, Global};

/// What the add-ons of a book need of the rows that it holds: the sum of their fixed amounts, and
/// for each qualifier the sum of the sizes of its notionals. They are those of the rows whatever
/// their order. A row costs the logarithm of the number of qualifiers, and nothing where it is
/// neither a fixed amount nor a notional.
#[derive(Drop)]
pub struct AddOnSums {
    fixed: Cents,
    notionals: Notionals,
}

impl AddOnSums {
    /// The sums of no rows. It takes no memory.
    pub fn new(alloc: Global) -> Self
        ensures { result ≡ sums_of [] }
    {
        AddOnSums {
            fixed: Cents(0),
            notionals: Notionals::new(alloc),
        }
    }

    /// Equal sums, of the same rows. It costs the qualifiers, each of which is copied. The only
    /// error is want of memory.
    pub fn copy(&self, alloc: Global) -> Result<AddOnSums, AllocError>
        ensures { IfOk result (λ copy. copy ≡ self.now) }
    {
        Ok(AddOnSums {
            fixed: self.fixed,
            notionals: self.notionals.copy(alloc)?,
        })
    }

    /// Adds rows, whose amounts are those that a batch can have; fewer than 2^32 rows are held
    /// afterwards. A qualifier is copied where it is new. For want of memory nothing changes.
    pub fn add_rows(&mut self, alloc: Global, rows: &[CrifRow]) -> Result<(), AllocError>
        requires room { HasRoom self.old (length rows.now) }
        requires amounts { list_all is_in_range rows.now ≡ true }
        ensures ok { (held : List Row) → self.old ≡ sums_of held
            → OnOk result (self.new ≡ sums_of (held ++ rows.now)) }
        ensures err { OnErr result (self.new ≡ self.old) }
    {
        for (index, row) in rows.iter().enumerate() {
            if let Err(fault) = self.add_row(alloc, row) {
                self.take_each(&rows[..index]);
                return Err(fault);
            }
        }
        Ok(())
    }

    /// Takes rows that are held. A qualifier goes with its last notional. It takes no memory.
    pub fn take_rows(&mut self, rows: &[CrifRow])
        requires { AreHeld rows.now self.old }
        ensures { (before after : List Row) → self.old ≡ sums_of (before ++ rows.now ++ after)
            → self.new ≡ sums_of (before ++ after) }
    {
        self.take_each(rows);
    }

    /// The sum of the fixed amounts, in cents.
    pub(crate) fn fixed(&self) -> Cents
        ensures { result ≡ self.now.fixed }
    {
        self.fixed
    }

    /// The notionals by qualifier.
    pub(crate) fn notionals(&self) -> &Notionals
        ensures { result.now ≡ self.now.notionals }
    {
        &self.notionals
    }

    /// Takes rows that are held.
    fn take_each(&mut self, rows: &[CrifRow])
        requires { Holds rows.now self.old }
        ensures { (rest : List Row) → self.old ≡ sums_of (rows.now ++ rest)
            → self.new ≡ sums_of rest }
    {
        for row in rows {
            self.take_row(row);
        }
    }

    /// Adds a row. For want of memory nothing changes.
    fn add_row(&mut self, alloc: Global, row: &CrifRow) -> Result<(), AllocError>
        requires room { HasRoom self.old 1 }
        requires amount { is_in_range row.now ≡ true }
        ensures ok { (held : List Row) → self.old ≡ sums_of held
            → OnOk result (self.new ≡ sums_of (row.now ∷ held)) }
        ensures err { OnErr result (self.new ≡ self.old) }
    {
        match row {
            CrifRow::FixedAmount(amount) => {
                self.fixed = Cents(self.fixed.0 + amount.0);
                Ok(())
            }
            CrifRow::Notional { qualifier, amount } => {
                self.notionals.add(alloc, qualifier, *amount)
            }
            CrifRow::Sensitivity { .. }
            | CrifRow::NotionalFactor { .. }
            | CrifRow::Multiplier { .. } => Ok(()),
        }
    }

    /// Takes a row that is held.
    fn take_row(&mut self, row: &CrifRow)
        requires { Holds (row.now ∷ []) self.old }
        ensures { (rest : List Row) → self.old ≡ sums_of (row.now ∷ rest)
            → self.new ≡ sums_of rest }
    {
        match row {
            CrifRow::FixedAmount(amount) => self.fixed = Cents(self.fixed.0 - amount.0),
            CrifRow::Notional { qualifier, amount } => self.notionals.take(qualifier, *amount),
            CrifRow::Sensitivity { .. }
            | CrifRow::NotionalFactor { .. }
            | CrifRow::Multiplier { .. } => {}
        }
    }
}
