//! The fields of a record that is to be written.
ghost use Rattle.std.specs.Prelude.{◌≡◌, ◌++◌, ◌∷◌, [], decimal, OnOk};
ghost use Rattle.csv.specs.Records.{fields_of, partial_of};
ghost use Rattle.crif_reader.specs.MhUnits.Money.{money_text};
ghost use Rattle.crif_writer.specs.Amounts.{rate_text};
ghost use Rattle.crif_writer.specs.Parts.{pair_text};

use crate::rate::push_rate4;
use crif_reader::mh_units::{Cents, Rate4, Text, push_cents};
use crif_reader::simm_kinds::CurrencyPair;
use csv::ByteRecord;
use itoa::Buffer;
use std::alloc::{AllocError, Global};
use std::marker::Model;

/// The fields of a record, added one after another. Contracts see their list.
#[derive(Drop)]
pub struct Fields {
    row: ByteRecord,
    // A field that is put together of parts, kept for its room.
    text: Text,
}

impl Model for Fields {
    ghost use Rattle.std.specs.Prelude.{◌≡◌, ℕ, List, []};
    ghost use Rattle.csv.specs.Records.{fields_of, partial_of};

    ghost Value = { List (List ℕ) };

    ghost view = { λ f. fields_of f.row };

    ghost invariant = { λ f. partial_of f.row ≡ [] };
}

// Adds a field. For want of memory no field is left.
fn add(row: &mut ByteRecord, field: &[u8]) -> Result<(), AllocError>
    requires { partial_of row.old ≡ [] }
    ensures fields { OnOk result (fields_of row.new ≡ fields_of row.old ++ field.now ∷ []) }
    ensures partial { partial_of row.new ≡ [] }
{
    if row.push_field(field).is_err() {
        row.clear();
        return Err(AllocError);
    }
    Ok(())
}

impl Fields {
    /// No fields. It takes no memory.
    pub fn new(alloc: Global) -> Self
        ensures { result ≡ [] }
    {
        Fields {
            row: ByteRecord::new(alloc),
            text: Text::new(alloc),
        }
    }

    /// Takes all fields out and keeps their room. It takes no memory.
    pub fn clear(&mut self)
        ensures { self.new ≡ [] }
    {
        self.row.clear();
    }

    /// Lends the fields as csv's record.
    pub fn record(&self) -> &ByteRecord
        ensures { fields_of result.now ≡ self.now }
    {
        &self.row
    }

    /// Adds a field. The only error is want of memory, and no field may be left then.
    pub fn push(&mut self, field: &[u8]) -> Result<(), AllocError>
        ensures { OnOk result (self.new ≡ self.old ++ field.now ∷ []) }
    {
        add(&mut self.row, field)
    }

    /// Adds an empty field. The only error is want of memory, and no field may be left then.
    pub fn push_empty(&mut self) -> Result<(), AllocError>
        ensures { OnOk result (self.new ≡ self.old ++ [] ∷ []) }
    {
        self.push(&[])
    }

    /// Adds a number in decimal. The only error is want of memory, and no field may be left then.
    pub fn push_number(&mut self, number: u8) -> Result<(), AllocError>
        ensures { OnOk result (self.new ≡ self.old ++ decimal number ∷ []) }
    {
        let mut digits = Buffer::new();
        self.push(digits.format(number).as_bytes())
    }

    /// Adds the six letters of a pair. The only error is want of memory, and no field may be
    /// left then.
    pub fn push_pair(&mut self, pair: CurrencyPair) -> Result<(), AllocError>
        ensures { OnOk result (self.new ≡ self.old ++ pair_text pair ∷ []) }
    {
        self.text.clear();
        self.text.extend(pair.first().letters())?;
        self.text.extend(pair.second().letters())?;
        add(&mut self.row, self.text.as_slice())
    }

    /// Adds an amount of money. The only error is want of memory, and no field may be left then.
    pub fn push_cents(&mut self, amount: Cents) -> Result<(), AllocError>
        ensures { OnOk result (self.new ≡ self.old ++ money_text amount.0 ∷ []) }
    {
        self.text.clear();
        push_cents(&mut self.text, amount)?;
        add(&mut self.row, self.text.as_slice())
    }

    /// Adds a rate. The only error is want of memory, and no field may be left then.
    pub fn push_rate4(&mut self, rate: Rate4) -> Result<(), AllocError>
        ensures { OnOk result (self.new ≡ self.old ++ rate_text rate.0 ∷ []) }
    {
        self.text.clear();
        push_rate4(&mut self.text, rate)?;
        add(&mut self.row, self.text.as_slice())
    }
}
