//! The fields of a record that are read.
ghost use Rattle.std.specs.Prelude.{◌≡◌, option_map};
ghost use Rattle.crif_records.specs.Reading.{newest, IsReading};
ghost use Rattle.schedule_reader.specs.Fields.{texts, texts_of, are_text, if_text};

use crate::columns::Columns;
use crif_records::{Records, is_utf8, text_at};

/// The fields in the columns that are read, without spaces at their ends. A field that is missing
/// at the end is empty.
#[derive(Clone, Copy)]
pub struct Fields<'a> {
    pub trade_id: &'a [u8],
    pub product_class: &'a [u8],
    pub risk_type: &'a [u8],
    pub amount: &'a [u8],
    pub amount_currency: &'a [u8],
    pub amount_usd: &'a [u8],
    pub im_model: &'a [u8],
    pub end_date: &'a [u8],
}

impl<'a> Fields<'a> {
    /// Lends the fields of the newest record that stand in the columns, where each of them
    /// is UTF-8.
    pub fn read(columns: &Columns, records: &'a Records) -> Option<Fields<'a>>
        requires { IsReading records.now }
        ensures { option_map texts result ≡ if_text (texts_of columns.now (newest records.now)) }
    {
        let texts = Fields::of(columns, records);
        if records.is_ascii() || texts.are_text() {
            Some(texts)
        } else {
            None
        }
    }

    fn of(columns: &Columns, records: &'a Records) -> Fields<'a>
        ensures { texts result ≡ texts_of columns.now (newest records.now) }
    {
        Fields {
            trade_id: text_at(records, columns.trade_id),
            product_class: text_at(records, columns.product_class),
            risk_type: text_at(records, columns.risk_type),
            amount: text_at(records, columns.amount),
            amount_currency: text_at(records, columns.amount_currency),
            amount_usd: text_at(records, columns.amount_usd),
            im_model: text_at(records, columns.im_model),
            end_date: text_at(records, columns.end_date),
        }
    }

    /// Whether each of them is UTF-8.
    fn are_text(&self) -> bool
        ensures { result ≡ are_text (texts self.now) }
    {
        is_utf8(self.trade_id)
            && is_utf8(self.product_class)
            && is_utf8(self.risk_type)
            && is_utf8(self.amount)
            && is_utf8(self.amount_currency)
            && is_utf8(self.amount_usd)
            && is_utf8(self.im_model)
            && is_utf8(self.end_date)
    }
}
