//! The values that single fields are.
ghost use Rattle.std.specs.Prelude.{◌≡◌, ◌≤◌, ◌^◌, unsigned_abs, IfSome};
ghost use Rattle.feed_reader.specs.Values.{amount, number, lot_currency, margin_side};

use crate::words::is_word;
use mh_io::mh_units::read_cents;
use side_events::csa_terms::LotCurrency;
use side_events::csa_terms::simm_kinds::MarginSide;

/// The cents of a numeral, at most 10^15 in size; `None` of another text. It takes no memory.
pub fn cents_in(field: &[u8]) -> Option<i64>
    ensures value { result ≡ amount field.now }
    ensures size { IfSome result (λ cents. unsigned_abs cents ≤ 10 ^ 15) }
{
    match read_cents(field) {
        Ok(cents) => Some(cents.0 as i64),
        Err(_) => None,
    }
}

/// A number from 1 to 4,294,967,295 in decimal, without a sign or a leading zero; `None` of
/// another text. It takes no memory.
pub fn number_in(field: &[u8]) -> Option<u32>
    ensures { result ≡ number field.now }
{
    let [b'1'..=b'9', ..] = field else {
        return None;
    };
    match std::str::from_utf8(field) {
        Ok(text) => text.parse().ok(),
        Err(_) => None,
    }
}

/// Whether a lot is in the agreement's currency.
pub(crate) fn currency_in(field: &[u8]) -> Option<LotCurrency>
    ensures { result ≡ lot_currency field.now }
{
    if is_word(field, "same") {
        Some(LotCurrency::Same)
    } else if is_word(field, "other") {
        Some(LotCurrency::Other)
    } else {
        None
    }
}

/// The side of the margin that a field names: what is posted.
pub(crate) fn side_in(field: &[u8]) -> Option<MarginSide>
    ensures { result ≡ margin_side field.now }
{
    if is_word(field, "post") {
        Some(MarginSide::Post)
    } else {
        None
    }
}
