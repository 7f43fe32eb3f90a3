//! Where a file's header has a column.
ghost use Rattle.std.specs.Prelude.{◌≡◌};
ghost use Rattle.crif_records.specs.Columns.{is_named, place_named};
ghost use Rattle.crif_records.specs.Reading.{newest};

use crate::records::Records;

/// Whether a field of the header is the column's name, in any case, without spaces and underscores.
fn is_named(name: &str, field: &[u8]) -> bool
    ensures { result ≡ is_named name.now field.now }
{
    let mut rest = name.as_bytes();
    for byte in field {
        if *byte == b' ' || *byte == b'_' {
            continue;
        }
        let [first, others @ ..] = rest else {
            return false;
        };
        if !byte.eq_ignore_ascii_case(first) {
            return false;
        }
        rest = others;
    }
    rest.is_empty()
}

/// The first place in the header, the newest record, with the column's name.
pub fn place_named(header: &Records, name: &str) -> Option<usize>
    ensures { result ≡ place_named (newest header.now) name.now }
{
    for place in 0..header.field_count() {
        let field = header.field(place)?;
        if is_named(name, field) {
            return Some(place);
        }
    }
    None
}
