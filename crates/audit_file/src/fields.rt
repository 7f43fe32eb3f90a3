//! The lines of the format beside those of messages.
ghost use Rattle.std.specs.Prelude.{◌≡◌, option_map};
ghost use Rattle.audit_file.specs.Fields.{count_of, behind, header_of, caller_of, reply_of};

use feed_reader::{is_word, number_in};

fn count_in(field: &[u8]) -> Option<u32>
    ensures { result ≡ count_of field.now }
{
    if is_word(field, "0") {
        return Some(0);
    }
    number_in(field)
}

/// What stands behind a front.
fn behind<'a>(front: &[u8], text: &'a [u8]) -> Option<&'a [u8]>
    ensures { option_map (λ rest. rest.now) result ≡ behind front.now text.now }
{
    text.strip_prefix(front)
}

/// The number of entries in the line that begins the set of this name.
#[tactic(auto, unfolding(crate::specs::Fields::header_of))]
pub(crate) fn header_of(name: &[u8], line: &[u8]) -> Option<u32>
    ensures { result ≡ header_of name.now line.now }
{
    let text = behind(b"AUDIT\t", line)?;
    let rest = behind(name, text)?;
    count_in(behind(b"\t", rest)?)
}

/// The caller in the line that begins an entry.
#[tactic(auto, unfolding(crate::specs::Fields::caller_of))]
pub(crate) fn caller_of(line: &[u8]) -> Option<u32>
    ensures { result ≡ caller_of line.now }
{
    let caller = count_in(behind(b"BY\t", line)?)?;
    if caller < 1_024 { Some(caller) } else { None }
}

/// The text of a reply line.
pub(crate) fn reply_of(line: &[u8]) -> Option<&[u8]>
    ensures { option_map (λ text. text.now) result ≡ reply_of line.now }
{
    behind(b"=\t", line)
}
