ghost use Rattle.std.specs.Prelude.{◌≡◌, IfOk};
ghost use Rattle.feed_reader.specs.Fields.{fields_left, Gives};
ghost use Rattle.feed_reader.specs.Line.{by_fields, meaning_of};

use crate::fields::Fields;
use crate::message::Meaning;
use crate::messages::read_by_word;
use crate::unread::Unread;
use std::alloc::{AllocError, Global};

#[tactic(auto, unfolding(crate::specs::Line::by_fields))]
fn read_fields(alloc: Global, fields: &mut Fields<'_>) -> Result<Meaning, Unread>
    ensures { Gives (λ meaning. meaning) result (by_fields (fields_left fields.old)) }
{
    let word = fields.word()?;
    read_by_word(alloc, word, fields)
}

/// What a line outside a block is, where it isn't passed over. The only error is want of memory.
#[tactic(auto, unfolding(crate::specs::Line::meaning_of))]
pub fn read_line(alloc: Global, line: &[u8]) -> Result<Meaning, AllocError>
    ensures { IfOk result (λ meaning. meaning ≡ meaning_of line.now) }
{
    let mut fields = Fields::of(line);
    match read_fields(alloc, &mut fields) {
        Ok(meaning) => Ok(meaning),
        Err(Unread::Bad) => Ok(Meaning::Bad),
        Err(Unread::Memory) => Err(AllocError),
    }
}
