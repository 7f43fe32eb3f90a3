//! The message of each word, from the fields behind it.
ghost use Rattle.std.specs.Prelude.{◌≡◌};
ghost use Rattle.feed_reader.specs.Fields.{fields_left, Gives};
ghost use Rattle.feed_reader.specs.Messages.{opening, withdrawal, on_side, by_word};

use crate::fields::Fields;
use crate::message::{BlockKind, Meaning, Message};
use crate::sides::read_side;
use crate::unread::Unread;
use crate::words::{SideWord, Word};
use std::alloc::Global;

#[tactic(auto, unfolding(crate::specs::Messages::opening))]
fn read_opening(alloc: Global, kind: BlockKind, fields: &mut Fields<'_>) -> Result<Meaning, Unread>
    ensures { Gives (λ meaning. meaning) result (opening kind (fields_left fields.old)) }
{
    let set = fields.name(alloc)?;
    fields.end()?;
    Ok(Meaning::Opens { kind, set })
}

#[tactic(auto, unfolding(crate::specs::Messages::withdrawal))]
fn read_withdraw(alloc: Global, fields: &mut Fields<'_>) -> Result<Meaning, Unread>
    ensures { Gives (λ meaning. meaning) result (withdrawal (fields_left fields.old)) }
{
    let set = fields.name(alloc)?;
    let names = fields.names(alloc)?;
    let message = Message::Withdraw { set, names };
    Ok(Meaning::Tells { message })
}

#[tactic(auto, unfolding(crate::specs::Messages::on_side))]
fn read_on_side(alloc: Global, word: SideWord, fields: &mut Fields<'_>) -> Result<Meaning, Unread>
    ensures { Gives (λ meaning. meaning) result (on_side word (fields_left fields.old)) }
{
    let set = fields.name(alloc)?;
    let event = read_side(alloc, word, fields)?;
    let side = fields.side()?;
    let message = Message::OnSide { set, side, event };
    Ok(Meaning::Tells { message })
}

/// The message of a word, from the fields behind it.
pub(crate) fn read_by_word(
    alloc: Global,
    word: Word,
    fields: &mut Fields<'_>,
) -> Result<Meaning, Unread>
    ensures { Gives (λ meaning. meaning) result (by_word word (fields_left fields.old)) }
{
    match word {
        Word::Crif => read_opening(alloc, BlockKind::Crif, fields),
        Word::Tables => read_opening(alloc, BlockKind::Tables, fields),
        Word::Withdraw => read_withdraw(alloc, fields),
        Word::Side(word) => read_on_side(alloc, word, fields),
    }
}
