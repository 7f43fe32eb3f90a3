//! The event of each word that asks for one beside the trades, from the fields behind the set.
ghost use Rattle.std.specs.Prelude.{◌≡◌};
ghost use Rattle.feed_reader.specs.Fields.{fields_left, Gives};
ghost use Rattle.feed_reader.specs.Sides.{putting, taking, marking, closing};
ghost use Rattle.feed_reader.specs.Sides.{question, demand, by_side_word};

use crate::fields::Fields;
use crate::unread::Unread;
use crate::words::SideWord;
use side_events::SideEvent;
use std::alloc::Global;

#[tactic(auto, unfolding(crate::specs::Sides::putting))]
fn read_put(alloc: Global, fields: &mut Fields<'_>) -> Result<SideEvent, Unread>
    ensures { Gives (λ event. (event, fields_left fields.new)) result
        (putting (fields_left fields.old)) }
{
    let lot = fields.name(alloc)?;
    let class = fields.name(alloc)?;
    let value = fields.cents()?;
    let currency = fields.currency()?;
    Ok(SideEvent::PutLot {
        lot,
        class,
        value,
        currency,
    })
}

#[tactic(auto, unfolding(crate::specs::Sides::taking))]
fn read_take(alloc: Global, fields: &mut Fields<'_>) -> Result<SideEvent, Unread>
    ensures { Gives (λ event. (event, fields_left fields.new)) result
        (taking (fields_left fields.old)) }
{
    let lot = fields.name(alloc)?;
    Ok(SideEvent::TakeLot { lot })
}

#[tactic(auto, unfolding(crate::specs::Sides::marking))]
fn read_mark(alloc: Global, fields: &mut Fields<'_>) -> Result<SideEvent, Unread>
    ensures { Gives (λ event. (event, fields_left fields.new)) result
        (marking (fields_left fields.old)) }
{
    let lot = fields.name(alloc)?;
    let value = fields.cents()?;
    Ok(SideEvent::MarkLot { lot, value })
}

#[tactic(auto, unfolding(crate::specs::Sides::closing))]
fn read_close(fields: &mut Fields<'_>) -> Result<SideEvent, Unread>
    ensures { Gives (λ event. (event, fields_left fields.new)) result
        (closing (fields_left fields.old)) }
{
    let number = fields.number()?;
    Ok(SideEvent::CloseCall { number })
}

#[tactic(auto, unfolding(crate::specs::Sides::demand))]
fn read_call(fields: &mut Fields<'_>) -> Result<SideEvent, Unread>
    ensures { Gives (λ event. (event, fields_left fields.new)) result
        (demand (fields_left fields.old)) }
{
    let moment = fields.moment()?;
    Ok(SideEvent::AskCall { moment })
}

/// The event of a word, from the fields behind the set.
#[tactic(auto, unfolding(crate::specs::Sides::question))]
pub(crate) fn read_side(
    alloc: Global,
    word: SideWord,
    fields: &mut Fields<'_>,
) -> Result<SideEvent, Unread>
    ensures { Gives (λ event. (event, fields_left fields.new)) result
        (by_side_word word (fields_left fields.old)) }
{
    match word {
        SideWord::Put => read_put(alloc, fields),
        SideWord::Take => read_take(alloc, fields),
        SideWord::Mark => read_mark(alloc, fields),
        SideWord::Close => read_close(fields),
        SideWord::Ask => Ok(SideEvent::AskMargin),
        SideWord::Call => read_call(fields),
    }
}
