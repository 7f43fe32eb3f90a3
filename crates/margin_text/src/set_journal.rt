ghost use Rattle.std.specs.Prelude.{◌≡◌, ◌++◌, OnOk, IfOk};
ghost use Rattle.margin_text.specs.Journal.{numbered_lines, journal_text};

use crate::entry_lines::push_entry;
use fault_text::{push_field, push_last_number};
use feed_gate::set_core::SetState;
use mh_units::Text;
use simm_kinds::Name;
use std::alloc::{AllocError, Global};

/// Adds all entries of a set's journal.
fn push_entries(text: &mut Text, set: &SetState) -> Result<(), AllocError>
    ensures { OnOk result (text.new ≡ text.old ++ numbered_lines 1 set.now.journal) }
{
    set.facts();
    for index in 0..set.entries() {
        if let Some(entry) = set.entry(index + 1) {
            push_entry(text, index + 1, entry)?;
        }
    }
    Ok(())
}

/// Adds the printed journal of a netting set: its name and how many entries it has, then each
/// entry with its number from 1, its caller, event and reply. Under an entry stand the trades and
/// rows of a submit, or the parts of a margin.
///
/// # Errors
///
/// For want of memory alone.
pub fn push_journal(text: &mut Text, set: &SetState, name: &Name) -> Result<(), AllocError>
    ensures { OnOk result (text.new ≡ text.old ++ journal_text name.now set.now.journal) }
{
    push_field(text, b"SET")?;
    push_field(text, name.bytes())?;
    push_last_number(text, set.entries())?;
    push_entries(text, set)
}

/// The printed journal of a netting set, as `push_journal` adds it.
///
/// # Errors
///
/// For want of memory alone.
pub fn journal_text(alloc: Global, set: &SetState, name: &Name) -> Result<Text, AllocError>
    ensures { IfOk result (λ text. text ≡ journal_text name.now set.now.journal) }
{
    let mut text = Text::new(alloc);
    push_journal(&mut text, set, name)?;
    Ok(text)
}
