//! The lines of a what-if.
ghost use Rattle.std.specs.Prelude.{◌≡◌, ◌++◌, IfOk, OnOk};
ghost use Rattle.margin_whatif.specs.Lines.{margin_after, margins_text};
ghost use Rattle.margin_whatif.specs.Lines.{without_line, without_lines};

use breakdown_text::fault_text::{push_field, push_last_amount};
use breakdown_text::{push_margin_parts, push_total};
use std::alloc::{AllocError, Global};
use whatif::WhatIf;
use whatif::bucket_cache::simm_rules::Breakdown;
use whatif::bucket_cache::simm_rules::mh_units::{Cents, Text};
use whatif::bucket_cache::simm_rules::simm_kinds::Name;

/// The lines of both margins. Want of memory is the only error.
pub(crate) fn margins_text(alloc: Global, margins: &WhatIf) -> Result<Text, AllocError>
    ensures { IfOk result (λ text. text ≡ margins_text margins.now.before margins.now.after) }
{
    let mut text = Text::new(alloc);
    push_margin(&mut text, b"BEFORE\n", &margins.before)?;
    push_margin(&mut text, b"AFTER\n", &margins.after)?;
    Ok(text)
}

// Adds the line of a word, and the lines of a margin.
fn push_margin(text: &mut Text, word: &[u8], margin: &Breakdown) -> Result<(), AllocError>
    ensures { OnOk result (text.new ≡ text.old ++ margin_after word.now margin.now) }
{
    text.extend(word)?;
    push_total(text, margin.total.0)?;
    push_margin_parts(text, margin)
}

/// Adds for each name the line of its total.
pub(crate) fn push_totals(
    text: &mut Text,
    names: &[Name],
    totals: &[Cents],
) -> Result<(), AllocError>
    ensures { OnOk result (text.new ≡ text.old ++ without_lines names.now totals.now) }
{
    for (name, total) in names.iter().zip(totals) {
        push_without(text, name, *total)?;
    }
    Ok(())
}

// Adds the line of a total without a trade.
fn push_without(text: &mut Text, name: &Name, total: Cents) -> Result<(), AllocError>
    ensures { OnOk result (text.new ≡ text.old ++ without_line name.now total.0) }
{
    push_field(text, b"WITHOUT")?;
    push_field(text, name.bytes())?;
    push_last_amount(text, total.0)
}
