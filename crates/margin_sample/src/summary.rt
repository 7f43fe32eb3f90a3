//! The text of a sample.
ghost use Rattle.std.specs.Prelude.{◌≡◌, ℕ, List, ◌++◌, IfOk, OnOk};
ghost use Rattle.simm_rules.specs.declared.values.Breakdown.{Breakdown};
ghost use Rattle.feed_gate.specs.SetCore.Set.{Set};
ghost use Rattle.margin_sample.specs.Sample.{IsAsked, asked_text, AreSummed, head_text};

use crate::plan::SamplePlan;
use breakdown_text::margin_lines;
use fault_text::{push_field, push_last_number, push_number};
use feed_gate::set_core::side_events::SideEvent;
use feed_gate::set_core::{Event, Reply, SetState, SharedMargin};
use mh_units::Text;
use simm_kinds::MarginSide;
use std::alloc::{AllocError, Global};
use std::collections::VecDeque;

/// Asks a set the margin that it collects, in the name of the first caller. The only error is want
/// of memory: a journal of feeds of a sample has room.
fn ask(set: &mut SetState) -> Result<SharedMargin, AllocError>
    ensures { IfOk result (λ margin. IsAsked set.old set.new margin) }
{
    let question = Event::OnSide {
        side: MarginSide::Collect,
        event: SideEvent::AskMargin,
    };
    let reply = set.apply(0, question);
    set.facts();
    match reply {
        Ok(Reply::Margin(margin)) => Ok(margin),
        _ => Err(AllocError),
    }
}

/// Adds the name of a set, the number of its entries, and its margin.
fn push_set(
    text: &mut Text,
    alloc: Global,
    set: &SetState,
    margin: &SharedMargin,
) -> Result<(), AllocError>
    ensures { OnOk result (text.new ≡ text.old ++ asked_text set.now margin.now) }
{
    push_field(text, b"SET")?;
    push_field(text, set.name().bytes())?;
    push_last_number(text, set.entries())?;
    let lines = margin_lines(alloc, margin.parts())?;
    text.extend(lines.as_slice())
}

/// Asks a set its margin once more, and adds its text.
fn push_asked(text: &mut Text, alloc: Global, set: SetState) -> Result<(), AllocError>
    ensures { OnOk result
        ((s : Set) × (b : Breakdown) × IsAsked set s b × (text.new ≡ text.old ++ asked_text s b)) }
{
    let mut set = set;
    let margin = ask(&mut set)?;
    push_set(text, alloc, &set, &margin)?;
    Ok(())
}

/// Adds the text of sets, each of which is asked its margin once more.
fn push_sets(text: &mut Text, alloc: Global, sets: Vec<SetState>) -> Result<(), AllocError>
    ensures { OnOk result
        ((added : List ℕ) × AreSummed sets.items added × (text.new ≡ text.old ++ added)) }
{
    let mut waiting = VecDeque::from_vec(sets);
    while let Some(set) = waiting.pop_front() {
        push_asked(text, alloc, set)?;
    }
    Ok(())
}

/// The text of a sample, whose feeds were run on these sets.
pub(crate) fn summary(
    alloc: Global,
    plan: SamplePlan,
    sets: Vec<SetState>,
) -> Result<Text, AllocError>
    ensures { IfOk result (λ text. (added : List ℕ) × AreSummed sets.items added
        × (text ≡ head_text plan.feeds plan.seed ++ added)) }
{
    let mut text = Text::new(alloc);
    push_field(&mut text, b"SAMPLE")?;
    push_number(&mut text, plan.feeds)?;
    push_last_number(&mut text, plan.seed)?;
    push_sets(&mut text, alloc, sets)?;
    Ok(text)
}
