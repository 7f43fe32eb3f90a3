//! The lines of a margin by the schedule.
ghost use Rattle.std.specs.Prelude.{◌≡◌, ◌≤◌, ◌++◌, IfOk, OnOk};
ghost use Rattle.std.specs.List.{flat_map};
ghost use Rattle.schedule_im.specs.Classes.{each_class};
ghost use Rattle.margin_schedule.specs.MarginLines.{cost_line, class_line, margin_text};
ghost use Rattle.margin_schedule.specs.Schedule.{MarginPrints};

use command_files::Status;
use fault_text::{push_field, push_last_amount};
use mh_io::{Sink, put_all};
use mh_units::{Cents, Text, push_cents};
use schedule_im::{ClassGross, ScheduleClass, ScheduleMargin};
use std::alloc::{AllocError, Global};

/// Prints a margin with its parts.
pub(crate) fn print_margin<K: Sink>(alloc: Global, out: &mut K, margin: &ScheduleMargin) -> Status
    ensures count { (K.seen out.old).faults ≤ (K.seen out.new).faults }
    ensures printed { MarginPrints margin.now (K.seen out.old) (K.seen out.new) result }
{
    let Ok(text) = margin_lines(alloc, margin) else {
        return Status::Memory;
    };
    match put_all(out, text.as_slice()) {
        Ok(()) => Status::Done,
        Err(_) => Status::Write,
    }
}

/// The lines of a margin: the whole, the gross margin, the cost net and gross, and each class
/// whose gross margin isn't 0. Amounts are in units of money with two digits. The only error is
/// want of memory.
fn margin_lines(alloc: Global, margin: &ScheduleMargin) -> Result<Text, AllocError>
    ensures { IfOk result (λ text. text ≡ margin_text margin.now) }
{
    let mut text = Text::new(alloc);
    push_field(&mut text, b"SCHEDULE")?;
    push_last_amount(&mut text, margin.margin)?;
    push_field(&mut text, b"GROSS")?;
    push_last_amount(&mut text, margin.gross)?;
    push_cost(&mut text, margin.net_cost, margin.gross_cost)?;
    push_classes(&mut text, &margin.classes)?;
    Ok(text)
}

/// Adds the line of the replacement cost.
fn push_cost(text: &mut Text, net: i128, gross: i128) -> Result<(), AllocError>
    ensures { OnOk result (text.new ≡ text.old ++ cost_line net gross) }
{
    push_field(text, b"COST")?;
    push_cents(text, Cents(net))?;
    text.push(b'\t')?;
    push_last_amount(text, gross)
}

/// Adds the lines of the classes.
fn push_classes(text: &mut Text, classes: &ClassGross) -> Result<(), AllocError>
    ensures { OnOk result (text.new ≡ text.old ++ flat_map (class_line classes.now) each_class) }
{
    for class in &ScheduleClass::ALL {
        push_class(text, classes, *class)?;
    }
    Ok(())
}

/// Adds the line of a class, where its gross margin isn't 0.
fn push_class(text: &mut Text, classes: &ClassGross, class: ScheduleClass) -> Result<(), AllocError>
    ensures { OnOk result (text.new ≡ text.old ++ class_line classes.now class) }
{
    let cents = classes.of(class);
    if cents == 0 {
        return Ok(());
    }
    push_field(text, b"CLASS")?;
    push_field(text, class.word().as_bytes())?;
    push_last_amount(text, cents)
}
