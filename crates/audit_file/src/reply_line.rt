//! The line of a reply, behind its mark.
ghost use Rattle.std.specs.Prelude.{◌≡◌, ◌++◌, flat_map, codes, IfOk, OnOk};
ghost use Rattle.audit_file.specs.Replies.{class_amounts, all_class_amounts, product_amounts};
ghost use Rattle.audit_file.specs.Replies.{sum_amounts, margin_amounts, amount_field, told_reply};

use feed_events::set_core::bucket_cache::simm_rules::{Breakdown, ByClass};
use feed_events::set_core::{Reply, push_reply};
use mh_io::mh_units::{Cents, Text, push_cents};
use std::alloc::{AllocError, Global};

/// Adds an amount behind another field.
fn push_amount(text: &mut Text, amount: Cents) -> Result<(), AllocError>
    ensures { OnOk result (text.new ≡ text.old ++ amount_field amount) }
{
    text.push(b'\t')?;
    push_cents(text, amount)
}

fn push_classes(text: &mut Text, classes: &ByClass<Cents>) -> Result<(), AllocError>
    ensures { OnOk result (text.new ≡ text.old ++ flat_map amount_field
        (class_amounts classes.now)) }
{
    push_amount(text, classes.ir)?;
    push_amount(text, classes.credit_q)?;
    push_amount(text, classes.credit_nonq)?;
    push_amount(text, classes.equity)?;
    push_amount(text, classes.commodity)?;
    push_amount(text, classes.fx)
}

fn push_all_classes(text: &mut Text, margin: &Breakdown) -> Result<(), AllocError>
    ensures { OnOk result (text.new ≡ text.old ++ flat_map amount_field
        (all_class_amounts margin.now)) }
{
    push_classes(text, &margin.products.rates_fx.classes)?;
    push_classes(text, &margin.products.credit.classes)?;
    push_classes(text, &margin.products.equity.classes)?;
    push_classes(text, &margin.products.commodity.classes)
}

fn push_products(text: &mut Text, margin: &Breakdown) -> Result<(), AllocError>
    ensures { OnOk result (text.new ≡ text.old ++ flat_map amount_field
        (product_amounts margin.now)) }
{
    push_amount(text, margin.products.rates_fx.margin)?;
    push_amount(text, margin.products.credit.margin)?;
    push_amount(text, margin.products.equity.margin)?;
    push_amount(text, margin.products.commodity.margin)
}

fn push_sums(text: &mut Text, margin: &Breakdown) -> Result<(), AllocError>
    ensures { OnOk result (text.new ≡ text.old ++ flat_map amount_field (sum_amounts margin.now)) }
{
    push_amount(text, margin.fixed)?;
    push_amount(text, margin.notional)?;
    push_amount(text, margin.multiplier)?;
    push_amount(text, margin.total)
}

/// Adds the 32 amounts of a margin.
fn push_margin(text: &mut Text, margin: &Breakdown) -> Result<(), AllocError>
    ensures { OnOk result (text.new ≡ text.old ++
        (codes "MARGIN" ++ flat_map amount_field (margin_amounts margin.now))) }
{
    text.extend(b"MARGIN")?;
    push_all_classes(text, margin)?;
    push_products(text, margin)?;
    push_sums(text, margin)
}

/// Adds the text of a reply, of a margin with all of its parts. The only error is want of memory.
pub(crate) fn push_told(text: &mut Text, reply: &Reply) -> Result<(), AllocError>
    ensures { OnOk result (text.new ≡ text.old ++ told_reply reply.now) }
{
    match reply {
        Reply::Margin(margin) => push_margin(text, margin.parts()),
        Reply::Accepted | Reply::Refused(_) | Reply::Called(_) | Reply::NoCall { .. } => {
            push_reply(text, reply)
        }
    }
}

/// The text of a reply, of a margin with all of its parts. The only error is want of memory.
pub(crate) fn told_text(alloc: Global, reply: &Reply) -> Result<Text, AllocError>
    ensures { IfOk result (λ text. text ≡ told_reply reply.now) }
{
    let mut text = Text::new(alloc);
    push_told(&mut text, reply)?;
    Ok(text)
}
