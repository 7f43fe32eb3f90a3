ghost use Rattle.std.specs.Prelude.{◌≡◌, ◌++◌, OnOk, IfOk};
ghost use Rattle.std.specs.List.{flat_map};
ghost use Rattle.simm_rules.specs.Parts.{product_part};
ghost use Rattle.simm_rules.specs.Simm.{products, classes};
ghost use Rattle.fault_text.specs.Fields.{field, amount_line};
ghost use Rattle.breakdown_text.specs.Margins.{class_margin_line, class_line};
ghost use Rattle.breakdown_text.specs.Margins.{product_margin_line, product_lines, add_on_lines};
ghost use Rattle.breakdown_text.specs.Margins.{part_lines, total_line, margin_text};

use fault_text::{push_field, push_last_amount};
use mh_units::Text;
use simm_kinds::{ProductClass, RiskClass};
use simm_rules::{Breakdown, ProductMargin};
use std::alloc::{AllocError, Global};

/// Adds the line of an add-on, where it isn't 0.
fn push_add_on(text: &mut Text, word: &[u8], cents: i128) -> Result<(), AllocError>
    ensures { OnOk result (text.new ≡ text.old ++ amount_line (field word.now) cents) }
{
    if cents == 0 {
        return Ok(());
    }
    push_field(text, word)?;
    push_last_amount(text, cents)
}

/// Adds the line of a class, where its margin isn't 0.
fn push_class(
    text: &mut Text,
    product: ProductClass,
    class: RiskClass,
    part: &ProductMargin,
) -> Result<(), AllocError>
    ensures { OnOk result (text.new ≡ text.old ++ class_line product part.now class) }
{
    let cents = part.class(class).0;
    if cents == 0 {
        return Ok(());
    }
    push_class_margin(text, product, class, cents)
}

/// Adds the line of a risk class in a product class with this margin, in cents, also where it is 0.
pub fn push_class_margin(
    text: &mut Text,
    product: ProductClass,
    class: RiskClass,
    cents: i128,
) -> Result<(), AllocError>
    ensures { OnOk result (text.new ≡ text.old ++ class_margin_line product class cents) }
{
    push_field(text, b"CLASS")?;
    push_field(text, product.word().as_bytes())?;
    push_field(text, class.word().as_bytes())?;
    push_last_amount(text, cents)
}

/// Adds the lines of a product's classes.
fn push_classes(
    text: &mut Text,
    product: ProductClass,
    part: &ProductMargin,
) -> Result<(), AllocError>
    ensures { OnOk result (text.new ≡ text.old ++ flat_map (class_line product part.now) classes) }
{
    for class in &RiskClass::ALL {
        push_class(text, product, *class, part)?;
    }
    Ok(())
}

/// Adds the lines of a product, where its margin isn't 0.
fn push_product(
    text: &mut Text,
    product: ProductClass,
    part: &ProductMargin,
) -> Result<(), AllocError>
    ensures { OnOk result (text.new ≡ text.old ++ product_lines product part.now) }
{
    if part.margin.0 == 0 {
        return Ok(());
    }
    push_product_margin(text, product, part.margin.0)?;
    push_classes(text, product, part)
}

/// Adds the line of a product class with this margin, in cents, also where it is 0.
pub fn push_product_margin(
    text: &mut Text,
    product: ProductClass,
    cents: i128,
) -> Result<(), AllocError>
    ensures { OnOk result (text.new ≡ text.old ++ product_margin_line product cents) }
{
    push_field(text, b"PRODUCT")?;
    push_field(text, product.word().as_bytes())?;
    push_last_amount(text, cents)
}

/// Adds the lines of all products.
fn push_products(text: &mut Text, margin: &Breakdown) -> Result<(), AllocError>
    ensures { OnOk result (text.new ≡ text.old ++ flat_map
        (λ product. product_lines product (product_part margin.now product)) products) }
{
    for product in &ProductClass::ALL {
        push_product(text, *product, margin.product(*product))?;
    }
    Ok(())
}

/// Adds the lines of a margin's parts that aren't 0: the products with their risk classes, then
/// the additional margins.
#[tactic(auto, unfolding(crate::specs::Margins::part_lines))]
pub fn push_margin_parts(text: &mut Text, margin: &Breakdown) -> Result<(), AllocError>
    ensures { OnOk result (text.new ≡ text.old ++ part_lines margin.now) }
{
    push_products(text, margin)?;
    push_add_ons(text, margin)?;
    Ok(())
}

/// Adds the lines of the additional margins that aren't 0.
pub fn push_add_ons(text: &mut Text, margin: &Breakdown) -> Result<(), AllocError>
    ensures { OnOk result (text.new ≡ text.old ++ add_on_lines margin.now) }
{
    push_add_on(text, b"FIXED", margin.fixed.0)?;
    push_add_on(text, b"NOTIONAL", margin.notional.0)?;
    push_add_on(text, b"MULTIPLIER", margin.multiplier.0)?;
    Ok(())
}

/// Adds the line of the whole margin, in cents.
pub fn push_total(text: &mut Text, cents: i128) -> Result<(), AllocError>
    ensures { OnOk result (text.new ≡ text.old ++ total_line cents) }
{
    push_field(text, b"MARGIN")?;
    push_last_amount(text, cents)
}

/// The lines of a margin: the whole, and each of its parts that isn't 0: the products with their
/// risk classes, then the add-ons. Amounts are in units of money with two digits.
///
/// # Errors
///
/// For want of memory alone.
pub fn margin_lines(alloc: Global, margin: &Breakdown) -> Result<Text, AllocError>
    ensures { IfOk result (λ text. text ≡ margin_text margin.now) }
{
    let mut text = Text::new(alloc);
    push_total(&mut text, margin.total.0)?;
    push_margin_parts(&mut text, margin)?;
    Ok(text)
}
