//! The lines of the risk classes of each product class, and of the product classes.
ghost use Rattle.std.specs.Prelude.{◌≡◌, ◌++◌, List, OnOk};
ghost use Rattle.std.specs.List.{flat_map};
ghost use Rattle.measured_bucket.specs.SimmKinds.declared.row.TradeRows.{TradeRows};
ghost use Rattle.measured_bucket.specs.SimmRules.Parts.{class_part, product_part};
ghost use Rattle.measured_bucket.specs.SimmRules.Simm.{classes};
ghost use Rattle.bucket_cache.specs.Figures.{AreFigures};
ghost use Rattle.explain_text.specs.Classes.{has_side, has_class, has_product};
ghost use Rattle.explain_text.specs.Classes.{class_lines, product_lines};
ghost use Rattle.explain_text.specs.Explained.{values_of, margins_of, products_lines};

use crate::side_lines::push_side;
use breakdown_text::{push_class_margin, push_product_margin};
use bucket_cache::factor_book::{BookSide, Factors};
use bucket_cache::{BatchFigures, measure_margins};
use measured_bucket::mh_units::Text;
use measured_bucket::simm_kinds::{ProductClass, RiskClass};
use measured_bucket::simm_params::Params;
use std::alloc::{AllocError, Global};

/// Adds the lines of all product classes that have a sensitivity.
pub(crate) fn push_products(
    text: &mut Text,
    alloc: Global,
    params: &Params,
    figures: &BatchFigures,
) -> Result<(), AllocError>
    requires { (trades : List TradeRows) × AreFigures params.now trades figures.now }
    ensures { OnOk result (text.new ≡ text.old
        ++ products_lines params.now (values_of params.now figures.now.factors)
        (margins_of params.now figures.now.factors) figures.now.factors figures.now.margin) }
{
    for product in &ProductClass::ALL {
        push_product(text, alloc, params, figures, *product)?;
    }
    Ok(())
}

// Adds those of a product class, where it has one.
#[tactic(auto, unfolding(crate::specs::Classes::product_lines))]
fn push_product(
    text: &mut Text,
    alloc: Global,
    params: &Params,
    figures: &BatchFigures,
    product: ProductClass,
) -> Result<(), AllocError>
    requires { (trades : List TradeRows) × AreFigures params.now trades figures.now }
    ensures { OnOk result (text.new ≡ text.old
        ++ product_lines params.now (values_of params.now figures.now.factors)
        (margins_of params.now figures.now.factors) figures.now.factors product
        (product_part figures.now.margin product)) }
{
    if !has_product(&figures.factors, product) {
        return Ok(());
    }
    push_classes(text, alloc, params, figures, product)?;
    push_product_margin(text, product, figures.margin.product(product).margin.0)?;
    Ok(())
}

// Adds those of its risk classes.
fn push_classes(
    text: &mut Text,
    alloc: Global,
    params: &Params,
    figures: &BatchFigures,
    product: ProductClass,
) -> Result<(), AllocError>
    requires { (trades : List TradeRows) × AreFigures params.now trades figures.now }
    ensures { OnOk result (text.new ≡ text.old
        ++ flat_map (λ class. class_lines params.now (values_of params.now figures.now.factors)
        (margins_of params.now figures.now.factors) figures.now.factors
        product class (class_part (product_part figures.now.margin product) class).0) classes) }
{
    for class in &RiskClass::ALL {
        push_class(text, alloc, params, figures, product, *class)?;
    }
    Ok(())
}

// Adds those of a risk class, where it has a sensitivity.
fn push_class(
    text: &mut Text,
    alloc: Global,
    params: &Params,
    figures: &BatchFigures,
    product: ProductClass,
    class: RiskClass,
) -> Result<(), AllocError>
    requires { (trades : List TradeRows) × AreFigures params.now trades figures.now }
    ensures { OnOk result (text.new ≡ text.old
        ++ class_lines params.now (values_of params.now figures.now.factors)
        (margins_of params.now figures.now.factors) figures.now.factors product class
        (class_part (product_part figures.now.margin product) class).0) }
{
    let factors = &figures.factors;
    let kept = &figures.kept;
    if !has_class(factors, product, class) {
        return Ok(());
    }
    let margins = measure_margins(alloc, params, factors, kept, product, class)?;
    let (delta, volatility) = (BookSide::Delta, BookSide::Volatility);
    push_side(
        text, alloc, params, factors, kept, product, class, delta, margins,
    )?;
    push_side(
        text, alloc, params, factors, kept, product, class, volatility, margins,
    )?;
    let margin = figures.margin.product(product).class(class);
    push_class_margin(text, product, class, margin.0)?;
    Ok(())
}

// Whether a side has a factor.
fn has_side(factors: &Factors, product: ProductClass, class: RiskClass, side: BookSide) -> bool
    ensures { result ≡ has_side factors.now product class side }
{
    factors.side(product, class, side).next().is_some()
}

// Whether a class has one.
fn has_class(factors: &Factors, product: ProductClass, class: RiskClass) -> bool
    ensures { result ≡ has_class factors.now product class }
{
    has_side(factors, product, class, BookSide::Delta)
        || has_side(factors, product, class, BookSide::Volatility)
}

// Whether a product class has one.
fn has_product(factors: &Factors, product: ProductClass) -> bool
    ensures { result ≡ has_product factors.now product }
{
    for class in &RiskClass::ALL {
        if has_class(factors, product, *class) {
            return true;
        }
    }
    false
}
