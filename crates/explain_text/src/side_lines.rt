//! The lines of one side of a risk class: its places, and the margins of its measures.
ghost use Rattle.std.specs.Prelude.{◌≡◌, ◌++◌, OnOk};
ghost use Rattle.std.specs.List.{flat_map};
ghost use Rattle.bucket_cache.specs.BookMargin.BookRange.Bounded.{IsMarginable};
ghost use Rattle.bucket_cache.specs.BookMargin.Measures.{measure_in};
ghost use Rattle.bucket_cache.specs.FactorBook.Places.{by_side};
ghost use Rattle.bucket_cache.specs.KeptBuckets.Kept.{cached_in};
ghost use Rattle.explain_text.specs.Lines.{measure_line};
ghost use Rattle.explain_text.specs.Sides.{place_lines, margin_line, side_lines};

use crate::measure_fields::push_measure_fields;
use crate::place_lines::push_place;
use crate::sides::{first_measure, has_measure, second_measure};
use breakdown_text::fault_text::push_last_amount;
use bucket_cache::MeasureMargins;
use bucket_cache::factor_book::{BookSide, Factors};
use bucket_cache::kept_buckets::KeptBuckets;
use class_margin::places_can_be_measured;
use measured_bucket::mh_units::Text;
use measured_bucket::simm_kinds::{Measure, ProductClass, RiskClass};
use measured_bucket::simm_params::Params;
use std::alloc::{AllocError, Global};

/// Adds the lines of a side of a book that can be margined, whose measures have these margins.
pub(crate) fn push_side(
    text: &mut Text,
    alloc: Global,
    params: &Params,
    factors: &Factors,
    kept: &KeptBuckets,
    product: ProductClass,
    class: RiskClass,
    side: BookSide,
    margins: MeasureMargins,
) -> Result<(), AllocError>
    requires { IsMarginable params.now factors.now }
    ensures { OnOk result (text.new ≡ text.old ++ side_lines params.now (cached_in kept.now)
        (λ m. (measure_in margins m).0) factors.now product class side) }
{
    push_places(text, alloc, params, factors, kept, product, class, side)?;
    push_margin(
        text,
        factors,
        kept,
        product,
        class,
        side,
        first_measure(side),
        margins,
    )?;
    push_margin(
        text,
        factors,
        kept,
        product,
        class,
        side,
        second_measure(side),
        margins,
    )?;
    Ok(())
}

// Adds the lines of its places.
fn push_places(
    text: &mut Text,
    alloc: Global,
    params: &Params,
    factors: &Factors,
    kept: &KeptBuckets,
    product: ProductClass,
    class: RiskClass,
    side: BookSide,
) -> Result<(), AllocError>
    requires { IsMarginable params.now factors.now }
    ensures { OnOk result (text.new ≡ text.old ++ flat_map
        (place_lines params.now (cached_in kept.now)) (by_side product class side factors.now)) }
{
    places_can_be_measured(params);
    for (_, lent) in factors.side(product, class, side) {
        push_place(text, alloc, params, kept, lent)?;
    }
    Ok(())
}

// Adds the margin of a measure, where a place has it.
fn push_margin(
    text: &mut Text,
    factors: &Factors,
    kept: &KeptBuckets,
    product: ProductClass,
    class: RiskClass,
    side: BookSide,
    measure: Measure,
    margins: MeasureMargins,
) -> Result<(), AllocError>
    ensures { OnOk result (text.new ≡ text.old
        ++ margin_line (cached_in kept.now) (λ m. (measure_in margins m).0) product class
        (by_side product class side factors.now) measure) }
{
    if !has_measure(factors, kept, product, class, side, measure) {
        return Ok(());
    }
    push_measure_line(text, product, class, measure, margins.of(measure).0)
}

// Adds the line of a measure with this margin.
fn push_measure_line(
    text: &mut Text,
    product: ProductClass,
    class: RiskClass,
    measure: Measure,
    cents: i128,
) -> Result<(), AllocError>
    ensures { OnOk result (text.new ≡ text.old ++ measure_line product class measure cents) }
{
    push_measure_fields(text, b"MEASURE", measure, product, class)?;
    push_last_amount(text, cents)
}
