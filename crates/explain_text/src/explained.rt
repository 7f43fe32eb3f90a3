//! All lines of an explained margin.
ghost use Rattle.std.specs.Prelude.{◌≡◌, IfOk};
ghost use Rattle.measured_bucket.specs.SimmKinds.Batch.{rows_of};
ghost use Rattle.bucket_cache.specs.Figures.{AreFigures};
ghost use Rattle.explain_text.specs.Explained.{explain_text};

use crate::add_on_lines::push_adds;
use crate::class_lines::push_products;
use breakdown_text::push_total;
use bucket_cache::{BatchFigures, batch_parameters};
use class_combine::sizes_are_of_rows;
use measured_bucket::mh_units::Text;
use measured_bucket::simm_kinds::TradeRows;
use measured_bucket::simm_params::Params;
use std::alloc::{AllocError, Global};

/// How the margin of a batch comes about, in lines: of each product class and risk class that
/// has a sensitivity the nets of each bucket on each side, in key order, and the value of the
/// bucket in each measure; the margins of measures, risk classes and product classes; each
/// factor of notionals and each multiplier with what it adds; the additional margins that aren't
/// 0, and the whole.
///
/// # Errors
///
/// For want of memory alone.
pub fn explained_lines(
    alloc: Global,
    params: &Params,
    trades: &[TradeRows],
    figures: &BatchFigures,
) -> Result<Text, AllocError>
    requires { AreFigures params.now trades.now figures.now }
    ensures { IfOk result (λ text. text ≡ explain_text params.now (rows_of trades.now)) }
{
    sizes_are_of_rows();
    let mut text = Text::new(alloc);
    push_products(&mut text, alloc, params, figures)?;
    push_adds(&mut text, batch_parameters(trades), figures)?;
    push_total(&mut text, figures.margin.total.0)?;
    Ok(text)
}
