//! What the lines of measures begin with.
ghost use Rattle.std.specs.Prelude.{◌≡◌, ◌++◌, OnOk};
ghost use Rattle.explain_text.specs.Lines.{measure_word, measure_fields};

use breakdown_text::fault_text::push_field;
use measured_bucket::mh_units::Text;
use measured_bucket::simm_kinds::{Measure, ProductClass, RiskClass};
use std::alloc::AllocError;

/// The word of a measure.
pub(crate) fn measure_word(measure: Measure) -> &'static str
    ensures { result.now ≡ measure_word measure }
{
    match measure {
        Measure::Delta => "Delta",
        Measure::Vega => "Vega",
        Measure::Curvature => "Curvature",
        Measure::BaseCorr => "BaseCorr",
    }
}

/// Adds the word of a line, its measure, product class and risk class.
pub(crate) fn push_measure_fields(
    text: &mut Text,
    word: &[u8],
    measure: Measure,
    product: ProductClass,
    class: RiskClass,
) -> Result<(), AllocError>
    ensures { OnOk result (text.new ≡ text.old ++ measure_fields word.now measure product class) }
{
    push_field(text, word)?;
    push_field(text, measure_word(measure).as_bytes())?;
    push_field(text, product.word().as_bytes())?;
    push_field(text, class.word().as_bytes())
}
