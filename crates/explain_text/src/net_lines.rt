//! The lines of nets.
ghost use Rattle.std.specs.Prelude.{◌≡◌, ◌++◌, OnOk};
ghost use Rattle.std.specs.List.{flat_map};
ghost use Rattle.explain_text.specs.Lines.{net_line};

use breakdown_text::fault_text::{push_field, push_last_number, push_sum};
use breakdown_text::push_factor;
use bucket_cache::factor_book::{Holding, PlaceFactors};
use measured_bucket::mh_units::Text;
use measured_bucket::simm_kinds::FactorKey;
use std::alloc::AllocError;

/// Adds the lines of the nets of a place.
pub(crate) fn push_nets(text: &mut Text, lent: &PlaceFactors) -> Result<(), AllocError>
    ensures { OnOk result (text.new ≡ text.old ++ flat_map net_line lent.now.factors) }
{
    for (key, holding) in lent.iter() {
        push_net(text, key, holding)?;
    }
    Ok(())
}

// Adds the line of a net, with the number of rows that net to it.
fn push_net(text: &mut Text, key: &FactorKey, holding: &Holding) -> Result<(), AllocError>
    ensures { OnOk result (text.new ≡ text.old ++ net_line (key.now, holding.now)) }
{
    push_field(text, b"NET")?;
    push_field(text, key.product.word().as_bytes())?;
    push_field(text, key.kind().word().as_bytes())?;
    push_factor(text, &key.factor)?;
    push_sum(text, holding.net)?;
    push_last_number(text, holding.rows)
}
