ghost use Rattle.std.specs.Prelude.{◌≡◌, Ok, IfOk};
ghost use Rattle.params_file.specs.Texts.{text_read, GivesText};

use crate::reading::read_params;
use crate::text_fault::ParamTextFault;
use simm_params::Params;
use simm_params::mh_units::Bytes;
use std::alloc::{AllocError, Global};
use std::marker::Model;
use std::sync::Arc;

/// The most bytes of a text.
const MOST_BYTES: usize = 1_048_576;

/// A text with the parameters that it is, by the grammar of a parameter file: at most 1,048,576
/// bytes. Both stand once for all that hold them. Contracts see the parameters and the text.
#[derive(Drop)]
pub struct ParamText {
    params: Params,
    text: Arc<Bytes, Global>,
}

impl Model for ParamText {
    ghost use Rattle.std.specs.Prelude.{◌≡◌, Ok};
    ghost use Rattle.std.specs.Arc.{arc_value};
    ghost use Rattle.params_file.specs.Texts.{ParamText as TextValue, text_read};

    ghost Value = { TextValue };

    ghost view = { λ t. record { params = t.params; text = arc_value t.text } };

    ghost invariant = { λ t. text_read (arc_value t.text)
        ≡ Ok (record { params = t.params; text = arc_value t.text }) };
}

impl ParamText {
    /// The text with the parameters that it is. The text is not copied.
    ///
    /// # Errors
    ///
    /// `Long` exactly where the text has more than 1,048,576 bytes, with their number; then
    /// `Param` exactly where the grammar of a parameter file has a fault, with the first; and for
    /// want of memory with `Memory`, which says nothing of the text.
    #[tactic(auto, unfolding(crate::specs::Texts::text_read))]
    pub fn read(alloc: Global, text: Bytes) -> Result<ParamText, ParamTextFault>
        ensures { GivesText result (text_read text) }
    {
        let bytes = text.as_slice();
        if bytes.len() > MOST_BYTES {
            return Err(ParamTextFault::Long {
                bytes: bytes.len() as u64,
            });
        }
        let params = read_params(alloc, bytes)?;
        let text = Arc::new(alloc, text)?;
        Ok(ParamText { params, text })
    }

    /// The same text for one more holder. It takes no memory. The only error comes at 2^63 holders.
    pub fn share(&self) -> Result<ParamText, AllocError>
        ensures { IfOk result (λ text. text ≡ self.now) }
    {
        let params = self.params.share()?;
        let text = Arc::try_clone(&self.text)?;
        Ok(ParamText { params, text })
    }

    /// Lends the parameters, which are those of the text. It takes no memory.
    pub fn params(&self) -> &Params
        ensures value { result.now ≡ self.now.params }
        ensures its { text_read self.now.text ≡ Ok self.now }
    {
        &self.params
    }

    /// Lends the text. It takes no memory.
    pub fn text(&self) -> &[u8]
        ensures { result.now ≡ self.now.text }
    {
        self.text.as_slice()
    }
}
