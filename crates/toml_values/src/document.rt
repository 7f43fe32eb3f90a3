ghost use Rattle.std.specs.Prelude.{◌≡◌, option_map, IfOk};
ghost use Rattle.toml.specs.View.{table_view};
ghost use Rattle.toml_values.specs.Document.{document_of};

use std::alloc::{AllocError, Global};
use toml::Table;

/// The TOML document of UTF-8 text, or `None` where the bytes are none. The only error is want
/// of memory.
pub fn read_document(alloc: Global, bytes: &[u8]) -> Result<Option<Table>, AllocError>
    ensures { IfOk result (λ t. option_map table_view t ≡ document_of bytes.now) }
{
    let text = match std::str::from_utf8(bytes) {
        Ok(text) => text,
        Err(_) => return Ok(None),
    };
    match toml::table_from_str(alloc, text) {
        Ok(table) => Ok(Some(table)),
        Err(fault) if fault.is_memory() => Err(AllocError),
        Err(_) => Ok(None),
    }
}
