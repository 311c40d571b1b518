//! The value of a JSON text.

ghost use Rattle.std.specs.Prelude.{◌≡◌, option_map, IfOk};
ghost use Rattle.serde_json.specs.View.{view};
ghost use Rattle.json_members.specs.Parsing.{value_of};

use serde_json::Value;
use std::alloc::{AllocError, Global};

/// The value of a JSON text in UTF-8. `None`: the text is no JSON, or is nested deeper than 127.
/// An `Err` says that memory ran out.
pub fn parse(alloc: Global, text: &[u8]) -> Result<Option<Value>, AllocError>
    ensures { IfOk result (λ value. option_map view value ≡ value_of text.now) }
{
    match Value::from_slice(alloc, text) {
        Ok(value) => Ok(Some(value)),
        Err(error) => if error.is_memory() {
            Err(AllocError)
        } else {
            Ok(None)
        },
    }
}
