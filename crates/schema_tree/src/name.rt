//! Full names and namespaces. Avro 1.11, "Names".

ghost use Rattle.std.specs.Prelude.{◌≡◌, IfOk};
ghost use Rattle.schema_tree.specs.Names as spec;

use avro_wire::Text;
use std::alloc::{AllocError, Global};

fn has_dot(name: &str) -> bool
    ensures { result ≡ spec.has_dot name.now }
{
    for byte in name.as_bytes() {
        if *byte == b'.' {
            return true;
        }
    }
    false
}

/// The full name that the name has in the namespace, which is empty if there is none. An `Err`
/// says that memory ran out.
pub fn full_name(alloc: Global, namespace: &str, name: &str) -> Result<Text, AllocError>
    ensures { IfOk result (λ full. full ≡ spec.full_name namespace.now name.now) }
{
    if namespace.is_empty() || has_dot(name) {
        return Text::from_str(alloc, name);
    }
    Ok(Text::from_string(format!(in alloc; "{namespace}.{name}")?))
}

/// The namespace of a full name: what comes before its last dot. Empty: there is none.
pub fn namespace_of(name: &str) -> &str
    ensures { result.now ≡ spec.namespace_of name.now }
{
    let bytes = name.as_bytes();
    let mut end = bytes.len();
    while end > 0 {
        end -= 1;
        if bytes[end] == b'.' {
            return &name[..end];
        }
    }
    ""
}
