//! The larger of two numbers.

ghost use Rattle.std.specs.Prelude.{◌≡◌};
ghost use Rattle.metadata_changes.specs.Numbers as spec;

/// The larger of two numbers, such as the later of two moments.
pub fn larger(a: i64, b: i64) -> i64
    ensures { result ≡ spec.larger a b }
{
    if a < b { b } else { a }
}
