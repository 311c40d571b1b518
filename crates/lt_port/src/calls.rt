//! Which calls of a form in memory fail.

ghost use Rattle.std.specs.Prelude.{◌+◌, ◌↔◌, Contains, IsTrue};

/// Whether the call after the first `calls` is one of those that fail, which are counted from 1.
/// After u64::MAX calls none is.
pub(crate) fn next_fails(failing: &[u64], calls: u64) -> bool
    ensures { IsTrue result ↔ Contains failing.now (calls + 1) }
{
    match calls.checked_add(1) {
        Some(call) => failing.contains(&call),
        None => false,
    }
}
