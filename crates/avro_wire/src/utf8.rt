//! The test for UTF-8.

ghost use Rattle.std.specs.Prelude.{◌≡◌, IfSome, is_some};
ghost use Rattle.std.specs.Str.{is_utf8};

/// The bytes as text; None if they are not UTF-8.
#[inline(always)]
pub fn text_of(bytes: &[u8]) -> Option<&str>
    ensures value { IfSome result (λ text. text.now ≡ bytes.now) }
    ensures is_text { is_some result ≡ is_utf8 bytes.now }
{
    match str::from_utf8(bytes) {
        Ok(text) => Some(text),
        Err(_) => None,
    }
}
