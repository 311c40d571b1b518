//! Values that have a key.

ghost use Rattle.std.specs.Prelude.{◌≡◌, ℕ, List};

use avro_wire::Text;

/// A value that has a key, which is a text.
pub trait Keyed: Drop {
    /// The bytes of the key.
    ghost key: { Self → List ℕ };

    /// The key of the value.
    fn key(&self) -> &str
        ensures { result.now ≡ key self.now };
}

/// A text is its own key.
impl Keyed for Text {
    ghost key = { λ text. text };

    fn key(&self) -> &str {
        self.as_str()
    }
}

/// The key of a pair is its first part.
impl<V: Drop> Keyed for (Text, V) {
    ghost key = { λ pair. pair.0 };

    fn key(&self) -> &str {
        self.0.as_str()
    }
}
