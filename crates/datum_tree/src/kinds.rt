//! What a value is, if it is of that kind.

ghost use Rattle.std.specs.Prelude.{◌≡◌};
ghost use Rattle.std.specs.Option.{option_copied};
ghost use Rattle.datum_tree.specs.declared.datum.Datum.{out-Datum};
ghost use Rattle.datum_tree.specs.Kinds as spec;
ghost use Rattle.datum_tree.specs.Kinds.{flag_in, number_in, raw_in, text_in, fields_in, array_in, pairs_in, branch_in, lent_branch};

use crate::datum::Datum;
use avro_wire::Text;

/// Whether the value is the null.
pub fn is_null(datum: &Datum) -> bool
    ensures { result ≡ spec.is_null (out-Datum datum.now) }
{
    match datum {
        Datum::Null => true,
        _ => false,
    }
}

/// The boolean. `None`: the value is of another kind.
pub fn flag_of(datum: &Datum) -> Option<bool>
    ensures { result ≡ flag_in (out-Datum datum.now) }
{
    match datum {
        Datum::Flag(flag) => Some(*flag),
        _ => None,
    }
}

/// The number. `None`: the value is of another kind.
pub fn number_of(datum: &Datum) -> Option<i64>
    ensures { result ≡ number_in (out-Datum datum.now) }
{
    match datum {
        Datum::Num(number) => Some(*number),
        _ => None,
    }
}

/// The bytes. `None`: the value is of another kind.
pub fn raw_of(datum: &Datum) -> Option<&[u8]>
    ensures { option_copied result ≡ raw_in (out-Datum datum.now) }
{
    match datum {
        Datum::Raw(bytes) => Some(bytes.as_slice()),
        _ => None,
    }
}

/// The text. `None`: the value is of another kind.
pub fn text_of(datum: &Datum) -> Option<&Text>
    ensures { option_copied result ≡ text_in (out-Datum datum.now) }
{
    match datum {
        Datum::Str(text) => Some(text),
        _ => None,
    }
}

/// The values of a record's fields. `None`: the value is of another kind.
pub fn fields_of(datum: &Datum) -> Option<&[Datum]>
    ensures { option_copied result ≡ fields_in (out-Datum datum.now) }
{
    match datum {
        Datum::Rec(values) => Some(values.as_slice()),
        _ => None,
    }
}

/// The items of an array. `None`: the value is of another kind.
pub fn array_of(datum: &Datum) -> Option<&[Datum]>
    ensures { option_copied result ≡ array_in (out-Datum datum.now) }
{
    match datum {
        Datum::Array(items) => Some(items.as_slice()),
        _ => None,
    }
}

/// The pairs of a map. `None`: the value is of another kind.
pub fn pairs_of(datum: &Datum) -> Option<&[(Text, Datum)]>
    ensures { option_copied result ≡ pairs_in (out-Datum datum.now) }
{
    match datum {
        Datum::Map(pairs) => Some(pairs.as_slice()),
        _ => None,
    }
}

/// The place of a branch, counted from 0, and the value of it. `None`: the value is of another
/// kind.
pub fn branch_of(datum: &Datum) -> Option<(u32, &Datum)>
    ensures { lent_branch result ≡ branch_in (out-Datum datum.now) }
{
    match datum {
        Datum::Branch(place, inside) => Some((*place, inside.get())),
        _ => None,
    }
}
