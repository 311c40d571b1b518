//! What a number stands for, and how the JSON of a schema says it.

ghost use Rattle.std.specs.Prelude.{◌≡◌, option_map};
ghost use Rattle.schema_tree.specs.Logical as spec;

/// What a number stands for. Avro spec, "Logical Types"; Iceberg spec, "Appendix A:
/// Format-specific Requirements", "Avro".
#[derive(Clone, Copy)]
pub enum Logical {
    /// A number alone.
    Plain,
    /// Of an int: days since 1970-01-01.
    Date,
    /// Of a long: microseconds since midnight.
    TimeMicros,
    /// Of a long: microseconds since 1970-01-01T00:00:00, in no time zone.
    StampMicros,
    /// Of a long: microseconds since 1970-01-01T00:00:00 in UTC.
    StampMicrosUtc,
}

/// The attributes by which the JSON of a schema says what its numbers stand for. They stand
/// beside `type`, in this order.
#[derive(Clone, Copy)]
pub struct Attributes {
    /// The value of `logicalType`. Avro spec, "Logical Types".
    pub logical_type: &'static str,
    /// The value of `adjust-to-utc`. `None`: it is left out. Iceberg spec, "Appendix A:
    /// Format-specific Requirements", "Avro".
    pub adjust_to_utc: Option<bool>,
}

impl Logical {
    /// The attributes of an int that stands for this. `None`: its schema is the word `int` alone.
    pub fn int_attributes(self) -> Option<Attributes>
        ensures { option_map spec.attributes_of result ≡ spec.int_attributes self }
    {
        match self {
            Logical::Date => Some(Attributes {
                logical_type: "date",
                adjust_to_utc: None,
            }),
            _ => None,
        }
    }

    /// The attributes of a long that stands for this. `None`: its schema is the word `long` alone.
    pub fn long_attributes(self) -> Option<Attributes>
        ensures { option_map spec.attributes_of result ≡ spec.long_attributes self }
    {
        match self {
            Logical::TimeMicros => Some(Attributes {
                logical_type: "time-micros",
                adjust_to_utc: None,
            }),
            Logical::StampMicros => Some(Attributes {
                logical_type: "timestamp-micros",
                adjust_to_utc: Some(false),
            }),
            Logical::StampMicrosUtc => Some(Attributes {
                logical_type: "timestamp-micros",
                adjust_to_utc: Some(true),
            }),
            _ => None,
        }
    }

    /// What an int of this `logicalType` stands for. One that isn't known leaves the number alone.
    pub fn of_int(logical_type: &str) -> Logical
        ensures { result ≡ spec.of_int logical_type.now }
    {
        match logical_type {
            "date" => Logical::Date,
            _ => Logical::Plain,
        }
    }

    /// What a long of this `logicalType` stands for. One that isn't known leaves the number alone.
    /// `adjust_to_utc`: whether `adjust-to-utc` is true.
    pub fn of_long(logical_type: &str, adjust_to_utc: bool) -> Logical
        ensures { result ≡ spec.of_long logical_type.now adjust_to_utc }
    {
        match logical_type {
            "time-micros" => Logical::TimeMicros,
            "timestamp-micros" => moment(adjust_to_utc),
            _ => Logical::Plain,
        }
    }
}

/// A moment, in UTC or in no time zone.
fn moment(utc: bool) -> Logical
    ensures { result ≡ spec.moment utc }
{
    if utc {
        Logical::StampMicrosUtc
    } else {
        Logical::StampMicros
    }
}
