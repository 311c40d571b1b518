//! Entries by hand, with the runs of ids in them.

use crate::answers::Answer::{Misfit, NotNull, Printed, Syntax};
use crate::answers::{Form, Line, first_wrong};
use crate::rows::all_made;
use std::test::*;

/// Texts of entries about two columns.
static TEXTS: [Line; 52] = [
    (
        r#"entry 1 1 2 - 0+2 append 10 "a" ; 11 null"#,
        Printed(r#"entry 1 1 2 - 0+2 append 10 "a" ; 11 null"#),
    ),
    (
        "entry 1 - 0 - - upgrade",
        Printed("entry 1 - 0 - - upgrade"),
    ),
    (
        r#"entry 1 1 6 - - compact "p""#,
        Printed(r#"entry 1 1 6 - - compact "p""#),
    ),
    (
        "entry 1 1 - - - compact",
        Printed("entry 1 1 - - - compact"),
    ),
    (
        r#"entry 0 -1 -2 -5+1,7+2 -3+4 append -1 """#,
        Printed(r#"entry 0 -1 -2 -5+1,7+2 -3+4 append -1 """#),
    ),
    (
        "entry 18446744073709551615 9223372036854775807 -9223372036854775808 - 0+1 upgrade",
        Printed(
            "entry 18446744073709551615 9223372036854775807 -9223372036854775808 - 0+1 upgrade",
        ),
    ),
    // More spaces are read as one.
    (
        "entry  1   1  2 -  0+1   append  10  null",
        Printed("entry 1 1 2 - 0+1 append 10 null"),
    ),
    // A text that is no entry is refused at the first such byte.
    ("", Syntax(0)),
    ("entri", Syntax(4)),
    ("entry", Syntax(5)),
    ("entry1", Syntax(5)),
    (" entry 1 - 0 - - upgrade", Syntax(0)),
    ("entry -1 - 0 - - upgrade", Syntax(6)),
    ("entry - - 0 - - upgrade", Syntax(6)),
    ("entry 01 - 0 - - upgrade", Syntax(7)),
    ("entry 1 x 0 - - upgrade", Syntax(8)),
    ("entry 1 - 0, - - upgrade", Syntax(11)),
    ("entry 1 - 0 0+2,2+1 - upgrade", Syntax(17)),
    ("entry 1 1 2 - 0+2", Syntax(17)),
    ("entry 1 1 2 - 0+2 ", Syntax(18)),
    // So is one whose cells don't fit the columns.
    ("entry 1 1 2 - 0+2 append null null", NotNull(10)),
    ("entry 1 1 2 - 0+2 append 10 11", Misfit(28)),
    ("entry 1 - 0 - - upgrade ", Syntax(23)),
    // The named ids are read up to where they end.
    (
        "entry 1 - 0 - - upgrade",
        Printed("entry 1 - 0 - - upgrade"),
    ),
    (
        "entry 1 - 0 0+2 - upgrade",
        Printed("entry 1 - 0 0+2 - upgrade"),
    ),
    (
        "entry 1 - 0 0+2,4+1 - upgrade",
        Printed("entry 1 - 0 0+2,4+1 - upgrade"),
    ),
    // Later ids may stand first, and the same ids twice.
    (
        "entry 1 - 0 4+1,0+2,0+2 - upgrade",
        Printed("entry 1 - 0 4+1,0+2,0+2 - upgrade"),
    ),
    (
        "entry 1 - 0 -3+1 - upgrade",
        Printed("entry 1 - 0 -3+1 - upgrade"),
    ),
    (
        "entry 1 - 0 - 7+1 upgrade",
        Printed("entry 1 - 0 - 7+1 upgrade"),
    ),
    (
        "entry 1 - 0 9223372036854775807+9223372036854775807 - upgrade",
        Printed("entry 1 - 0 9223372036854775807+9223372036854775807 - upgrade"),
    ),
    // The ids past 64 bits are none that a run could begin with.
    (
        "entry 1 - 0 9223372036854775807+1,-9223372036854775808+1 - upgrade",
        Printed("entry 1 - 0 9223372036854775807+1,-9223372036854775808+1 - upgrade"),
    ),
    // The named ids, which begin at place 12, are refused at their first wrong byte.
    ("entry 1 - 0 ", Syntax(12)),
    ("entry 1 - 0 x", Syntax(12)),
    ("entry 1 - 0 0", Syntax(13)),
    ("entry 1 - 0 5+", Syntax(14)),
    ("entry 1 - 0 5-1", Syntax(13)),
    ("entry 1 - 0 0+0", Syntax(14)),
    ("entry 1 - 0 0+2,", Syntax(16)),
    ("entry 1 - 0 0+2,-", Syntax(17)),
    ("entry 1 - 0 9223372036854775808+1", Syntax(30)),
    ("entry 1 - 0 0+9223372036854775808", Syntax(32)),
    // A run that goes on where the one before it ends is refused where its id may end; a 0 may not
    // go on, and a number of 64 bits not either.
    ("entry 1 - 0 0+2,2+1", Syntax(17)),
    ("entry 1 - 0 -2+2,0+1", Syntax(17)),
    ("entry 1 - 0 -2+1,-1+2", Syntax(19)),
    ("entry 1 - 0 -2+1,0+1,1+1", Syntax(22)),
    (
        "entry 1 - 0 9223372036854775806+1,9223372036854775807+1",
        Syntax(52),
    ),
    // So it is where more digits stand behind such an id, and pass 64 bits.
    (
        "entry 1 - 0 922337203685477580+1,9223372036854775810+1",
        Syntax(50),
    ),
    (
        "entry 1 - 0 -922337203685477582+1,-9223372036854775810+1",
        Syntax(52),
    ),
    (
        "entry 1 - 0 0+9223372036854775807,92233720368547758070+1",
        Syntax(52),
    ),
    // The digit itself is wrong where another one may stand there, or a run may begin.
    (
        "entry 1 - 0 922337203685477579+1,9223372036854775808+1",
        Syntax(51),
    ),
    ("entry 1 - 0 0+1,92233720368547758080+1", Syntax(34)),
    (
        "entry 1 - 0 922337203685477580+2,9223372036854775810+1",
        Syntax(51),
    ),
];

#[test]
fn an_entry_is_read_or_refused_at_its_first_wrong_byte(rt: HostRuntime) {
    all_made(&rt, first_wrong(rt.alloc(), Form::Entry, &TEXTS));
}
