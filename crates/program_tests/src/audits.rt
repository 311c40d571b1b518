//! `audit` of reports.

use crate::running::Part::Text;
use crate::running::{AUDIT, COLUMNS, Case, TWO_ROWS, first_wrong};
use std::test::Fail;

/// Reports, with the line of a legal history, or the first fault.
static AUDITS: [Case; 16] = [
    // Two appends.
    (
        AUDIT,
        &[
            COLUMNS,
            TWO_ROWS,
            Text("entry 2 2 5 - 2+3 append 3 null ; 4 null ; 5 null\nend\n"),
        ],
        0,
        "legal 2 5 5\n",
        "",
    ),
    // The next id is one of those given.
    (
        AUDIT,
        &[
            COLUMNS,
            TWO_ROWS,
            Text("entry 2 2 4 - 2+3 append 3 null ; 4 null ; 5 null\nend\n"),
        ],
        4,
        "",
        "rowline: refused Illegal 2 Fresh\n",
    ),
    // An id less than there are rows.
    (
        AUDIT,
        &[
            COLUMNS,
            TWO_ROWS,
            Text("entry 2 2 5 - 2+2 append 3 null ; 4 null ; 5 null\nend\n"),
        ],
        4,
        "",
        "rowline: refused Illegal 2 Given\n",
    ),
    // An id that was given before.
    (
        AUDIT,
        &[
            COLUMNS,
            TWO_ROWS,
            Text("entry 2 2 5 - 1+3 append 3 null ; 4 null ; 5 null\nend\n"),
        ],
        4,
        "",
        "rowline: refused Illegal 2 Fresh\n",
    ),
    // An upgrade.
    (
        AUDIT,
        &[
            COLUMNS,
            Text("start 2 2 -\nrow - 1 7 null\nentry 1 - 0 - - upgrade\n"),
            Text("entry 1 3 2 0+1 1+1 append 8 null\nend\n"),
        ],
        0,
        "legal 2 2 2\n",
        "",
    ),
    // Rows without ids.
    (
        AUDIT,
        &[
            COLUMNS,
            Text("start 2 2 -\nrow - 1 7 null\nrow - 2 8 null\nend\n"),
        ],
        0,
        "legal 0 2 -\n",
        "",
    ),
    // Rows with ids.
    (
        AUDIT,
        &[
            COLUMNS,
            Text("start 3 4 9\nrow 0 0 1 null\nrow 7 3 2 \"x\"\nend\n"),
        ],
        0,
        "legal 0 2 9\n",
        "",
    ),
    // An append in version 2.
    (
        AUDIT,
        &[
            COLUMNS,
            Text("start 2 0 -\nentry 7 1 - - - append 1 null ; 2 \"b\"\nend\n"),
        ],
        0,
        "legal 1 2 -\n",
        "",
    ),
    // A table without rows.
    (
        AUDIT,
        &[COLUMNS, Text("start 2 0 -\nend\n")],
        0,
        "legal 0 0 -\n",
        "",
    ),
    // No end.
    (
        AUDIT,
        &[COLUMNS, Text("start 3 0 0\n")],
        2,
        "",
        "rowline: input 3\n",
    ),
    // Replies behind the end.
    (
        AUDIT,
        &[COLUMNS, TWO_ROWS, Text("end\nreply 1 planned\nreply 2 \n")],
        0,
        "legal 1 2 2\n",
        "",
    ),
    // An entry behind the end.
    (
        AUDIT,
        &[
            COLUMNS,
            TWO_ROWS,
            Text("end\nreply 1 planned\nentry 2 2 3 - 2+1 append 3 null\n"),
        ],
        2,
        "",
        "rowline: input 6\n",
    ),
    // No LF at the last line.
    (
        AUDIT,
        &[COLUMNS, TWO_ROWS, Text("end")],
        2,
        "",
        "rowline: input 4\n",
    ),
    // Two rows with one id.
    (
        AUDIT,
        &[
            COLUMNS,
            Text("start 3 0 1\nrow 0 0 1 null\nrow 0 0 2 null\nend\n"),
        ],
        2,
        "",
        "rowline: input 4\n",
    ),
    // A state that no history begins with.
    (
        AUDIT,
        &[COLUMNS, Text("start 3 0 -\nend\n")],
        4,
        "",
        "rowline: refused Illegal 0 Start\n",
    ),
    // No report.
    (AUDIT, &[], 2, "", "rowline: input 1\n"),
];

#[test]
fn a_history_is_legal_up_to_its_first_fault(rt: HostRuntime) -> Result<(), Fail> {
    assert_eq!(rt; first_wrong(rt.alloc(), &AUDITS)?, None);
    Ok(())
}
