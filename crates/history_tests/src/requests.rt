//! Requests by hand, read and printed.

use crate::answers::Answer::{Misfit, NotNull, Printed, Syntax};
use crate::answers::{Form, Line, first_wrong};
use crate::rows::{all_made, is_text};
use crate::tables::{ToldCell, cells_of};
use avro_wire::Text;
use history_log::print_request;
use history_types::{Paths, Request};
use lists::List;
use row_types::CellRows;
use std::alloc::{AllocError, Global};
use std::test::*;

/// Texts of requests about two columns.
static TEXTS: [Line; 22] = [
    // A mark inside a literal parts nothing.
    (
        r#"append -7 "a \"b\" ; c\n" ; 0 null ; 9 """#,
        Printed(r#"append -7 "a \"b\" ; c\n" ; 0 null ; 9 """#),
    ),
    (
        r#"compact "data/x y.avro" "\"" """#,
        Printed(r#"compact "data/x y.avro" "\"" """#),
    ),
    // Rows are parted by semicolons with or without spaces.
    (r#"append 1 "a""#, Printed(r#"append 1 "a""#)),
    (
        r#"append 1 "a";2 null"#,
        Printed(r#"append 1 "a" ; 2 null"#),
    ),
    (
        r#"append 1 "a"  ;  2 null"#,
        Printed(r#"append 1 "a" ; 2 null"#),
    ),
    // A compaction names paths, or none.
    ("compact", Printed("compact")),
    (r#"compact  "a"  "b""#, Printed(r#"compact "a" "b""#)),
    ("upgrade", Printed("upgrade")),
    // A text that is no request is refused at the first such byte.
    ("", Syntax(0)),
    ("app", Syntax(3)),
    ("delete true", Syntax(0)),
    ("append", Syntax(6)),
    ("append 1", Syntax(8)),
    ("append 1 ;", Syntax(9)),
    (r#"append 1 "a" "#, Syntax(13)),
    (r#"append 1 "a" ; "#, Syntax(15)),
    ("compact ", Syntax(8)),
    ("compact a", Syntax(8)),
    (r#"compact "a" "a""#, Syntax(14)),
    ("upgrade ", Syntax(7)),
    // So is one whose cells don't fit the columns.
    (r#"append null "a""#, NotNull(10)),
    ("append 1 2", Misfit(9)),
];

/// A request: the rows that it appends, or the paths that it compacts.
enum Asked {
    Append(&'static [&'static [ToldCell]]),
    Compact(&'static [&'static str]),
    Upgrade,
}

/// A request, and the text that it is printed as.
type Told = (Asked, &'static str);

static REQUESTS: [Told; 7] = [
    (
        Asked::Append(&[&[ToldCell::Num(1), ToldCell::Text("a")]]),
        r#"append 1 "a""#,
    ),
    (
        Asked::Append(&[
            &[ToldCell::Num(1), ToldCell::Text("a")],
            &[ToldCell::Num(2), ToldCell::Null],
        ]),
        r#"append 1 "a" ; 2 null"#,
    ),
    (
        Asked::Append(&[
            &[ToldCell::Num(-7), ToldCell::Text("a \"b\" ; c\n")],
            &[ToldCell::Num(0), ToldCell::Null],
            &[ToldCell::Num(9), ToldCell::Text("")],
        ]),
        r#"append -7 "a \"b\" ; c\n" ; 0 null ; 9 """#,
    ),
    (Asked::Compact(&[]), "compact"),
    (Asked::Compact(&["a", "b"]), r#"compact "a" "b""#),
    (
        Asked::Compact(&["data/x y.avro", "\"", ""]),
        r#"compact "data/x y.avro" "\"" """#,
    ),
    (Asked::Upgrade, "upgrade"),
];

/// The rows that the table tells.
fn rows_of(alloc: Global, table: &[&[ToldCell]]) -> Result<CellRows, AllocError> {
    let mut rows = List::new(alloc);
    for told in table {
        rows.push(cells_of(alloc, told)?)?;
    }
    Ok(rows)
}

/// The paths that the table tells.
fn paths_of(alloc: Global, table: &[&str]) -> Result<Paths, AllocError> {
    let mut paths = List::new(alloc);
    for told in table {
        paths.push(Text::from_str(alloc, told)?)?;
    }
    Ok(paths)
}

/// The request that the table tells.
fn request_of(alloc: Global, asked: &Asked) -> Result<Request, AllocError> {
    match asked {
        Asked::Append(rows) => Ok(Request::Append(rows_of(alloc, rows)?)),
        Asked::Compact(paths) => Ok(Request::Compact(paths_of(alloc, paths)?)),
        Asked::Upgrade => Ok(Request::Upgrade),
    }
}

/// The text of the request that the table tells.
fn printed(alloc: Global, asked: &Asked) -> Result<Text, AllocError> {
    let request = request_of(alloc, asked)?;
    print_request(alloc, &request)
}

/// The number of the first request that is printed otherwise, counted from 0.
fn first_printed_otherwise(alloc: Global, lines: &[Told]) -> Option<usize> {
    for number in 0..lines.len() {
        let line = &lines[number];
        if !is_text(printed(alloc, &line.0), line.1) {
            return Some(number);
        }
    }
    None
}

#[test]
fn a_request_is_printed_as_its_text_and_read_or_refused_at_its_first_wrong_byte(rt: HostRuntime) {
    all_made(&rt, Ok(first_printed_otherwise(rt.alloc(), &REQUESTS)));
    all_made(&rt, first_wrong(rt.alloc(), Form::Request, &TEXTS));
}
