//! What texts are read as, compared with what a table tells.

use crate::tables::{NINE, TWO, ToldColumn, columns_of};
use avro_wire::Text;
use history_log::{HistoryRefusal, print_entry, print_request, read_entry, read_request};
use row_pred::{print_cells, read_cells};
use row_types::Columns;
use std::alloc::{AllocError, Global};

/// What a text is read as: a row of two columns, a row of a column of each kind, or a request or an
/// entry about two columns.
#[derive(Clone, Copy)]
pub enum Form {
    Row,
    KindRow,
    Request,
    Entry,
}

/// How it is read.
pub enum Answer {
    /// What is read is printed so.
    Printed(&'static str),
    /// Nothing of the form goes on with the byte at this place.
    Syntax(u64),
    /// The cell at this place isn't of its column's kind and range.
    Misfit(u64),
    /// The column of this id is required, and its cell is null.
    NotNull(i32),
}

/// A text, and how it is read.
pub type Line = (&'static str, Answer);

/// The columns that the form is about.
fn told_of(form: Form) -> &'static [ToldColumn] {
    match form {
        Form::KindRow => &NINE,
        Form::Row | Form::Request | Form::Entry => &TWO,
    }
}

/// The number of the first line that is read otherwise, counted from 0.
pub fn first_wrong(alloc: Global, form: Form, lines: &[Line]) -> Result<Option<usize>, AllocError> {
    let columns = columns_of(alloc, told_of(form))?;
    Ok(first_wrong_of(alloc, form, &columns, lines))
}

/// The number of the first line that is read otherwise for these columns, counted from 0.
fn first_wrong_of(alloc: Global, form: Form, columns: &Columns, lines: &[Line]) -> Option<usize> {
    for number in 0..lines.len() {
        if !is_read(alloc, form, columns, &lines[number]) {
            return Some(number);
        }
    }
    None
}

/// Whether the line's text is read in this way.
fn is_read(alloc: Global, form: Form, columns: &Columns, line: &Line) -> bool {
    let read = match form {
        Form::Row | Form::KindRow => row_again(alloc, columns, line.0),
        Form::Request => request_again(alloc, columns, line.0),
        Form::Entry => entry_again(alloc, columns, line.0),
    };
    is_answer(&read, &line.1)
}

/// The row that the text is, printed.
fn row_again(alloc: Global, columns: &Columns, text: &str) -> Result<Text, HistoryRefusal> {
    let cells = read_cells(alloc, text, columns)?;
    Ok(print_cells(alloc, &cells)?)
}

/// The request that the text is, printed.
fn request_again(alloc: Global, columns: &Columns, text: &str) -> Result<Text, HistoryRefusal> {
    let request = read_request(alloc, text, columns)?;
    Ok(print_request(alloc, &request)?)
}

/// The entry that the text is, printed.
fn entry_again(alloc: Global, columns: &Columns, text: &str) -> Result<Text, HistoryRefusal> {
    let entry = read_entry(alloc, text, columns)?;
    Ok(print_entry(alloc, &entry)?)
}

/// Whether this is the answer. A row is refused as a request of it is.
fn is_answer(read: &Result<Text, HistoryRefusal>, answer: &Answer) -> bool {
    match (read, answer) {
        (Ok(text), Answer::Printed(wanted)) => text.as_str() == *wanted,
        (Err(HistoryRefusal::Syntax { place }), Answer::Syntax(wanted)) => *place == *wanted,
        (Err(HistoryRefusal::Misfit { place }), Answer::Misfit(wanted)) => *place == *wanted,
        (Err(HistoryRefusal::NotNull { column }), Answer::NotNull(wanted)) => *column == *wanted,
        _ => false,
    }
}
