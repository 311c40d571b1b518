//! Serving `rows`: the rows of a data file, by the columns of its own schema.

ghost use Rattle.std.specs.Prelude.{◌≡◌, ◌<◌, ◌^◌, ℕ, Option, pos, Err, IfSome, IfOk, IfErr, MatchOption};
ghost use Rattle.std.specs.Bool.{OnFalse};
ghost use Rattle.std.specs.Option.{option_map};
ghost use Rattle.lt_port.specs.Streams.{Outgoing};
ghost use Rattle.stored_rows.specs.Refusal.{is_memory as wants_memory};
ghost use Rattle.lineage_cli.specs.Answers.{Prints};
ghost use Rattle.lineage_cli.specs.Command.Rows.{first_word, AsksRows, HasRows, RowsAnswer, ServesRows};
ghost use Rattle.lineage_cli.specs.Leaves.{Leaves, LeavesOutput, ended_class};
ghost use Rattle.lineage_cli.specs.Run.{is_memory};

use crate::ending::{Ending, printed};
use crate::input::read_input;
use crate::natural::natural;
use crate::printing::print_rows;
use avro_wire::Text;
use limits::ROWS_INPUT;
use lt_port::{Sink, Source};
use row_reading::{CheckedRows, check_own_rows};
use std::alloc::Global;
use stored_rows::RowRefusal;

/// The first row id and the sequence number, if the words ask for `rows`.
pub fn asked(words: &[Text]) -> Option<(Option<u64>, u64)>
    ensures { MatchOption result
        ((first : Option ℕ) (sequence : ℕ) → AsksRows words.now first sequence → ⊥)
        (λ numbers. AsksRows words.now numbers.0 numbers.1) }
{
    match words {
        [name, first, sequence] if name.as_str() == "rows" => {
            let first = first_id(first.as_str())?;
            let sequence = natural(sequence.as_str())?;
            Some((first, sequence))
        }
        _ => None,
    }
}

/// The first row id that the word stands for: a number of 63 bits, or `-` for none. `None` if
/// it stands for neither.
fn first_id(word: &str) -> Option<Option<u64>>
    ensures { MatchOption result
        ((first : Option ℕ) → IfSome first (λ id. id < 2 ^ 63) → word.now ≡ first_word first → ⊥)
        (λ first. IfSome first (λ id. id < 2 ^ 63) × (word.now ≡ first_word first)) }
{
    if word == "-" {
        return Some(None);
    }
    Some(Some(natural(word)?))
}

/// Prints a line for each row of the data file that is the input. The file is checked whole before a
/// line is written.
pub fn serve<S: Source, W: Sink>(
    alloc: Global,
    first: Option<u64>,
    sequence: u64,
    input: &mut S,
    out: &mut W,
) -> Result<(), Ending>
    requires id { IfSome first (λ id. id < 2 ^ 63) }
    requires sequence { sequence < 2 ^ 63 }
    ensures serves { (error : Outgoing) → ServesRows first sequence
        (record { input = S.seen input.old; output = W.seen out.old; error = error })
        (record { input = S.seen input.new; output = W.seen out.new; error = error }) result }
    ensures leaves { (error : Outgoing) → Leaves (ended_class result)
        (record { input = S.seen input.old; output = W.seen out.old; error = error })
        (record { input = S.seen input.new; output = W.seen out.new; error = error }) }
{
    let bytes = read_input(alloc, input, ROWS_INPUT)?;
    answer(alloc, first, sequence, &bytes, out)
}

/// Prints the rows of the file.
fn answer<W: Sink>(
    alloc: Global,
    first: Option<u64>,
    sequence: u64,
    bytes: &[u8],
    out: &mut W,
) -> Result<(), Ending>
    requires id { IfSome first (λ id. id < 2 ^ 63) }
    requires sequence { sequence < 2 ^ 63 }
    ensures prints { Prints (RowsAnswer first sequence bytes.now)
        (W.seen out.old).written (W.seen out.new).written result }
    ensures leaves { LeavesOutput (ended_class result) (W.seen out.old) (W.seen out.new) }
{
    let rows = rows_in(alloc, bytes, first, sequence)?;
    printed(print_rows(out, rows))
}

/// The rows of the file, all of which were checked.
fn rows_in<'a>(
    alloc: Global,
    bytes: &'a [u8],
    first: Option<u64>,
    sequence: u64,
) -> Result<CheckedRows<'a>, Ending>
    requires id { IfSome first (λ id. id < 2 ^ 63) }
    requires sequence { sequence < 2 ^ 63 }
    ensures rows { IfOk result (λ rows. HasRows first sequence bytes.now rows.left) }
    ensures refused { IfErr result (λ ending. OnFalse (is_memory ending)
        (RowsAnswer first sequence bytes.now (Err ending))) }
{
    match check_own_rows(alloc, bytes, signed_id(first), signed(sequence)) {
        Ok(rows) => Ok(rows),
        Err(refusal) => Err(ending_of(refusal)),
    }
}

/// How the run ends for a file that is refused, or for which memory ran out.
fn ending_of(refusal: RowRefusal) -> Ending
    ensures memory { is_memory result ≡ wants_memory refusal }
    ensures table { OnFalse (wants_memory refusal) (result ≡ Ending.Table refusal) }
{
    match refusal {
        RowRefusal::Memory => Ending::Memory,
        refusal => Ending::Table(refusal),
    }
}

/// The id, as a number with a sign.
fn signed_id(first: Option<u64>) -> Option<i64>
    requires { IfSome first (λ id. id < 2 ^ 63) }
    ensures { result ≡ option_map pos first }
{
    match first {
        Some(id) => Some(signed(id)),
        None => None,
    }
}

/// The number, with a sign.
fn signed(number: u64) -> i64
    requires { number < 2 ^ 63 }
    ensures { result ≡ pos number }
{
    number as i64
}
