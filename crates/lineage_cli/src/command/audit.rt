//! Serving `audit`: whether the history of a report is legal.

ghost use Rattle.std.specs.Prelude.{◌≡◌, ◌+◌, ◌++◌, ◌↔◌, decimal, string_bytes, IsTrue, Ok, OnOk};
ghost use Rattle.words.specs.Reading.{Gives, map_refusal, map_value};
ghost use Rattle.history_log.specs.Auditing.{audit_begun, audit_more};
ghost use Rattle.lt_port.specs.Streams.{Outgoing};
ghost use Rattle.report.specs.Report.{report_of};
ghost use Rattle.report.specs.Taken.{taken_by};
ghost use Rattle.lineage_cli.specs.Answers.{Prints};
ghost use Rattle.lineage_cli.specs.Command.Audit.{of_report, tally_line, judged, audit_answer};
ghost use Rattle.lineage_cli.specs.Command.Audit.{AsksAudit, AuditAnswer, ServesAudit};
ghost use Rattle.lineage_cli.specs.Leaves.{Leaves, LeavesOutput, ended_class};
ghost use Rattle.lineage_cli.specs.Run.{is_memory};

use crate::ending::{Ending, printed};
use crate::input::read_input;
use crate::output::write_all;
use avro_wire::Text;
use history_log::{Audit, Tally, audit_agrees};
use itoa::Buffer;
use limits::INPUT;
use lineage_model::laws::an_audit_finds_histories;
use lt_port::{Sink, Source};
use pieces::{put_optional_long, put_unsigned};
use report::{ReportRefusal, read_entries};
use row_types::Columns;
use std::alloc::{AllocError, Global};

/// Whether the words ask for `audit`.
pub fn is_asked(words: &[Text]) -> bool
    ensures { IsTrue result ↔ AsksAudit words.now }
{
    match words {
        [name] => name.as_str() == "audit",
        _ => false,
    }
}

/// Prints the line of a legal history, if the report that is the input has one.
pub fn serve<S: Source, W: Sink>(alloc: Global, input: &mut S, out: &mut W) -> Result<(), Ending>
    ensures serves { (error : Outgoing) → ServesAudit
        (record { input = S.seen input.old; output = W.seen out.old; error = error })
        (record { input = S.seen input.new; output = W.seen out.new; error = error }) result }
    ensures leaves { (error : Outgoing) → Leaves (ended_class result)
        (record { input = S.seen input.old; output = W.seen out.old; error = error })
        (record { input = S.seen input.new; output = W.seen out.new; error = error }) }
{
    let bytes = read_input(alloc, input, INPUT)?;
    answer(alloc, &bytes, out)
}

/// Prints the line for the bytes of a report.
fn answer<W: Sink>(alloc: Global, bytes: &[u8], out: &mut W) -> Result<(), Ending>
    ensures prints { Prints (AuditAnswer bytes.now)
        (W.seen out.old).written (W.seen out.new).written result }
    ensures leaves { LeavesOutput (ended_class result) (W.seen out.old) (W.seen out.new) }
{
    an_audit_finds_histories();
    let line = line_for(alloc, bytes)?;
    printed(write_all(out, line.as_bytes()))
}

/// The line that is printed for the bytes.
fn line_for(alloc: Global, bytes: &[u8]) -> Result<String, Ending>
    ensures { Gives is_memory (λ line. string_bytes line) result (audit_answer bytes.now) }
{
    audit_agrees();
    let (_, audit) = read(alloc, bytes)?;
    judge(alloc, audit)
}

/// The columns of the report that the bytes are, and what the audit finds that takes its entries
/// while they are read.
fn read(alloc: Global, bytes: &[u8]) -> Result<(Columns, Audit), Ending>
    ensures { Gives is_memory (λ read. read) result
        (map_refusal of_report (map_value (taken_by audit_begun audit_more) (report_of bytes.now))) }
{
    match read_entries::<Audit>(alloc, bytes) {
        Ok(read) => Ok(read),
        Err(ReportRefusal::Line { line }) => Err(Ending::Input { line }),
        Err(ReportRefusal::Memory) => Err(Ending::Memory),
    }
}

/// The line of a legal history, or the first entry that is not legal.
fn judge(alloc: Global, audit: Audit) -> Result<String, Ending>
    ensures { Gives is_memory (λ line. string_bytes line) result (judged audit) }
{
    match audit {
        Audit::Legal { entries, tally } => legal_text(alloc, entries, &tally),
        Audit::Illegal { entry, rule } => Err(Ending::Illegal { entry, rule }),
    }
}

/// The line of a legal history of so many entries, which leads to a state with these numbers.
fn legal_text(alloc: Global, entries: u64, tally: &Tally) -> Result<String, Ending>
    ensures { Gives is_memory (λ line. string_bytes line) result
        (Ok (tally_line entries tally.now)) }
{
    let mut text = String::new(alloc);
    match put_legal_line(&mut text, entries, tally) {
        Ok(()) => Ok(text),
        Err(_) => Err(Ending::Memory),
    }
}

/// Puts the same line behind `out`.
fn put_legal_line(out: &mut String, entries: u64, tally: &Tally) -> Result<(), AllocError>
    ensures { OnOk result (string_bytes out.new
        ≡ string_bytes out.old ++ tally_line entries tally.now) }
{
    out.push_str("legal ")?;
    put_unsigned(out, entries)?;
    out.push_str(" ")?;
    put_sum(out, tally.rows, tally.unnamed)?;
    out.push_str(" ")?;
    put_optional_long(out, tally.next)?;
    out.push_str("\n")
}

/// Puts the sum of two counts behind `out`.
fn put_sum(out: &mut String, first: usize, second: usize) -> Result<(), AllocError>
    ensures { OnOk result (string_bytes out.new
        ≡ string_bytes out.old ++ decimal (first + second)) }
{
    out.push_str(Buffer::new().format(first as u128 + second as u128))
}
