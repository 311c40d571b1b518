//! How a run ends that doesn't answer: its status, and its one line.

ghost use Rattle.std.specs.Prelude.{◌≡◌, [], decimal};
ghost use Rattle.lt_port.specs.Streams.{counts_after};
ghost use Rattle.refusal_text.specs.Told.{told_text, spaced};
ghost use Rattle.lineage_cli.specs.Ending as spec;
ghost use Rattle.lineage_cli.specs.Ending.{status_of as status, line_of, ending_text, printed_so};
ghost use Rattle.lineage_cli.specs.Output.{Puts, Shows};
ghost use Rattle.lineage_cli.specs.Run.{IsTold};

use crate::class::{Class, RefusalClass, class_word, status_of_class};
use crate::line::put_told;
use crate::output::{Buffer, flush, put};
use crate::parts::put_plain;
use limits::Which;
use lineage_model::Rule;
use lt_port::{PortError, Sink};
use refusal_text::Told;
use stored_rows::RowRefusal;

/// Why a run doesn't answer.
#[derive(Drop)]
pub enum Ending {
    /// The words have the form of no command.
    Usage,
    /// The input failed.
    InputFault,
    /// The input is larger than it may be: reading stopped at `found` bytes.
    InputLimit { found: u64 },
    /// The line of the input, counted from 1, is wrong, and none before it.
    Input { line: u64 },
    /// The file is refused.
    Table(RowRefusal),
    /// The entry of the history, counted from 1, breaks this rule, and none before it. Entry 0 is
    /// the state that the history begins with.
    Illegal { entry: u64, rule: Rule },
    /// The output failed.
    OutFault,
    /// Memory ran out.
    Memory,
}

/// The exit status.
pub fn status_of(ending: &Ending) -> u8
    ensures { result ≡ status ending.now }
{
    status_of_class(class_of(ending))
}

/// Writes the line. If `err` fails or wants memory, a front of the line may be written, and the counts
/// of `err` tell so.
pub fn tell<E: Sink>(err: &mut E, ending: &Ending)
    ensures { IsTold (line_of ending.now) (E.seen err.old) (E.seen err.new) }
{
    let mut buffer = Buffer::new();
    let _ = write_line(err, &mut buffer, ending);
}

/// How a run ended that printed its answer, as far as it could be printed.
pub fn printed(done: Result<(), PortError>) -> Result<(), Ending>
    ensures { result ≡ printed_so done }
{
    match done {
        Ok(()) => Ok(()),
        Err(PortError::Failed) => Err(Ending::OutFault),
        Err(PortError::Memory) => Err(Ending::Memory),
    }
}

/// The class of an ending.
fn class_of(ending: &Ending) -> Class
    ensures { result ≡ spec.class_of ending.now }
{
    match ending {
        Ending::Usage => Class::Usage,
        Ending::InputFault => Class::InputFault,
        Ending::InputLimit { .. } => Class::Refused(RefusalClass::Limit),
        Ending::Input { .. } => Class::Refused(RefusalClass::Input),
        Ending::Table(refusal) => Class::Refused(table_class(refusal)),
        Ending::Illegal { .. } => Class::Refused(RefusalClass::Rule),
        Ending::OutFault => Class::OutFault,
        Ending::Memory => Class::Memory,
    }
}

/// The class of a file that is refused.
fn table_class(refusal: &RowRefusal) -> RefusalClass
    ensures { result ≡ spec.table_class refusal.now }
{
    match refusal {
        RowRefusal::Limit { .. } => RefusalClass::Limit,
        RowRefusal::Memory => RefusalClass::Memory,
        _ => RefusalClass::Table,
    }
}

/// Writes the line through a buffer in which nothing waits, as far as it can be written.
fn write_line<E: Sink>(err: &mut E, buffer: &mut Buffer, ending: &Ending) -> Result<(), PortError>
    requires { buffer.old ≡ [] }
    ensures text { Puts (E.seen err.old).written (E.seen err.new).written result
        (line_of ending.now) }
    ensures counted { (E.seen err.new).counts ≡ counts_after result (E.seen err.old).counts }
{
    put_line(err, buffer, ending)?;
    flush(err, buffer)
}

/// Puts the line.
fn put_line<E: Sink>(err: &mut E, buffer: &mut Buffer, ending: &Ending) -> Result<(), PortError>
    ensures text { Shows (E.seen err.old).written buffer.old
        (E.seen err.new).written buffer.new result (line_of ending.now) }
    ensures counted { (E.seen err.new).counts ≡ counts_after result (E.seen err.old).counts }
{
    put(err, buffer, b"rowline: ")?;
    put_plain(err, buffer, class_word(class_of(ending)))?;
    put_told(err, buffer, told_of(ending))?;
    put(err, buffer, b"\n")
}

/// What the line has after the word of the class.
fn told_of(ending: &Ending) -> Told<'_>
    ensures { told_text result ≡ spaced (ending_text ending.now) }
{
    match ending {
        Ending::Usage | Ending::Memory => Told::nothing(),
        Ending::InputFault => Told::word("InputFault"),
        Ending::OutFault => Told::word("OutFault"),
        Ending::InputLimit { found } => Told::number(Which::Input.name(), *found),
        Ending::Input { line } => told_of_line(*line),
        Ending::Table(refusal) => refusal.told(),
        Ending::Illegal { entry, rule } => Told::named("Illegal", *entry, rule.name()),
    }
}

/// The same of a wrong line: its number alone.
fn told_of_line(line: u64) -> Told<'static>
    ensures { told_text result ≡ spaced (decimal line) }
{
    Told::number("", line)
}
