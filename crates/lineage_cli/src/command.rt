//! What the words of a command line ask for, and doing it. Each command has a module of its own.

ghost use Rattle.std.specs.Prelude.{MatchOption};
ghost use Rattle.lt_port.specs.Streams.{Outgoing};
ghost use Rattle.lineage_cli.specs.Command.{Asks};
ghost use Rattle.lineage_cli.specs.Run.{IsServed};

mod audit;
mod rows;

use crate::ending::Ending;
use avro_wire::Text;
use lt_port::{Sink, Source};
use std::alloc::Global;

/// A command and its arguments.
#[derive(Clone, Copy)]
pub enum Command {
    /// The rows of one data file. `first`: its first row id; `None`: it has none. `sequence`: its
    /// data sequence number. Both are of 63 bits.
    Rows { first: Option<u64>, sequence: u64 },
    /// Whether the history of a report is legal.
    Audit,
}

/// The command that the words have the form of, if they have one.
pub fn command_of(words: &[Text]) -> Option<Command>
    ensures { MatchOption result
        ((command : _) → Asks words.now command → ⊥)
        (λ command. Asks words.now command) }
{
    if let Some((first, sequence)) = rows::asked(words) {
        return Some(Command::Rows { first, sequence });
    }
    if audit::is_asked(words) {
        return Some(Command::Audit);
    }
    None
}

/// Does what the words ask for.
pub fn serve<S: Source, W: Sink>(
    alloc: Global,
    words: &[Text],
    input: &mut S,
    out: &mut W,
) -> Result<(), Ending>
    ensures { (error : Outgoing) → IsServed words.now
        (record { input = S.seen input.old; output = W.seen out.old; error = error })
        (record { input = S.seen input.new; output = W.seen out.new; error = error }) result }
{
    match command_of(words) {
        None => Err(Ending::Usage),
        Some(Command::Rows { first, sequence }) => rows::serve(alloc, first, sequence, input, out),
        Some(Command::Audit) => audit::serve(alloc, input, out),
    }
}
