//! A run of the program: what its words ask for, and how that ended.

ghost use Rattle.lineage_cli.specs.Run.{IsRun};

use crate::command::serve;
use crate::ending::{status_of, tell};
use avro_wire::Text;
use lt_port::{Sink, Source};
use std::alloc::Global;

/// Does what the words ask for, and returns the exit status: 0 for an answer. Any other has its one
/// line on `err`, as docs/FORMATS.md says.
pub fn run_alone<S: Source, W: Sink, E: Sink>(
    alloc: Global,
    words: &[Text],
    input: &mut S,
    out: &mut W,
    err: &mut E,
) -> u8
    ensures { IsRun words.now
        (record { input = S.seen input.old; output = W.seen out.old; error = E.seen err.old })
        (record { input = S.seen input.new; output = W.seen out.new; error = E.seen err.new })
        result }
{
    match serve(alloc, words, input, out) {
        Ok(()) => 0,
        Err(ending) => {
            tell(err, &ending);
            status_of(&ending)
        }
    }
}
