//! The program: `rowline rows FIRST SEQ` prints the rows of the data file on standard input, and
//! `rowline audit` says whether the history of the report there is legal.
#![tactic(auto)]

use avro_wire::Text;
use lineage_cli::{Ending, run_alone, status_of, tell};
use lt_port::{ReaderSource, WriterSink};
use std::env;
use std::io::ErrorKind;
use std::process::ExitCode;

/// The words after the program's name. One that isn't UTF-8 is a word of no command.
fn words_of(rt: &HostRuntime) -> Result<Vec<Text>, Ending> {
    let arguments = match env::args(rt) {
        Ok(arguments) => arguments,
        Err(error) if error.kind() == ErrorKind::InvalidData => return Err(Ending::Usage),
        Err(_) => return Err(Ending::Memory),
    };
    let mut words = Vec::new(rt.alloc());
    for argument in arguments.skip(1) {
        let Ok(word) = Text::from_str(rt.alloc(), argument.as_str()) else {
            return Err(Ending::Memory);
        };
        if words.push(word).is_err() {
            return Err(Ending::Memory);
        }
    }
    Ok(words)
}

fn main(rt: HostRuntime) -> ExitCode {
    let alloc = rt.alloc();
    let mut input = ReaderSource::new(rt.stdin());
    let mut out = WriterSink::new(rt.stdout());
    let mut err = WriterSink::new(rt.stderr());
    let status = match words_of(&rt) {
        Ok(words) => run_alone(alloc, &words, &mut input, &mut out, &mut err),
        Err(ending) => {
            tell(&mut err, &ending);
            status_of(&ending)
        }
    };
    ExitCode::from(status)
}
