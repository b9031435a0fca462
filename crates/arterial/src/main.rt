//! The program: the top call with the program's arguments, standard input and standard output. The text of the answer
//! goes to standard error, in one line, and its number to the shell, as the exit status.
#![tactic(auto)]

ghost use Rattle.std.specs.Prelude.{◌≡◌};
ghost use Rattle.arterial.specs.Outcome.{exit_status};

mod reporting;

use io_edge::{OpenGate, StdSink, StdSource};
use reporting::report;
use station::{Status, station};
use std::env;
use std::io::ErrorKind;
use std::process::ExitCode;

/// The exit status.
fn code_of(status: &Status) -> u8
    ensures { result ≡ exit_status status.now }
{
    match status {
        Status::Done => 0,
        Status::Usage => 1,
        Status::Scenario(_) => 2,
        Status::ReadFault => 3,
        Status::WriteFault => 4,
        Status::NotATrace(_) | Status::NotALog(_) => 5,
        Status::NoMemory => 6,
        Status::Overlap(_) => 7,
        Status::Unsafe => 8,
    }
}

/// The words after the program's name. Words that aren't UTF-8 are not a command.
fn words_of(rt: &HostRuntime) -> Result<Vec<String>, Status> {
    let args = match env::args(rt) {
        Ok(args) => args,
        Err(e) if e.kind() == ErrorKind::OutOfMemory => return Err(Status::NoMemory),
        Err(_) => return Err(Status::Usage),
    };
    match args.skip(1).collect::<Vec<String>>(rt.alloc()) {
        Ok(words) => Ok(words),
        Err(_) => Err(Status::NoMemory),
    }
}

fn main(rt: HostRuntime) -> ExitCode {
    let status = match words_of(&rt) {
        Ok(words) => {
            let mut source = StdSource::new(rt.stdin());
            let mut sink = StdSink::new(rt.stdout());
            station(&rt, rt.alloc(), &words, &mut source, &mut sink, &OpenGate)
        }
        Err(status) => status,
    };
    let mut errors = StdSink::new(rt.stderr());
    let _ = report(&status, &mut errors);
    ExitCode::from(code_of(&status))
}
