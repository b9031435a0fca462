//! What is printed for each answer: one line, piece by piece, because a line may be needed when memory has run out.

ghost use Rattle.std.specs.Prelude.{◌≡◌, ◌++◌, ◌∷◌, [], codes, decimal, string_bytes};
ghost use Rattle.arterial.specs.Prints.{Prints};
ghost use Rattle.arterial.specs.Report.{words_line, named_line, number_then, refusal_line, fault_words, report_line};

use io_edge::{Failed, Sink};
use itoa::Buffer;
use station::{LineFault, LogFault, Refusal, Status};
use trace_writer::put_all;

/// The line for words that are not a command.
const USAGE: &str = "usage: arterial run [--workers N] | check | generate | survey\n";

/// Prints a text.
fn print<K: Sink>(sink: &mut K, text: &str) -> Result<(), Failed>
    ensures { Prints K.written K.faults result sink.old sink.new text.now }
{
    put_all(sink, text.as_bytes())
}

/// Prints some words and a number.
fn print_number<K: Sink>(sink: &mut K, words: &str, n: u64) -> Result<(), Failed>
    ensures { Prints K.written K.faults result sink.old sink.new (words.now ++ decimal n) }
{
    match print(sink, words) {
        Ok(()) => {}
        Err(Failed) => return Err(Failed),
    }
    let mut digits = Buffer::new();
    print(sink, digits.format(n))
}

/// Prints a line of some words and what is named.
fn print_named<K: Sink>(sink: &mut K, words: &str, name: &str) -> Result<(), Failed>
    ensures { Prints K.written K.faults result sink.old sink.new (named_line words.now name.now) }
{
    match print(sink, words) {
        Ok(()) => {}
        Err(Failed) => return Err(Failed),
    }
    match print(sink, name) {
        Ok(()) => {}
        Err(Failed) => return Err(Failed),
    }
    print(sink, "\n")
}

/// Prints a line of some words and two numbers.
fn print_two<K: Sink>(
    sink: &mut K,
    words: &str,
    first: u64,
    between: &str,
    second: u64,
) -> Result<(), Failed>
    ensures { Prints K.written K.faults result sink.old sink.new (number_then words.now first (number_then between.now second (10 ∷ []))) }
{
    match print_number(sink, words, first) {
        Ok(()) => {}
        Err(Failed) => return Err(Failed),
    }
    match print_number(sink, between, second) {
        Ok(()) => {}
        Err(Failed) => return Err(Failed),
    }
    print(sink, "\n")
}

/// Prints which rule the opening tables of a cabinet break.
fn print_broken<K: Sink>(sink: &mut K, cab: u32, rule: u8, row: u16) -> Result<(), Failed>
    ensures { Prints K.written K.faults result sink.old sink.new (refusal_line (Refusal.Broken cab rule row)) }
{
    match print_number(sink, "scenario: cabinet ", u64::from(cab)) {
        Ok(()) => {}
        Err(Failed) => return Err(Failed),
    }
    print_two(
        sink,
        " breaks rule ",
        u64::from(rule),
        " at row ",
        u64::from(row),
    )
}

/// Prints why an input is refused.
fn print_refusal<K: Sink>(sink: &mut K, refusal: &Refusal) -> Result<(), Failed>
    ensures { Prints K.written K.faults result sink.old sink.new (refusal_line refusal.now) }
{
    match refusal {
        Refusal::Syntax => print(sink, "scenario: not JSON\n"),
        Refusal::Field(path) => print_named(sink, "scenario: field ", path.as_str()),
        Refusal::Limit(path) => print_named(sink, "scenario: limit ", path.as_str()),
        Refusal::Broken { cab, rule, row } => print_broken(sink, *cab, *rule, *row),
    }
}

/// Why a line of a log can't follow those before it, up to the end of the printed line.
fn words_of(fault: LineFault) -> &'static str
    ensures { result.now ≡ words_line (fault_words fault) }
{
    match fault {
        LineFault::NotALine => " is not a line of a trace\n",
        LineFault::NoCabinet => " is of a cabinet that the scenario does not have\n",
        LineFault::NotLater => " is not later than the frame before it\n",
        LineFault::FrameVersion => " has a version other than the number of accepted loads\n",
        LineFault::LoadVersion => " has a version other than the next one\n",
    }
}

/// Prints which line of a log can't follow, and why.
fn print_fault<K: Sink>(sink: &mut K, fault: &LogFault) -> Result<(), Failed>
    ensures { Prints K.written K.faults result sink.old sink.new (number_then (codes "log: line ") fault.now.line (words_line (fault_words fault.now.fault))) }
{
    match print_number(sink, "log: line ", fault.line) {
        Ok(()) => {}
        Err(Failed) => return Err(Failed),
    }
    print(sink, words_of(fault.fault))
}

/// Prints the line of an answer; nothing where all is done. It takes no memory. Where a write fails, a prefix of the
/// line is printed.
pub fn report<K: Sink>(status: &Status, sink: &mut K) -> Result<(), Failed>
    ensures { Prints K.written K.faults result sink.old sink.new (report_line status.now) }
{
    match status {
        Status::Done => Ok(()),
        Status::Usage => print(sink, USAGE),
        Status::Scenario(refusal) => print_refusal(sink, refusal),
        Status::NotATrace(fault) => print_two(
            sink,
            "trace: line ",
            u64::from(fault.line),
            " breaks rule ",
            u64::from(fault.rule),
        ),
        Status::Overlap(fault) => print_two(
            sink,
            "overlap: rule ",
            u64::from(fault.rule),
            " at row ",
            u64::from(fault.row),
        ),
        Status::Unsafe => print(sink, "log: not safe\n"),
        Status::NotALog(fault) => print_fault(sink, fault),
        Status::ReadFault => print(sink, "read fault\n"),
        Status::WriteFault => print(sink, "write fault\n"),
        Status::NoMemory => print(sink, "out of memory\n"),
    }
}
