//! Each form of a request, each word of a refusal, and lines that come in pieces.

ghost use Rattle.std.specs.Prelude.{◌<◌};

use arrayvec::ArrayVec;
use io_edge::MemSource;
use session_words::{LineReader, Next, Request, read_request, word_of};
use sig_types::{Field, Octets, Way};
use std::alloc::Global;
use std::test::Fail;

/// What a line shows, the line, and the word that says why two cabinets with 100 ticks left don't take it.
const REFUSED: [(&str, &str, &str); 22] = [
    ("an empty line", "", "request"),
    ("a word that is no request", "reset 1", "request"),
    ("a word too many", "tick 5 7", "request"),
    ("a space at the end", "tick 5 ", "request"),
    ("a space before the first word", " tick 5", "request"),
    ("two spaces", "tick  5", "request"),
    ("capitals", "Tick 5", "request"),
    ("no tick", "tick 0", "ticks"),
    ("a tick more than are left", "tick 101", "ticks"),
    ("a leading zero", "tick 05", "ticks"),
    ("a sign", "tick +5", "ticks"),
    ("cabinet 0", "veh 0 4 on", "cabinet"),
    ("a cabinet that isn't there", "ped 3 4", "cabinet"),
    (
        "no cabinet stands before no phase",
        "veh x 17 on",
        "cabinet",
    ),
    ("phase 17", "veh 1 17 on", "phase"),
    ("no phase", "ped 1 ", "phase"),
    ("preempt 9", "preempt 1 9 on", "number"),
    ("a switch in capitals", "veh 1 4 ON", "on"),
    ("another word for a switch", "preempt 1 2 1", "on"),
    ("a stream that isn't there", "frame 1 prio 00", "stream"),
    ("half an octet", "frame 1 poll 3", "hex"),
    ("a letter that is no digit", "frame 1 poll 3g", "hex"),
];

/// The word that says why two cabinets with 100 ticks left don't take a line; none where they take it.
fn refusal(line: &[u8]) -> Option<&'static str> {
    match read_request(line, 2, 100) {
        Err(untaken) => Some(word_of(untaken)),
        Ok(_) => None,
    }
}

#[test]
fn what_cannot_be_taken_has_its_word(rt: HostRuntime) {
    for (shows, line, word) in REFUSED {
        assert!(rt; refusal(line.as_bytes()) == Some(word), "{shows}");
    }
}

/// The octets of a frame.
fn octets(bytes: &[u8]) -> Octets {
    let mut octets = ArrayVec::new();
    let _ = octets.try_extend_from_slice(bytes);
    octets
}

#[test]
fn each_form_is_read(rt: HostRuntime) -> Result<(), Fail> {
    let forms = [
        ("tick 100", Request::Tick(100)),
        (
            "veh 1 4 on",
            Request::Input(1, Field::Veh { phase: 4, on: true }),
        ),
        (
            "veh 2 16 off",
            Request::Input(
                2,
                Field::Veh {
                    phase: 16,
                    on: false,
                },
            ),
        ),
        ("ped 1 8", Request::Input(1, Field::Ped { phase: 8 })),
        (
            "preempt 2 8 on",
            Request::Input(
                2,
                Field::Preempt {
                    number: 8,
                    on: true,
                },
            ),
        ),
        (
            "frame 1 poll 30aF",
            Request::Frame(1, Way::Poll, octets(&[0x30, 0xaf])),
        ),
        (
            "frame 2 load 00",
            Request::Frame(2, Way::Load, octets(&[0])),
        ),
        (
            "frame 1 priority ",
            Request::Frame(1, Way::Prio, octets(&[])),
        ),
    ];
    for (line, request) in forms {
        assert!(rt;
            read_request(line.as_bytes(), 2, 100) == Ok(request),
            "{line}"
        );
    }
    Ok(())
}

#[test]
fn a_line_of_4097_octets_is_no_request(rt: HostRuntime) {
    let mut line = [b'0'; 4097];
    line[..13].copy_from_slice(b"frame 1 poll ");
    assert!(rt; refusal(&line) == Some("request"));
    assert!(rt; refusal(&line[..4095]) == Some("hex"));
}

/// A first line, two lines, one of 4,096 octets, two longer ones, a line, and what no newline ends.
fn text(alloc: Global) -> Result<Vec<u8>, Fail> {
    let mut text = Vec::new(alloc);
    text.extend_from_slice(b"{}\ntick 1\n\n")?;
    for length in [4096, 4097, 20000] {
        for _ in 0..length {
            text.push(b'x')?;
        }
        text.push(b'\n')?;
    }
    text.extend_from_slice(b"veh 1 2 on\ntick 1")?;
    Ok(text)
}

/// Whether this line comes next.
fn comes(lines: &mut LineReader, source: &mut MemSource, due: &[u8]) -> bool {
    lines.next(source) == Ok(Next::Line) && lines.line() == due
}

/// Whether the lines of the text after its first come next.
fn others_come(lines: &mut LineReader, source: &mut MemSource) -> bool {
    comes(lines, source, b"tick 1")
        && comes(lines, source, b"")
        && comes(lines, source, &[b'x'; 4096])
        && lines.next(source) == Ok(Next::Long)
        && lines.next(source) == Ok(Next::Long)
        && comes(lines, source, b"veh 1 2 on")
        && lines.next(source) == Ok(Next::End)
}

/// Whether the lines of the text come where a read gives at most that many octets.
fn come_in_pieces(alloc: Global, text: &[u8], most: usize) -> Result<bool, Fail>
    requires { 0 < most }
{
    let bytes = Vec::from_slice(alloc, text)?;
    let mut source = MemSource::in_pieces(bytes, Vec::new(alloc), most);
    let mut lines = LineReader::new(alloc).ok().ok_or("no memory")?;
    let first = lines
        .first(alloc, &mut source, 2)
        .ok()
        .ok_or("the first line")?;
    Ok(first.as_slice() == b"{}".as_slice() && others_come(&mut lines, &mut source))
}

#[test]
fn lines_in_pieces_are_the_same_lines(rt: HostRuntime) -> Result<(), Fail> {
    let text = text(rt.alloc())?;
    for most in [1, 2, 7, 4095, 4096, 4097] {
        assert!(rt; come_in_pieces(rt.alloc(), &text, most)?, "{most}");
    }
    Ok(())
}
