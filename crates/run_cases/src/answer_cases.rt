//! The top call over sources and sinks in memory: reads and writes that fail, little room, and the longest input. What
//! it answers where nothing fails is looked at from outside, by the built program (vectors/README.md).

use io_edge::{Gate, MemSink, MemSource, OpenGate};
use station::{Refusal, Status, station};
use std::alloc::Global;
use std::test::Fail;
use std::thread::Threads;

const ONE_ROUND: &str =
    "{\"cabinets\":[{\"base\":\"max8\"}],\"rounds\":1,\"ticks\":60,\"version\":1}";

/// An answer in words, as far as it is looked at here.
fn told(status: &Status) -> &'static str {
    match status {
        Status::Done => "done",
        Status::Scenario(Refusal::Limit(_)) => "limit",
        Status::ReadFault => "read fault",
        Status::WriteFault => "write fault",
        _ => "another answer",
    }
}

fn words_of(alloc: Global, words: &[&str]) -> Result<Vec<String>, Fail> {
    let mut owned = Vec::new(alloc);
    for word in words {
        owned.push(word.to_string(alloc)?)?;
    }
    Ok(owned)
}

/// The answer to some words over a source and a sink with these failing calls (0 for none) and with this gate, and what
/// was written.
pub fn answer<R: Threads + Sync, G: Gate + Sync>(
    rt: &R,
    alloc: Global,
    words: &[&str],
    input: Vec<u8>,
    failing: (u32, u32),
    room: usize,
    gate: &G,
) -> Result<(&'static str, Vec<u8>), Fail> {
    let mut source = MemSource::new(input, vec![in alloc; failing.0]?);
    let mut sink = MemSink::new(alloc, room, vec![in alloc; failing.1]?).map_err(|_| Fail::from(
        "no room",
    ))?;
    let owned = words_of(alloc, words)?;
    let status = station(rt, alloc, &owned, &mut source, &mut sink, gate);
    Ok((told(&status), sink.bytes().as_slice().to_vec(alloc)?))
}

fn bytes_of(alloc: Global, text: &str) -> Result<Vec<u8>, Fail> {
    Ok(text.as_bytes().to_vec(alloc)?)
}

/// The trace of one round, in which only ticks come.
const ITS_TRACE: &str =
    "S {\"cabinets\":[{\"base\":\"max8\"}],\"rounds\":1,\"ticks\":60,\"version\":1}\nF 1 0 RRRRRRRRRRRRRRRR DDDDDDDDDDDDDDDD S 0 0 0\nR 1\nJ 1 4*60\nF 1 60 RGRRRGRRRRRRRRRR DDDDDDDDDDDDDDDD F 0 0 0\nZ 1\n";

#[test]
fn a_run_by_two_workers_and_byte_by_byte_has_the_same_text(rt: HostRuntime) -> Result<(), Fail> {
    let alloc = rt.alloc();
    let commands: [&[&str]; 2] = [&["run"], &["run", "--workers", "2"]];
    for words in commands {
        let input = bytes_of(alloc, ONE_ROUND)?;
        let (said, written) = answer(&rt, alloc, words, input, (0, 0), 10_000, &OpenGate)?;
        assert!(rt; said == "done");
        assert!(rt; written.as_slice() == ITS_TRACE.as_bytes());
        let mut source = MemSource::in_pieces(bytes_of(alloc, ONE_ROUND)?, Vec::new(alloc), 1);
        let mut sink = MemSink::in_pieces(alloc, 10_000, Vec::new(alloc), 1).map_err(|_| Fail::from(
            "no room",
        ))?;
        let owned = words_of(alloc, words)?;
        let status = station(&rt, alloc, &owned, &mut source, &mut sink, &OpenGate);
        assert!(rt; told(&status) == "done");
        assert!(rt; sink.bytes().as_slice() == ITS_TRACE.as_bytes());
    }
    Ok(())
}

#[test]
fn an_input_past_the_limit_is_refused(rt: HostRuntime) -> Result<(), Fail> {
    let alloc = rt.alloc();
    for (more, due) in [(0, "done"), (1, "limit")] {
        let mut input = bytes_of(alloc, ONE_ROUND)?;
        input.resize(16_777_216 + more, b' ')?;
        let (said, written) = answer(&rt, alloc, &["run"], input, (0, 0), 10_000, &OpenGate)?;
        assert!(rt; said == due);
        assert!(rt; written.is_empty() == (more == 1));
    }
    Ok(())
}

#[test]
fn each_read_may_fail(rt: HostRuntime) -> Result<(), Fail> {
    let alloc = rt.alloc();
    // All is read by the first read, and the second finds the end.
    for (fails, due) in [(1, "read fault"), (2, "read fault"), (3, "done")] {
        let input = bytes_of(alloc, ONE_ROUND)?;
        let (said, written) = answer(&rt, alloc, &["run"], input, (fails, 0), 10_000, &OpenGate)?;
        assert!(rt; said == due);
        assert!(rt; written.is_empty() == (fails < 3));
    }
    Ok(())
}

/// An overlap.
const ARROW: [&str; 11] = [
    "overlaps",
    "--cabinet",
    "1",
    "--parents",
    "02",
    "--trail",
    "5",
    "--yellow",
    "35",
    "--red",
    "10",
];

#[test]
fn each_other_command_that_reads_tells_a_read_fault(rt: HostRuntime) -> Result<(), Fail> {
    let alloc = rt.alloc();
    let commands: [&[&str]; 4] = [&["respond"], &["band"], &["check"], &ARROW];
    for words in commands {
        let input = bytes_of(alloc, ONE_ROUND)?;
        let (said, written) = answer(&rt, alloc, words, input, (1, 0), 1000, &OpenGate)?;
        assert!(rt; said == "read fault");
        assert!(rt; written.is_empty());
    }
    Ok(())
}

#[test]
fn each_write_may_fail(rt: HostRuntime) -> Result<(), Fail> {
    let alloc = rt.alloc();
    // About 90,000 bytes: three writes.
    let input = "{\"cabinets\":[{\"base\":\"max8\"}],\"rounds\":6000,\"ticks\":1,\"version\":1}";
    let bytes = bytes_of(alloc, input)?;
    let (said, whole) = answer(&rt, alloc, &["run"], bytes, (0, 0), 100_000, &OpenGate)?;
    assert!(rt; said == "done");
    for (fails, room, due) in [
        (1, 100_000, "write fault"),
        (2, 100_000, "write fault"),
        (3, 100_000, "write fault"),
        (4, 100_000, "done"),
        (0, 0, "write fault"),
        (0, 50_000, "write fault"),
    ] {
        let bytes = bytes_of(alloc, input)?;
        let (said, written) = answer(&rt, alloc, &["run"], bytes, (0, fails), room, &OpenGate)?;
        assert!(rt; said == due);
        assert!(rt; whole.starts_with(written.as_slice()));
        assert!(rt; (written.len() == whole.len()) == (due == "done"));
    }
    Ok(())
}

/// A field file: a detector of phase 3 that is on in rounds 5 to 8, past its delay of two rounds in 7 and 8, and
/// extended for one.
const DELAYED: &str =
    "{\"scenario\":{\"version\":1,\"rounds\":20,\"ticks\":1,\"cabinets\":[{}]},\"bank\":[{\"cabinet\":1,\"detector\":1,\"phase\":3,\"delay\":2,\"extend\":1,\"no_activity\":0,\"max_presence\":0,\"erratic\":0}],\"pulses\":[{\"round\":5,\"cabinet\":1,\"detector\":1,\"on\":true},{\"round\":9,\"cabinet\":1,\"detector\":1,\"on\":false}]}";

/// Its scenario.
const CALLED: &str =
    "{\"cabinets\":[{}],\"inputs\":[{\"cabinet\":1,\"on\":true,\"round\":7,\"veh\":3},{\"cabinet\":1,\"on\":false,\"round\":10,\"veh\":3}],\"rounds\":20,\"ticks\":1,\"version\":1}\n";

#[test]
fn respond_tells_a_write_fault(rt: HostRuntime) -> Result<(), Fail> {
    let alloc = rt.alloc();
    let bytes = bytes_of(alloc, DELAYED)?;
    let (said, written) = answer(&rt, alloc, &["respond"], bytes, (0, 0), 100, &OpenGate)?;
    assert!(rt; said == "write fault");
    assert!(rt; CALLED.as_bytes().starts_with(written.as_slice()));
    Ok(())
}

/// Words that read nothing, a room in bytes that is too small for the text they write, and the text's first words.
const READ_NOTHING: [(&[&str], usize, &str); 4] = [
    (&["--help"], 20, "arterial: a simulator"),
    (&["--version"], 12, "arterial 0.8\n"),
    (
        &[
            "generate",
            "--seed",
            "0",
            "--cabinets",
            "1",
            "--rounds",
            "1",
        ],
        100,
        "{\"cabinets\":[{\"base\":\"std8\",\"cells\":[[\"pattern\",1,3,0],[\"unit\",1,2]],\"pattern\":1}],\"faults\":[],\"inputs\":[{",
    ),
    (
        &["survey", "--seed", "0", "--cabinets", "1", "--rounds", "1"],
        60,
        "cabinets 1\nrounds 1\nticks 100\nframes 2\nreplies 2\naccepted 0\nrefused 0\n",
    ),
];

#[test]
fn words_that_read_nothing_write_their_text(rt: HostRuntime) -> Result<(), Fail> {
    let alloc = rt.alloc();
    for (words, room, text) in READ_NOTHING {
        // The first read would fail.
        let none = Vec::new(alloc);
        let (said, written) = answer(&rt, alloc, words, none, (1, 0), 10_000, &OpenGate)?;
        assert!(rt; said == "done");
        assert!(rt; written.as_slice().starts_with(text.as_bytes()));
        // The first write fails too.
        let none = Vec::new(alloc);
        let (said, written) = answer(&rt, alloc, words, none, (1, 1), 10_000, &OpenGate)?;
        assert!(rt; said == "write fault");
        assert!(rt; written.is_empty());
        // There is little room.
        let none = Vec::new(alloc);
        let (said, written) = answer(&rt, alloc, words, none, (1, 0), room, &OpenGate)?;
        assert!(rt; said == "write fault");
        assert!(rt; text.as_bytes().starts_with(written.as_slice()));
    }
    Ok(())
}
