//! Sources and sinks that move small pieces, the bytes that each call moves and the calls that fail; and the adapters over a reader and
//! over a writer in memory.
use io_edge::{Failed, MemSink, MemSource, Sink, Source, StdSink, StdSource};
use std::fs::File;
use std::io::{BufReader, BufWriter};
use std::test::Fail;

#[test]
fn a_source_gives_two_bytes_at_a_time(rt: HostRuntime) -> Result<(), Fail> {
    let alloc = rt.alloc();
    let bytes = vec![in alloc; 1, 2, 3, 4, 5]?;
    let mut source = MemSource::in_pieces(bytes, vec![in alloc; 2]?, 2);
    let mut buf = [0u8; 8];
    for (due, front) in [
        (Ok(2), [1, 2]),
        (Err(Failed), [1, 2]),
        (Ok(2), [3, 4]),
        (Ok(1), [5, 4]),
        (Ok(0), [5, 4]),
    ] {
        assert!(rt; source.read(&mut buf) == due);
        assert!(rt; &buf[..2] == &front[..]);
    }
    Ok(())
}

#[test]
fn a_sink_takes_two_bytes_at_a_time(rt: HostRuntime) -> Result<(), Fail> {
    let alloc = rt.alloc();
    let Ok(mut sink) = MemSink::in_pieces(alloc, 5, vec![in alloc; 3]?, 2) else {
        panic!(rt; "no memory")
    };
    for due in [Ok(2), Ok(2), Err(Failed), Ok(1), Err(Failed)] {
        assert!(rt; sink.write(&[7, 8, 9]) == due);
    }
    assert!(rt; sink.bytes().as_slice() == &[7u8, 8, 7, 8, 7][..]);
    Ok(())
}

#[test]
fn a_source_over_a_reader_gives_its_bytes(rt: HostRuntime) -> Result<(), Fail> {
    let mut source = StdSource::new(&b"3412"[..]);
    let mut buf = [0u8; 3];
    assert!(rt; source.read(&mut buf) == Ok(3));
    assert!(rt; &buf[..] == &b"341"[..]);
    assert!(rt; source.read(&mut buf) == Ok(1));
    assert!(rt; &buf[..1] == &b"2"[..]);
    assert!(rt; source.read(&mut buf) == Ok(0));
    Ok(())
}

#[test]
fn a_sink_over_a_writer_gives_it_the_bytes(rt: HostRuntime) -> Result<(), Fail> {
    let alloc = rt.alloc();
    let mut sink = StdSink::new(Vec::new(alloc));
    assert!(rt; sink.write(b"34") == Ok(2));
    assert!(rt; sink.write(b"12") == Ok(2));
    let bytes: Vec<u8> = sink.into_inner();
    assert!(rt; bytes.as_slice() == &b"3412"[..]);
    Ok(())
}

#[test]
fn a_source_over_a_buffered_file_gives_its_bytes(rt: HostRuntime) -> Result<(), Fail> {
    for (path, count, bytes) in [("/dev/zero", 3, [0, 0, 0]), ("/dev/null", 0, [7, 7, 7])] {
        let Ok(file) = File::open(&rt, path) else {
            panic!(rt; "no such device")
        };
        let Ok(reader) = BufReader::new(rt.alloc(), file) else {
            panic!(rt; "no memory")
        };
        let mut source = StdSource::new(reader);
        let mut buf = [7u8; 3];
        assert!(rt; source.read(&mut buf) == Ok(count));
        assert!(rt; buf == bytes);
    }
    Ok(())
}

#[test]
fn a_sink_over_a_file_without_room_fails(rt: HostRuntime) -> Result<(), Fail> {
    let Ok(file) = File::create(&rt, "/dev/full") else {
        panic!(rt; "no such device")
    };
    let mut sink = StdSink::new(file);
    assert!(rt; sink.write(b"34") == Err(Failed));
    Ok(())
}

#[test]
fn a_sink_over_a_buffered_writer_gives_it_the_bytes(rt: HostRuntime) -> Result<(), Fail> {
    let alloc = rt.alloc();
    let Ok(writer) = BufWriter::new(alloc, Vec::new(alloc)) else {
        panic!(rt; "no memory")
    };
    let mut sink = StdSink::new(writer);
    assert!(rt; sink.write(b"34") == Ok(2));
    assert!(rt; sink.write(b"12") == Ok(2));
    let Ok(bytes) = sink.into_inner().into_inner() else {
        panic!(rt; "no memory")
    };
    assert!(rt; bytes.as_slice() == &b"3412"[..]);
    Ok(())
}
