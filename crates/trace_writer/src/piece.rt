//! A whole piece of bytes into a sink, whose writes may each take a part of it.

ghost use Rattle.std.specs.Prelude.{◌≤◌, OnOk, OnErr};
ghost use Rattle.io_edge.specs.Edge.{Rises, Stays, Appends};
ghost use Rattle.trace_writer.specs.Bytes.{AppendsFront};

use io_edge::{Failed, Sink};

/// Writes the whole piece; where a write fails, a prefix of it, and not all of it.
pub fn put_all<K: Sink>(sink: &mut K, piece: &[u8]) -> Result<(), Failed>
    ensures ok { OnOk result (Appends (K.written sink.old) (K.written sink.new) piece.now) }
    ensures err { OnErr result (AppendsFront (K.written sink.old) (K.written sink.new) piece.now) }
    ensures fault { OnErr result (Rises (K.faults sink.old) (K.faults sink.new)) }
    ensures exact { OnOk result (Stays K.counts_exactly (K.faults sink.old) (K.faults sink.new)) }
    ensures kept { K.faults sink.old ≤ K.faults sink.new }
{
    let mut rest = piece;
    while !rest.is_empty() {
        match sink.write(rest) {
            Ok(count) => rest = &rest[count..],
            Err(Failed) => return Err(Failed),
        }
    }
    Ok(())
}
