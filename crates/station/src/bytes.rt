//! All bytes of a source, up to a limit.

ghost use Rattle.std.specs.Prelude.{◌≡◌, ◌<◌, ◌≤◌, ◌+◌, Some, Err, take, drop, length, IfOk, IfSome, OnOk, OnErr};
ghost use Rattle.io_edge.specs.Edge.{Rises, Stays, Reads};
ghost use Rattle.station.specs.Bytes.{nothing_left};

use io_edge::{Failed, Source};
use std::alloc::Global;

/// Why a source was not read to its end.
#[derive(Clone, Copy, PartialEq, Eq)]
pub enum ReadEnd {
    Fault,
    TooLong,
    NoMemory,
}

/// How many bytes are asked for at a time.
const PIECE: usize = 4096;

/// The next bytes of a source, at most that many, at the front of the buffer.
fn read_most<S: Source>(source: &mut S, buf: &mut [u8], most: usize) -> Result<usize, Failed>
    requires some { 0 < most }
    requires room { 0 < length buf.old }
    ensures count { IfOk result (λ n. n ≤ length buf.new) }
    ensures most { IfOk result (λ n. n ≤ most) }
    ensures ok { IfOk result (λ n. Reads (S.left source.old) (S.left source.new) (take n buf.new)) }
    ensures fault { OnErr result (Rises (S.faults source.old) (S.faults source.new)) }
    ensures exact { OnOk result (Stays S.counts_exactly (S.faults source.old) (S.faults source.new)) }
    ensures kept { S.faults source.old ≤ S.faults source.new }
    ensures len { length buf.new ≡ length buf.old }
{
    let room = most.min(buf.len());
    source.read(&mut buf[..room])
}

/// All bytes that the source has left, `limit` at the most; no more than one past the limit is read.
pub fn read_all<S: Source>(alloc: Global, source: &mut S, limit: usize) -> Result<Vec<u8>, ReadEnd>
    requires { limit < 4294967296 }
    ensures whole { IfOk result (λ v. IfSome (S.left source.old) (λ bytes. v.items ≡ bytes)) }
    ensures ended { OnOk result (S.left source.new ≡ nothing_left (S.left source.old)) }
    ensures short { IfOk result (λ v. length v.items ≤ limit) }
    ensures fault { result ≡ Err ReadEnd.Fault → Rises (S.faults source.old) (S.faults source.new) }
    ensures long { result ≡ Err ReadEnd.TooLong → IfSome (S.left source.old) (λ bytes. limit < length bytes) }
    ensures stopped { result ≡ Err ReadEnd.TooLong → IfSome (S.left source.old) (λ bytes. S.left source.new ≡ Some (drop (limit + 1) bytes)) }
    ensures exact { OnOk result (Stays S.counts_exactly (S.faults source.old) (S.faults source.new)) }
    ensures kept { S.faults source.old ≤ S.faults source.new }
{
    let mut bytes = Vec::new(alloc);
    let mut buf = [0u8; PIECE];
    loop {
        let count = match read_most(source, &mut buf, limit + 1 - bytes.len()) {
            Ok(count) => count,
            Err(Failed) => return Err(ReadEnd::Fault),
        };
        if count == 0 {
            return Ok(bytes);
        }
        if bytes.extend_from_slice(&buf[..count]).is_err() {
            return Err(ReadEnd::NoMemory);
        }
        if bytes.len() > limit {
            return Err(ReadEnd::TooLong);
        }
    }
}
