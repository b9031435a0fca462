//! Sources and sinks in memory, some of whose calls fail, by their numbers from 1; and a gate that is always open. A
//! listed number is of 32 bits, so of the calls past 4,294,967,295 none fails by the list. They move as much as they
//! can, or pieces of at most N bytes, as a file, a pipe or a line may.

ghost use Rattle.std.specs.Prelude.{◌≡◌, ◌<◌, ◌≤◌, ◌+◌, ◌-◌, ◌↔◌, ◌⊎◌, [], ℕ, Some, take, drop, length, min, IfOk, OnOk, OnErr, IsErr, IsTrue, true, vec_len, vec_capacity};
ghost use Rattle.io_edge.specs.Edge.{Rises, Stays, Reads, Appends};
ghost use Rattle.io_edge.specs.Calls.{FailsAt, one_more};

use crate::{Failed, Gate, Sink, Source};
use sig_types::NoMemory;
use std::alloc::Global;

/// A source over bytes in memory.
#[derive(Drop)]
pub struct MemSource {
    bytes: Vec<u8>,
    at: usize,
    fails: Vec<u32>,
    calls: u64,
    faults: u64,
    most: usize,
    ghost within: { at ≤ vec_len bytes },
    ghost moves: { 0 < most },
}

impl MemSource {
    ghost use Rattle.io_edge.specs.Memory.{left_of, reads_so_far, source_faults, failing_reads, most_read};

    /// A source of these bytes, whose reads of the listed numbers fail.
    pub fn new(bytes: Vec<u8>, fails: Vec<u32>) -> MemSource
        ensures left { left_of result ≡ bytes.items }
        ensures fails { failing_reads result ≡ fails.items }
        ensures unread { reads_so_far result ≡ 0 }
        ensures faultless { source_faults result ≡ 0 }
        ensures whole { most_read result ≡ 18446744073709551615 }
    {
        MemSource::in_pieces(bytes, fails, usize::MAX)
    }

    /// A source of these bytes, each of whose reads gives at most N of them, at least 1, and whose reads of the listed
    /// numbers fail.
    pub fn in_pieces(bytes: Vec<u8>, fails: Vec<u32>, most: usize) -> MemSource
        requires { 0 < most }
        ensures left { left_of result ≡ bytes.items }
        ensures fails { failing_reads result ≡ fails.items }
        ensures unread { reads_so_far result ≡ 0 }
        ensures faultless { source_faults result ≡ 0 }
        ensures pieces { most_read result ≡ most }
    {
        MemSource {
            bytes,
            at: 0,
            fails,
            calls: 0,
            faults: 0,
            most,
        }
    }
}

impl Source for MemSource {
    ghost use Rattle.io_edge.specs.Memory.{left_of, source_faults, failing_reads, reads_so_far, most_read};

    ghost left = { λ s. Some (left_of s) };

    ghost faults = { source_faults };

    ghost counts_exactly = { true };

    fn read(&mut self, buf: &mut [u8]) -> Result<usize, Failed>
        requires { 0 < length buf.old }
        ensures count { IfOk result (λ n. n ≤ length buf.new) }
        ensures moved { IfOk result (λ n. n ≡ min (min (length (left_of self.old)) (length buf.old)) (most_read self.old)) }
        ensures ok { IfOk result (λ n. Reads (Some (left_of self.old)) (Some (left_of self.new)) (take n buf.new)) }
        ensures err { OnErr result (left_of self.new ≡ left_of self.old) }
        ensures fault { OnErr result (Rises (source_faults self.old) (source_faults self.new)) }
        ensures kept { source_faults self.old ≤ source_faults self.new }
        ensures failed { IsErr result ↔ FailsAt (failing_reads self.old) (reads_so_far self.old) }
        ensures counts { OnOk result (source_faults self.new ≡ source_faults self.old) }
        ensures exact { OnOk result (Stays true (source_faults self.old) (source_faults self.new)) }
        ensures counts_fault { OnErr result (source_faults self.new ≡ one_more (source_faults self.old)) }
        ensures list { failing_reads self.new ≡ failing_reads self.old }
        ensures counted { reads_so_far self.new ≡ one_more (reads_so_far self.old) }
        ensures pieces { most_read self.new ≡ most_read self.old }
    {
        let fails = is_listed(&self.fails, self.calls);
        self.calls = self.calls.saturating_add(1);
        if fails {
            self.faults = self.faults.saturating_add(1);
            return Err(Failed);
        }
        let count = copy_front(buf, &self.bytes[self.at..], self.most);
        self.at += count;
        Ok(count)
    }
}

/// A sink in memory, with room for N bytes.
#[derive(Drop)]
pub struct MemSink {
    bytes: Vec<u8>,
    room: usize,
    fails: Vec<u32>,
    calls: u64,
    faults: u64,
    most: usize,
    ghost within: { vec_len bytes ≤ room },
    ghost fits: { room ≤ vec_capacity bytes },
    ghost moves: { 0 < most },
}

impl MemSink {
    ghost use Rattle.io_edge.specs.Memory.{written_of, room_left, writes_so_far, sink_faults, failing_writes, most_written};

    /// An empty sink with room for N bytes, whose writes of the listed numbers fail. The room is taken here; a write
    /// takes no memory.
    pub fn new(alloc: Global, room: usize, fails: Vec<u32>) -> Result<MemSink, NoMemory>
        ensures empty { IfOk result (λ s. written_of s ≡ []) }
        ensures room { IfOk result (λ s. room_left s ≡ room) }
        ensures fails { IfOk result (λ s. failing_writes s ≡ fails.items) }
        ensures unwritten { IfOk result (λ s. writes_so_far s ≡ 0) }
        ensures faultless { IfOk result (λ s. sink_faults s ≡ 0) }
        ensures whole { IfOk result (λ s. most_written s ≡ 18446744073709551615) }
    {
        MemSink::in_pieces(alloc, room, fails, usize::MAX)
    }

    /// An empty sink with room for N bytes, each of whose writes takes at most N bytes of a piece, at least 1, and
    /// whose writes of the listed numbers fail. The room is taken here; a write takes no memory.
    pub fn in_pieces(
        alloc: Global,
        room: usize,
        fails: Vec<u32>,
        most: usize,
    ) -> Result<MemSink, NoMemory>
        requires { 0 < most }
        ensures empty { IfOk result (λ s. written_of s ≡ []) }
        ensures room { IfOk result (λ s. room_left s ≡ room) }
        ensures fails { IfOk result (λ s. failing_writes s ≡ fails.items) }
        ensures unwritten { IfOk result (λ s. writes_so_far s ≡ 0) }
        ensures faultless { IfOk result (λ s. sink_faults s ≡ 0) }
        ensures pieces { IfOk result (λ s. most_written s ≡ most) }
    {
        let Ok(bytes) = Vec::with_capacity(alloc, room) else {
            return Err(NoMemory);
        };
        Ok(MemSink {
            bytes,
            room,
            fails,
            calls: 0,
            faults: 0,
            most,
        })
    }

    /// What was written.
    pub fn bytes(&self) -> &Vec<u8>
        ensures { result.now.items ≡ written_of self.now }
    {
        &self.bytes
    }
}

impl Sink for MemSink {
    ghost use Rattle.io_edge.specs.Memory.{written_of, sink_faults, room_left, failing_writes, writes_so_far, most_written};

    ghost written = { λ s. Some (written_of s) };

    ghost faults = { sink_faults };

    ghost counts_exactly = { true };

    fn write(&mut self, piece: &[u8]) -> Result<usize, Failed>
        ensures count { IfOk result (λ n. n ≤ length piece.now) }
        ensures some { IfOk result (λ n. 0 < length piece.now → 0 < n) }
        ensures fits { IfOk result (λ n. n ≡ min (min (room_left self.old) (length piece.now)) (most_written self.old)) }
        ensures ok { IfOk result (λ n. Appends (Some (written_of self.old)) (Some (written_of self.new)) (take n piece.now)) }
        ensures err { OnErr result (Some (written_of self.new) ≡ Some (written_of self.old)) }
        ensures fault { OnErr result (Rises (sink_faults self.old) (sink_faults self.new)) }
        ensures kept { sink_faults self.old ≤ sink_faults self.new }
        ensures failed { IsErr result ↔ (FailsAt (failing_writes self.old) (writes_so_far self.old) ⊎ ((room_left self.old ≡ 0) × (0 < length piece.now))) }
        ensures counts { OnOk result (sink_faults self.new ≡ sink_faults self.old) }
        ensures exact { OnOk result (Stays true (sink_faults self.old) (sink_faults self.new)) }
        ensures counts_fault { OnErr result (sink_faults self.new ≡ one_more (sink_faults self.old)) }
        ensures room { IfOk result (λ n. room_left self.new + n ≡ room_left self.old) }
        ensures room_kept { OnErr result (room_left self.new ≡ room_left self.old) }
        ensures list { failing_writes self.new ≡ failing_writes self.old }
        ensures counted { writes_so_far self.new ≡ one_more (writes_so_far self.old) }
        ensures pieces { most_written self.new ≡ most_written self.old }
    {
        let fails = is_listed(&self.fails, self.calls);
        self.calls = self.calls.saturating_add(1);
        let room = self.room - self.bytes.len();
        if fails || room == 0 && !piece.is_empty() {
            self.faults = self.faults.saturating_add(1);
            return Err(Failed);
        }
        let count = room.min(piece.len()).min(self.most);
        // There is room, so this takes no memory.
        let _ = self.bytes.extend_from_slice(&piece[..count]);
        Ok(count)
    }
}

/// A gate that does nothing: nobody waits there.
pub struct OpenGate;

impl Gate for OpenGate {
    fn at(&self, _pass: u32, _cab: u32) {}
}

/// Whether the call after that many is in the list.
fn is_listed(fails: &[u32], calls: u64) -> bool
    ensures { IsTrue result ↔ FailsAt fails.now calls }
{
    calls < 4_294_967_295 && fails.iter().any(|n| u64::from(*n) == calls + 1)
}

/// Copies the first bytes, as many as fit and at most that many, and says how many.
fn copy_front(buf: &mut [u8], from: &[u8], most: usize) -> usize
    ensures count { result ≡ min (min (length from.now) (length buf.old)) most }
    ensures front { take result buf.new ≡ take result from.now }
{
    let count = from.len().min(buf.len()).min(most);
    buf[..count].copy_from_slice(&from[..count]);
    count
}
