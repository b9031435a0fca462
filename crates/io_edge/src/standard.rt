//! Adapters over readers and writers: standard input and output, files, buffers before and after them, bytes in
//! memory, and any other type that implements `SteadyRead` or `SteadyWrite`. If the reader states the bytes that are
//! left, the source states the same; if the writer states the bytes that were written, the sink does. Standard input
//! and output and files state nothing: what is outside the program is trusted.

ghost use Rattle.std.specs.Prelude.{◌≡◌, ◌<◌, ◌≤◌, None, take, length, IfOk, OnOk, OnErr, true};
ghost use Rattle.std.proofs.Common.{ap};
ghost use Rattle.io_edge.specs.Calls.{one_more};
ghost use Rattle.io_edge.specs.Edge.{Rises, Stays, Reads, Appends, told_as};
ghost use Rattle.io_edge.specs.Standard.{reader_of, reader_faults, writer_of, writer_faults};
ghost use Rattle.io_edge.specs.Silent.{silent_buffer, steady_buffer};

use crate::{Failed, Sink, Source};
use std::alloc::Allocator;
use std::boxed::Box;
use std::collections::VecDeque;
use std::fs::File;
use std::io::{BufReader, BufWriter, LineWriter, Read, Stderr, Stdin, Stdout, Write};

/// A reader that states the bytes that are left at all times, or at none. A reader that states them only now and then
/// can't be a source: it could state other bytes than those that it gave meanwhile.
pub trait SteadyRead: Read {
    /// If it states nothing once, it never states anything.
    ghost steady: { (r q : Self) → Self.remaining r ≡ None → Self.remaining q ≡ None };
}

/// A writer that states the bytes that were written at all times, or at none.
pub trait SteadyWrite: Write {
    /// If it states nothing once, it never states anything.
    ghost steady: { (w v : Self) → Self.contents w ≡ None → Self.contents v ≡ None };
}

impl SteadyRead for Stdin {
    ghost steady = { λ r q none. none };
}

impl SteadyRead for &[u8] {
    ghost steady = { λ r q none. ap (told_as q.now) none };
}

impl SteadyRead for File {
    ghost steady = { λ r q none. none };
}

impl SteadyRead for &File {
    ghost steady = { λ r q none. none };
}

impl<A: Allocator> SteadyRead for BufReader<File, A> {
    ghost steady = { λ r q none. silent_buffer q };
}

impl<A: Allocator> SteadyRead for BufReader<Stdin, A> {
    ghost steady = { λ r q none. silent_buffer q };
}

impl<A: Allocator> SteadyRead for VecDeque<u8, A> {
    ghost steady = { λ r q none. ap (told_as q.items) none };
}

impl<R: SteadyRead, A: Allocator> SteadyRead for Box<R, A> {
    ghost steady = { λ r q none. R.steady r.value q.value none };
}

impl SteadyWrite for Stdout {
    ghost steady = { λ w v none. none };
}

impl SteadyWrite for Stderr {
    ghost steady = { λ w v none. none };
}

impl SteadyWrite for Vec<u8> {
    ghost steady = { λ w v none. ap (told_as v.items) none };
}

impl SteadyWrite for File {
    ghost steady = { λ w v none. none };
}

impl SteadyWrite for &File {
    ghost steady = { λ w v none. none };
}

impl<W: SteadyWrite + Drop, A: Allocator> SteadyWrite for BufWriter<W, A> {
    ghost steady = { λ w v none. steady_buffer W.contents W.steady w v none };
}

impl<W: SteadyWrite + Drop, A: Allocator> SteadyWrite for LineWriter<W, A> {
    ghost steady = { λ w v none. steady_buffer W.contents W.steady w.buffered v.buffered none };
}

impl<A: Allocator> SteadyWrite for VecDeque<u8, A> {
    ghost steady = { λ w v none. ap (told_as v.items) none };
}

impl<W: SteadyWrite, A: Allocator> SteadyWrite for Box<W, A> {
    ghost steady = { λ w v none. W.steady w.value v.value none };
}

/// A source over a reader, which counts the reads that fail.
#[derive(Drop)]
pub struct StdSource<R: Drop> {
    inner: R,
    faults: u64,
}

impl<R: Drop> StdSource<R> {
    /// A source over this reader.
    pub fn new(r: R) -> StdSource<R>
        ensures reader { reader_of result ≡ r }
        ensures faultless { reader_faults result ≡ 0 }
    {
        StdSource {
            inner: r,
            faults: 0,
        }
    }

    /// The reader, as the source left it.
    pub fn into_inner(self) -> R
        ensures { result ≡ reader_of self }
    {
        self.inner
    }
}

impl<R: SteadyRead + Drop> Source for StdSource<R> {
    ghost left = { λ s. R.remaining (reader_of s) };

    ghost faults = { λ s. reader_faults s };

    ghost counts_exactly = { true };

    fn read(&mut self, buf: &mut [u8]) -> Result<usize, Failed>
        requires { 0 < length buf.old }
        ensures count { IfOk result (λ n. n ≤ length buf.new) }
        ensures ok { IfOk result (λ n. Reads (R.remaining (reader_of self.old)) (R.remaining (reader_of self.new)) (take n buf.new)) }
        ensures err { OnErr result (R.remaining (reader_of self.new) ≡ R.remaining (reader_of self.old)) }
        ensures counts { OnOk result (reader_faults self.new ≡ reader_faults self.old) }
        ensures exact { OnOk result (Stays true (reader_faults self.old) (reader_faults self.new)) }
        ensures counts_fault { OnErr result (reader_faults self.new ≡ one_more (reader_faults self.old)) }
        ensures fault { OnErr result (Rises (reader_faults self.old) (reader_faults self.new)) }
        ensures kept { reader_faults self.old ≤ reader_faults self.new }
    {
        match self.inner.read(buf) {
            Ok(count) => Ok(count),
            Err(_) => {
                self.faults = self.faults.saturating_add(1);
                Err(Failed)
            }
        }
    }
}

/// A sink over a writer, which counts the writes that fail, or take nothing of a piece that isn't empty.
#[derive(Drop)]
pub struct StdSink<W: Drop> {
    inner: W,
    faults: u64,
}

impl<W: Drop> StdSink<W> {
    /// A sink over this writer.
    pub fn new(w: W) -> StdSink<W>
        ensures writer { writer_of result ≡ w }
        ensures faultless { writer_faults result ≡ 0 }
    {
        StdSink {
            inner: w,
            faults: 0,
        }
    }

    /// The writer, as the sink left it.
    pub fn into_inner(self) -> W
        ensures { result ≡ writer_of self }
    {
        self.inner
    }
}

impl<W: SteadyWrite + Drop> Sink for StdSink<W> {
    ghost written = { λ s. W.contents (writer_of s) };

    ghost faults = { λ s. writer_faults s };

    ghost counts_exactly = { true };

    fn write(&mut self, piece: &[u8]) -> Result<usize, Failed>
        ensures count { IfOk result (λ n. n ≤ length piece.now) }
        ensures some { IfOk result (λ n. 0 < length piece.now → 0 < n) }
        ensures ok { IfOk result (λ n. Appends (W.contents (writer_of self.old)) (W.contents (writer_of self.new)) (take n piece.now)) }
        ensures err { OnErr result (W.contents (writer_of self.new) ≡ W.contents (writer_of self.old)) }
        ensures counts { OnOk result (writer_faults self.new ≡ writer_faults self.old) }
        ensures exact { OnOk result (Stays true (writer_faults self.old) (writer_faults self.new)) }
        ensures counts_fault { OnErr result (writer_faults self.new ≡ one_more (writer_faults self.old)) }
        ensures fault { OnErr result (Rises (writer_faults self.old) (writer_faults self.new)) }
        ensures kept { writer_faults self.old ≤ writer_faults self.new }
    {
        match self.inner.write(piece) {
            Ok(count) if count > 0 || piece.is_empty() => Ok(count),
            _ => {
                self.faults = self.faults.saturating_add(1);
                Err(Failed)
            }
        }
    }
}
