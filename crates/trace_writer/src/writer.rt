//! The writer of a trace: it takes lines over, holds their bytes, and writes these in pieces.

ghost use Rattle.std.specs.Prelude.{◌≡◌, ◌≤◌, [], OnOk, IfOk, vec_capacity};
ghost use Rattle.trace_text.specs.Line.{line_text};

use crate::piece::put_all;
use io_edge::{Failed, Sink};
use sig_types::{NoMemory, Octets};
use std::alloc::Global;
use trace_text::{Line, Runs, same_octets, write_line};

/// Why a trace was not written whole.
#[derive(Clone, Copy, PartialEq, Eq)]
pub enum Stop {
    /// A write failed.
    WriteFault,
    /// There was not memory enough.
    NoMemory,
}

/// The most bytes that are held.
const PIECE: usize = 32_768;

/// The bytes that were handed over and are not yet written, and the memory for lines.
#[derive(Drop)]
pub struct Writer {
    alloc: Global,
    held: Vec<u8>,
    ghost room: { 32768 ≤ vec_capacity held },
}

impl Writer {
    ghost use Rattle.trace_writer.specs.Handing.{held_by, HandsOver, Writes};

    /// A writer that holds nothing. The room for what it holds is taken here.
    pub fn new(alloc: Global) -> Result<Writer, NoMemory>
        ensures { IfOk result (λ w. held_by w ≡ []) }
    {
        let Ok(held) = Vec::with_capacity(alloc, PIECE) else {
            return Err(NoMemory);
        };
        Ok(Writer { alloc, held })
    }

    /// Writes all that is held.
    fn flush<K: Sink>(&mut self, sink: &mut K) -> Result<(), Stop>
        ensures writes { Writes K.written K.faults K.counts_exactly result sink.old sink.new (held_by self.old) }
        ensures none { OnOk result (held_by self.new ≡ []) }
    {
        match put_all(sink, self.held.as_slice()) {
            Ok(()) => {
                self.held.clear();
                Ok(())
            }
            Err(Failed) => Err(Stop::WriteFault),
        }
    }

    /// Takes the bytes over, and writes what is held if there isn't room for them. It takes no memory.
    pub fn put<K: Sink>(&mut self, sink: &mut K, bytes: &[u8]) -> Result<(), Stop>
        ensures { HandsOver K.written K.faults K.counts_exactly result self.old self.new sink.old sink.new bytes.now }
    {
        if self.held.len() + bytes.len() <= PIECE {
            // There is room, so this takes no memory.
            let _ = self.held.extend_from_slice(bytes);
            return Ok(());
        }
        match self.flush(sink) {
            Ok(()) => {}
            Err(stop) => return Err(stop),
        }
        if bytes.len() <= PIECE {
            let _ = self.held.extend_from_slice(bytes);
            return Ok(());
        }
        match put_all(sink, bytes) {
            Ok(()) => Ok(()),
            Err(Failed) => Err(Stop::WriteFault),
        }
    }

    /// Takes a line over.
    pub fn put_line<K: Sink>(&mut self, sink: &mut K, line: &Line) -> Result<(), Stop>
        ensures { HandsOver K.written K.faults K.counts_exactly result self.old self.new sink.old sink.new (line_text line.now) }
    {
        let text = match write_line(self.alloc, line) {
            Ok(text) => text,
            Err(_) => return Err(Stop::NoMemory),
        };
        self.put(sink, text.as_slice())
    }

    /// Takes the line of a journal over, whose runs these are.
    pub fn put_journal<K: Sink>(
        &mut self,
        sink: &mut K,
        cab: u32,
        runs: &[(u32, u32)],
    ) -> Result<(), Stop>
        ensures { HandsOver K.written K.faults K.counts_exactly result self.old self.new sink.old sink.new (line_text (Line.J cab runs.now)) }
    {
        let runs = match runs.to_vec(self.alloc) {
            Ok(runs) => Runs::new(runs),
            Err(_) => return Err(Stop::NoMemory),
        };
        self.put_line(sink, &Line::J { cab, runs })
    }

    /// Takes the line of a reply over: these octets, or silence.
    pub fn put_answer<K: Sink>(
        &mut self,
        sink: &mut K,
        cab: u32,
        pass: u32,
        octets: &Option<Octets>,
    ) -> Result<(), Stop>
        ensures { HandsOver K.written K.faults K.counts_exactly result self.old self.new sink.old sink.new (line_text (Line.A cab pass octets.now)) }
    {
        let hex = same_octets(octets);
        self.put_line(sink, &Line::A { cab, pass, hex })
    }

    /// Takes the line of the scenario over, whose compact text is not copied.
    pub fn put_scenario<K: Sink>(&mut self, sink: &mut K, compact: &[u8]) -> Result<(), Stop>
        ensures { HandsOver K.written K.faults K.counts_exactly result self.old self.new sink.old sink.new (line_text (Line.S compact.now)) }
    {
        match self.put(sink, b"S ") {
            Ok(()) => {}
            Err(stop) => return Err(stop),
        }
        match self.put(sink, compact) {
            Ok(()) => {}
            Err(stop) => return Err(stop),
        }
        self.put(sink, b"\n")
    }

    /// Writes what is still held, so that all that was handed over is written.
    pub fn finish<K: Sink>(self, sink: &mut K) -> Result<(), Stop>
        ensures { Writes K.written K.faults K.counts_exactly result sink.old sink.new (held_by self) }
    {
        let mut writer = self;
        writer.flush(sink)
    }
}
