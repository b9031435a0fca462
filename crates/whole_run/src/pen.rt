//! A teller that writes the lines that it is given.

ghost use Rattle.std.specs.Prelude.{◌≡◌};
ghost use Rattle.whole_run.specs.Pens.{pen_told, pen_stopped, stop_out_of_memory};
ghost use Rattle.whole_run.specs.PenLaws.{pen_laws};

use io_edge::Sink;
use sig_types::Octets;
use trace_tell::Teller;
use trace_text::Line;
use trace_writer::{Stop, Writer};

/// A writer, and the sink that it writes to. It borrows both, so its caller knows what it leaves of them.
#[derive(Drop)]
pub struct Pen<'a, K: Sink> {
    pub writer: &'a mut Writer,
    pub sink: &'a mut K,
}

impl<'a, K: Sink> Teller for Pen<'a, K> {
    type Fail = Stop;

    ghost told = { pen_told K.written K.faults K.counts_exactly };

    ghost stopped = { pen_stopped K.written K.faults K.counts_exactly };

    ghost out_of_memory = { stop_out_of_memory };

    fn tell(&mut self, line: &Line) -> Result<(), Stop> {
        self.writer.put_line(self.sink, line)
    }

    fn tell_journal(&mut self, cab: u32, runs: &[(u32, u32)]) -> Result<(), Stop> {
        self.writer.put_journal(self.sink, cab, runs)
    }

    fn tell_answer(&mut self, cab: u32, pass: u32, octets: &Option<Octets>) -> Result<(), Stop> {
        self.writer.put_answer(self.sink, cab, pass, octets)
    }

    fn no_memory() -> Stop {
        Stop::NoMemory
    }

    ghost laws = { pen_laws K.written K.faults K.counts_exactly };
}
