//! A teller that adds lines to the text of an answer.

ghost use Rattle.std.specs.Prelude.{◌≡◌};
ghost use Rattle.live_session.specs.Appending.{appender_told, appender_stopped, out_of_memory, appender_laws};

use crate::lines::{put_answer, put_line};
use sig_types::{NoMemory, Octets};
use std::alloc::Global;
use trace_tell::Teller;
use trace_text::{Line, Runs};

/// The text of an answer, and the memory for its lines.
#[derive(Drop)]
pub struct Appender<'a> {
    pub alloc: Global,
    pub out: &'a mut Vec<u8>,
}

impl<'a> Teller for Appender<'a> {
    type Fail = NoMemory;

    ghost told = { appender_told };

    ghost stopped = { appender_stopped };

    ghost out_of_memory = { out_of_memory };

    fn tell(&mut self, line: &Line) -> Result<(), NoMemory> {
        put_line(self.alloc, self.out, line)
    }

    fn tell_journal(&mut self, cab: u32, runs: &[(u32, u32)]) -> Result<(), NoMemory> {
        let Ok(runs) = runs.to_vec(self.alloc) else {
            return Err(NoMemory);
        };
        let line = Line::J {
            cab,
            runs: Runs::new(runs),
        };
        put_line(self.alloc, self.out, &line)
    }

    fn tell_answer(
        &mut self,
        cab: u32,
        pass: u32,
        octets: &Option<Octets>,
    ) -> Result<(), NoMemory> {
        put_answer(self.alloc, self.out, cab, pass, octets)
    }

    fn no_memory() -> NoMemory
        ensures { result ≡ out_of_memory }
    {
        NoMemory
    }

    ghost laws = { appender_laws };
}
