//! A text that is compared with the lines of a run.

ghost use Rattle.std.specs.Prelude.{◌≡◌};
ghost use Rattle.trace_check.specs.Expecting.{expecter_told, expecter_stopped, check_out_of_memory, expecter_laws};

use crate::expect::expect;
use crate::faults::CheckFail;
use crate::places::Place;
use sig_types::Octets;
use std::alloc::Global;
use trace_tell::Teller;
use trace_text::{Line, Runs, same_octets};

/// A text from a place on. The lines that it is given are expected there, one after another; it stops at the first fault.
#[derive(Drop)]
pub struct Expecter<'a> {
    pub alloc: Global,
    pub at: Place<'a>,
}

impl<'a> Teller for Expecter<'a> {
    type Fail = CheckFail;

    ghost told = { expecter_told };

    ghost stopped = { expecter_stopped };

    ghost out_of_memory = { check_out_of_memory };

    fn tell(&mut self, line: &Line) -> Result<(), CheckFail> {
        match expect(self.alloc, self.at, line) {
            Ok(next) => {
                self.at = next;
                Ok(())
            }
            Err(fail) => Err(fail),
        }
    }

    fn tell_journal(&mut self, cab: u32, runs: &[(u32, u32)]) -> Result<(), CheckFail> {
        let runs = match runs.to_vec(self.alloc) {
            Ok(runs) => Runs::new(runs),
            Err(_) => return Err(CheckFail::NoMemory),
        };
        let line = Line::J { cab, runs };
        self.tell(&line)
    }

    fn tell_answer(
        &mut self,
        cab: u32,
        pass: u32,
        octets: &Option<Octets>,
    ) -> Result<(), CheckFail> {
        let answer = Line::A {
            cab,
            pass,
            hex: same_octets(octets),
        };
        self.tell(&answer)
    }

    fn no_memory() -> CheckFail
        ensures { result ≡ check_out_of_memory }
    {
        CheckFail::NoMemory
    }

    ghost laws = { expecter_laws };
}
