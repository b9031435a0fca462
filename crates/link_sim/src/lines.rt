//! The three lines of a cabinet in one direction, one for each stream.

ghost use Rattle.std.specs.Prelude.{◌≡◌, List, [], IfOk, OnOk};
ghost use Rattle.scenario_data.specs.declared.scenario.Fault.{Fault};
ghost use Rattle.link_sim.specs.Kept.{faults_in};

use crate::{Arrivals, FaultList, Line, StreamLine};
use scenario_data::Direction;
use sig_types::{NoMemory, Octets, Way};
use std::alloc::Global;

/// The lines of the polls, the loads and the priority requests of a cabinet in one direction.
#[derive(Drop)]
pub struct Lines {
    polls: StreamLine,
    loads: StreamLine,
    prios: StreamLine,
}

/// The frames that are sent in a round on the three streams of a cabinet, in one direction.
#[derive(Clone, Copy)]
pub struct StreamFrames<'a> {
    pub polls: &'a [Octets],
    pub loads: &'a [Octets],
    pub prios: &'a [Octets],
}

/// One line of a cabinet.
fn line_at(cab: u32, way: Way, direction: Direction) -> Line
    ensures { result ≡ record { cab = cab; way = way; direction = direction } }
{
    Line {
        cab,
        way,
        direction,
    }
}

impl Lines {
    ghost use Rattle.link_sim.specs.StreamFrames.{AreLines};
    ghost use Rattle.link_sim.specs.LineRounds.{ArriveOver, HoldRound, StillHold};

    /// Lines over which nothing went.
    pub fn new(alloc: Global, cab: u32, direction: Direction) -> Lines
        ensures { (faults : List Fault) → AreLines result faults cab direction (record { polls = []; loads = []; prios = [] }) }
    {
        Lines {
            polls: StreamLine::new(alloc, line_at(cab, Way::Poll, direction)),
            loads: StreamLine::new(alloc, line_at(cab, Way::Load, direction)),
            prios: StreamLine::new(alloc, line_at(cab, Way::Prio, direction)),
        }
    }

    /// What arrives over the lines in a round in which these frames are sent; the rounds come in order. The lines hold
    /// what the rounds so far left also afterwards, so that a round that fails elsewhere may be repeated.
    pub fn carry(
        &mut self,
        alloc: Global,
        faults: &FaultList,
        round: u32,
        frames: &StreamFrames,
    ) -> Result<Arrivals, NoMemory>
        ensures arrive { IfOk result (λ out. ArriveOver self.old (faults_in faults.now) round frames.now out) }
        ensures hold { OnOk result (HoldRound self.old self.new (faults_in faults.now) round frames.now) }
        ensures again { StillHold self.old self.new (faults_in faults.now) round }
    {
        let polls = self.polls.carry(alloc, faults, round, frames.polls)?;
        let loads = self.loads.carry(alloc, faults, round, frames.loads)?;
        let prios = self.prios.carry(alloc, faults, round, frames.prios)?;
        Ok(Arrivals {
            polls,
            loads,
            prios,
        })
    }
}
