//! Master and line between the rounds and in them.

ghost use Rattle.std.specs.Prelude.{◌≡◌, ◌≤◌, ◌+◌, [], length, All, IfOk, OnOk, OnErr};
ghost use Rattle.scenario_data.specs.Content.{ScenarioContent, scenario_content};
ghost use Rattle.master_rounds.specs.Answered.{IsEmpty};
ghost use Rattle.master_poll.specs.Masters.{cabinet_count as master_count};
ghost use Rattle.link_sim.specs.LinkStands.{cabinet_count as link_count};

use link_sim::Link;
use master_poll::Master;
use scenario_data::Scenario;
use sig_types::{Answers, MasterNote, NoMemory, Streams};
use std::alloc::{AllocError, Global};

/// What a round begins with: what the master notes, cabinet by cabinet, and what reaches each cabinet, in the cabinets' order.
#[derive(PartialEq, Drop)]
pub struct Begun {
    pub notes: Vec<MasterNote>,
    pub streams: Vec<Streams>,
}

/// The master, the link, and what has arrived from each cabinet since the master's last turn.
#[derive(Drop)]
pub struct MasterRounds {
    master: Master,
    link: Link,
    arrived: Vec<Answers>,
    ghost same_master: { master_count master ≡ length arrived.items },
    ghost same_link: { link_count link ≡ length arrived.items },
}

/// Nothing has arrived from that many cabinets.
fn nothing_from(alloc: Global, count: usize) -> Result<Vec<Answers>, AllocError>
    ensures count { IfOk result (λ all. length all.items ≡ count) }
    ensures none { IfOk result (λ all. All IsEmpty all.items) }
{
    let mut all = Vec::with_capacity(alloc, count)?;
    for _place in 0..count {
        all.push(Answers {
            polls: Vec::new(alloc),
            loads: Vec::new(alloc),
            prios: Vec::new(alloc),
        })?;
    }
    Ok(all)
}

impl MasterRounds {
    ghost use Rattle.master_rounds.specs.Served.{CanBeServed};
    ghost use Rattle.master_rounds.specs.RoundsStand.{MasterRoundsStands, cabinet_count, rounds_begun};
    ghost use Rattle.master_rounds.specs.Turns.{BeginsAsDue, StandsBegun, StandsBetween, StandsEnded, StillBegun};

    /// Master and line of a scenario before its first round.
    pub fn open(alloc: Global, s: &Scenario) -> Result<MasterRounds, NoMemory>
        requires served { CanBeServed (scenario_content s.now) }
        ensures stands { IfOk result (λ master_rounds. MasterRoundsStands master_rounds (scenario_content s.now) 0 (λ cab. [])) }
        ensures rounds { IfOk result (λ master_rounds. rounds_begun master_rounds ≡ 0) }
        ensures cabinets { IfOk result (λ master_rounds. cabinet_count master_rounds ≡ length s.now.cabinets.items) }
    {
        let master = Master::open(alloc, s)?;
        let link = Link::open(alloc, s)?;
        let Ok(arrived) = nothing_from(alloc, s.cabinets.len()) else {
            return Err(NoMemory);
        };
        Ok(MasterRounds {
            master,
            link,
            arrived,
        })
    }

    /// Begins the next round: the master has its turn at each cabinet, and what it sends goes over the link. Rounds
    /// come one after another from 1, at most 86,400. If memory runs out master and link represent the same rounds as
    /// before, and the round may begin again.
    pub fn begin(&mut self, alloc: Global, round: u32, s: &Scenario) -> Result<Begun, NoMemory>
        requires order { round ≡ rounds_begun self.old + 1 }
        requires few { round ≤ 86400 }
        requires cabinets { cabinet_count self.old ≡ length s.now.cabinets.items }
        requires served { CanBeServed (scenario_content s.now) }
        ensures begun { IfOk result (λ b. BeginsAsDue self.old (scenario_content s.now) b) }
        ensures stands { OnOk result (StandsBegun self.old self.new (scenario_content s.now) round) }
        ensures again { OnErr result (StandsBetween self.old self.new (scenario_content s.now)) }
        ensures rounds { OnOk result (rounds_begun self.new ≡ round) }
        ensures same_rounds { OnErr result (rounds_begun self.new ≡ rounds_begun self.old) }
        ensures kept { cabinet_count self.new ≡ cabinet_count self.old }
    {
        let next = match self.master.next(alloc, round, s, &self.arrived) {
            Ok(next) => next,
            Err(error) => return Err(error),
        };
        match self.link.down(alloc, round, s, &next.round.sendings) {
            Ok(streams) => {
                self.master = next.master;
                Ok(Begun {
                    notes: next.round.notes,
                    streams,
                })
            }
            Err(error) => Err(error),
        }
    }

    /// Ends the round that has begun, in which the cabinets have answered this, in their order: what of it goes over
    /// the link arrives for the master's turn in the next round. Where memory ran out master and line stay in the
    /// middle of the round, and it may end again.
    pub fn end(&mut self, alloc: Global, round: u32, answers: &[Answers]) -> Result<(), NoMemory>
        requires each { length answers.now ≡ cabinet_count self.old }
        ensures stands { OnOk result ((s : ScenarioContent) → StandsEnded self.old self.new s round answers.now) }
        ensures again { OnErr result ((s : ScenarioContent) → StillBegun self.old self.new s round) }
        ensures rounds { rounds_begun self.new ≡ rounds_begun self.old }
        ensures kept { cabinet_count self.new ≡ cabinet_count self.old }
    {
        match self.link.up(alloc, round, answers) {
            Ok(arrived) => {
                self.arrived = arrived;
                Ok(())
            }
            Err(error) => Err(error),
        }
    }
}
