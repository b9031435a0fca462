//! The master of all cabinets: a channel for each. A round is taken whole or not at all.

ghost use Rattle.std.specs.Prelude.{◌≡◌, ◌≤◌, ◌<◌, ◌+◌, ◌*◌, ℕ, List, [], map, length, All, IfOk, OnErr, OnOk};
ghost use Rattle.std.specs.Prelude.{Some};
ghost use Rattle.std.specs.List.{slice_get};
ghost use Rattle.scenario_data.specs.Content.{scenario_content};
ghost use Rattle.master_plan.specs.Schedule.{scheduled};
ghost use Rattle.master_poll.specs.Channels.{IsNew, count_of_channel};

use crate::channel::Channel;
use crate::command::Now;
use master_plan::{master_clock, scheduled};
use scenario_data::{Cabinet, Scenario};
use sig_types::{Answers, MasterNote, NoMemory, Sending};
use std::alloc::{AllocError, Global};

/// What the master sends and notes in a round, in the cabinets' order: one sending a cabinet.
#[derive(PartialEq, Drop)]
pub struct Round {
    pub sendings: Vec<Sending>,
    pub notes: Vec<MasterNote>,
}

/// The master after a round that is not yet taken, and what the round sends and notes.
#[derive(Drop)]
pub struct Next {
    pub master: Master,
    pub round: Round,
}

/// The channels after a round, and what it sends and notes.
#[derive(Drop)]
struct Made {
    channels: Vec<Channel>,
    round: Round,
}

/// The master: its channels in the cabinets' order, and the number of rounds so far.
#[derive(Drop)]
pub struct Master {
    channels: Vec<Channel>,
    rounds: u32,
    ghost counted: { All (λ p. count_of_channel p ≤ 2 * rounds) channels.items },
}

/// What holds for a cabinet in a round, at this time of day.
fn now_at(s: &Scenario, cabinet: &Cabinet, round: u32, clock: u32) -> Now
    ensures { result ≡ record { round = round; clock = clock; pattern = scheduled s.now.master.schedule.items cabinet.now.section clock } }
{
    Now {
        round,
        clock,
        pattern: scheduled(s, cabinet.section, clock),
    }
}

/// That many channels to which nothing was sent yet.
fn new_channels(alloc: Global, count: usize) -> Result<Vec<Channel>, AllocError>
    ensures count { IfOk result (λ channels. length channels.items ≡ count) }
    ensures new { IfOk result (λ channels. All IsNew channels.items) }
{
    let mut channels = Vec::with_capacity(alloc, count)?;
    for _place in 0..count {
        channels.push(Channel::new())?;
    }
    Ok(channels)
}

impl Master {
    ghost use Rattle.master_poll.specs.Sends.{Arrived};
    ghost use Rattle.master_poll.specs.Masters.{IsMade, IsRound, IsRun, MasterStands, cabinet_count, round_count, with_round};

    /// The master of a scenario's cabinets before the first round.
    pub fn open(alloc: Global, s: &Scenario) -> Result<Master, NoMemory>
        ensures stands { IfOk result (λ m. MasterStands m (scenario_content s.now) (λ cab. [])) }
        ensures cabinets { IfOk result (λ m. cabinet_count m ≡ length s.now.cabinets.items) }
        ensures rounds { IfOk result (λ m. round_count m ≡ 0) }
    {
        let Ok(channels) = new_channels(alloc, s.cabinets.len()) else {
            return Err(NoMemory);
        };
        Ok(Master {
            channels,
            rounds: 0,
        })
    }

    /// What is kept of the cabinet at a place.
    fn channel_at(&self, place: usize) -> Channel
        requires { place < cabinet_count self.now }
        ensures channel { slice_get self.now.channels.items place ≡ Some result }
        ensures counted { count_of_channel result ≤ 2 * self.now.rounds }
    {
        self.channels[place]
    }

    /// The next round, where this has arrived from each cabinet.
    fn made(
        &self,
        alloc: Global,
        round: u32,
        s: &Scenario,
        arrived: &[Answers],
    ) -> Result<Made, AllocError>
        requires order { round ≡ round_count self.now + 1 }
        requires few { round ≤ 86400 }
        requires cabinets { cabinet_count self.now ≡ length s.now.cabinets.items }
        requires arrived { length arrived.now ≡ length s.now.cabinets.items }
        requires run { IsRun (scenario_content s.now) }
        ensures made { IfOk result (λ m. (before : ℕ → List Arrived) → MasterStands self.now (scenario_content s.now) before
            → IsMade m.channels.items m.round (scenario_content s.now) round (with_round arrived.now before)) }
        ensures cabinets { IfOk result (λ m. length m.channels.items ≡ cabinet_count self.now) }
        ensures each { IfOk result (λ m. length m.round.sendings.items ≡ cabinet_count self.now) }
        ensures counted { IfOk result (λ m. All (λ p. count_of_channel p ≤ 2 * round) m.channels.items) }
    {
        let clock = master_clock(s, round);
        let mut channels = Vec::with_capacity(alloc, self.channels.len())?;
        let mut sendings = Vec::with_capacity(alloc, self.channels.len())?;
        let mut notes = Vec::new(alloc);
        for place in 0..self.channels.len() {
            let mut channel = self.channel_at(place);
            let now = now_at(s, &s.cabinets[place], round, clock);
            let sending = channel.turn(s, place as u32 + 1, now, &arrived[place], &mut notes)?;
            channels.push(channel)?;
            sendings.push(sending)?;
        }
        let round = Round { sendings, notes };
        Ok(Made { channels, round })
    }

    /// The master after the next round, and what it then sends and notes, where this has arrived from each cabinet, in
    /// the cabinets' order; rounds come one after another from 1. The master itself stays as it is: put the new one in
    /// its place, or repeat the round.
    pub fn next(
        &self,
        alloc: Global,
        round: u32,
        s: &Scenario,
        arrived: &[Answers],
    ) -> Result<Next, NoMemory>
        requires order { round ≡ round_count self.now + 1 }
        requires few { round ≤ 86400 }
        requires cabinets { cabinet_count self.now ≡ length s.now.cabinets.items }
        requires arrived { length arrived.now ≡ length s.now.cabinets.items }
        requires run { IsRun (scenario_content s.now) }
        ensures round { IfOk result (λ n. (before : ℕ → List Arrived) → MasterStands self.now (scenario_content s.now) before
            → IsRound n.master n.round (scenario_content s.now) (with_round arrived.now before)) }
        ensures rounds { IfOk result (λ n. round_count n.master ≡ round) }
        ensures cabinets { IfOk result (λ n. cabinet_count n.master ≡ cabinet_count self.now) }
        ensures each { IfOk result (λ n. length n.round.sendings.items ≡ cabinet_count self.now) }
    {
        let Ok(made) = self.made(alloc, round, s, arrived) else {
            return Err(NoMemory);
        };
        let master = Master {
            channels: made.channels,
            rounds: round,
        };
        Ok(Next {
            master,
            round: made.round,
        })
    }

    /// Takes the next round, where this has arrived from each cabinet, in the cabinets' order; rounds come one after
    /// another from 1. If memory runs out the master is as before, and the same round may be repeated.
    /// Here only tests call it; it is part of the public interface.
    pub fn step(
        &mut self,
        alloc: Global,
        round: u32,
        s: &Scenario,
        arrived: &[Answers],
    ) -> Result<Round, NoMemory>
        requires order { round ≡ round_count self.old + 1 }
        requires few { round ≤ 86400 }
        requires cabinets { cabinet_count self.old ≡ length s.now.cabinets.items }
        requires arrived { length arrived.now ≡ length s.now.cabinets.items }
        requires run { IsRun (scenario_content s.now) }
        ensures round { IfOk result (λ r. (before : ℕ → List Arrived) → MasterStands self.old (scenario_content s.now) before
            → IsRound self.new r (scenario_content s.now) (with_round arrived.now before)) }
        ensures rounds { OnOk result (round_count self.new ≡ round) }
        ensures cabinets { OnOk result (cabinet_count self.new ≡ cabinet_count self.old) }
        ensures no_memory { OnErr result (self.new ≡ self.old) }
    {
        match self.next(alloc, round, s, arrived) {
            Ok(next) => {
                *self = next.master;
                Ok(next.round)
            }
            Err(_) => Err(NoMemory),
        }
    }
}
