//! The link as a whole: all cabinets in their order.

ghost use Rattle.std.specs.Prelude.{ℕ, ◌≡◌, ◌≤◌, ◌<◌, length, IfOk};
ghost use Rattle.scenario_data.specs.Content.{ScenarioContent, scenario_content};
ghost use Rattle.scenario_data.specs.declared.scenario.Direction.TheVariants.{Down, Up};
ghost use Rattle.link_sim.specs.Kept.{faults_in};
ghost use Rattle.link_sim.specs.Link.{AreUnused, DeliversEach, EachStays, ReturnsEach};
ghost use Rattle.link_sim.specs.StreamFrames.{nothing_passed};

use crate::delivery::{bring_back, deliver};
use crate::{Lines, Lists};
use scenario_data::{Direction, Scenario};
use sig_types::{Answers, NoMemory, Sending, Streams};
use std::alloc::{AllocError, Global};

/// The link between the master and the cabinets of a scenario.
#[derive(Drop)]
pub struct Link {
    lists: Lists,
    down: Vec<Lines>,
    up: Vec<Lines>,
    ghost even: { length up.items ≡ length down.items },
    ghost few: { length down.items ≤ 64 },
}

/// The lines of that many cabinets in a direction, over which nothing went.
fn open_lines(
    alloc: Global,
    cabinets: usize,
    direction: Direction,
) -> Result<Vec<Lines>, AllocError>
    requires few { cabinets ≤ 64 }
    ensures count { IfOk result (λ all. length all.items ≡ cabinets) }
    ensures unused { IfOk result (λ all. AreUnused all.items cabinets direction) }
{
    let mut all = Vec::new(alloc);
    for place in 0..cabinets {
        all.push(Lines::new(alloc, place as u32 + 1, direction))?;
    }
    Ok(all)
}

/// What reaches each cabinet in a round in which the master sends these.
fn deliver_all(
    down: &mut Vec<Lines>,
    lists: &Lists,
    alloc: Global,
    round: u32,
    s: &Scenario,
    sendings: &[Sending],
) -> Result<Vec<Streams>, NoMemory>
    requires few { length s.now.priority.items ≤ 100000 }
    requires cabinets { length down.old.items ≤ 64 }
    requires each { length sendings.now ≡ length down.old.items }
    ensures lines { length down.new.items ≡ length down.old.items }
    ensures count { IfOk result (λ all. length all.items ≡ length down.old.items) }
    ensures delivers { IfOk result (λ all. DeliversEach down.old.items down.new.items lists.now (scenario_content s.now) round sendings.now all.items) }
    ensures stays { EachStays down.old.items down.new.items (faults_in lists.now.faults) Down round }
{
    let mut all = Vec::new(alloc);
    let mut cab = 1;
    for k in 0..down.len() {
        let streams = deliver(&mut down[k], lists, alloc, round, cab, s, &sendings[k])?;
        if all.push(streams).is_err() {
            return Err(NoMemory);
        }
        cab += 1;
    }
    Ok(all)
}

/// What arrives of each cabinet's replies in a round.
fn bring_all_back(
    up: &mut Vec<Lines>,
    lists: &Lists,
    alloc: Global,
    round: u32,
    answers: &[Answers],
) -> Result<Vec<Answers>, NoMemory>
    requires each { length answers.now ≡ length up.old.items }
    ensures lines { length up.new.items ≡ length up.old.items }
    ensures count { IfOk result (λ all. length all.items ≡ length up.old.items) }
    ensures returns { IfOk result (λ all. ReturnsEach up.old.items up.new.items lists.now round answers.now all.items) }
    ensures stays { EachStays up.old.items up.new.items (faults_in lists.now.faults) Up round }
{
    let mut all = Vec::new(alloc);
    for k in 0..up.len() {
        let arrived = bring_back(&mut up[k], lists, alloc, round, &answers[k])?;
        if all.push(arrived).is_err() {
            return Err(NoMemory);
        }
    }
    Ok(all)
}

impl Link {
    ghost use Rattle.std.specs.Prelude.{[], OnOk, OnErr};
    ghost use Rattle.link_sim.specs.LinkStands.{LinkStands, cabinet_count};
    ghost use Rattle.link_sim.specs.LinkRounds.{EachSentTo, EachHeardFrom};
    ghost use Rattle.link_sim.specs.LinkRounds.{ReceivesItsFrames, StandsWithSent, RepliesArrive, StandsWithReplied};

    /// The link of a scenario before its first round.
    pub fn open(alloc: Global, s: &Scenario) -> Result<Link, NoMemory>
        requires cabinets { length s.now.cabinets.items ≤ 64 }
        ensures count { IfOk result (λ link. cabinet_count link ≡ length s.now.cabinets.items) }
        ensures stands { IfOk result (λ link. (place : ℕ) → place < length s.now.cabinets.items
            → LinkStands link (scenario_content s.now) place [] [] nothing_passed) }
    {
        let lists = Lists::new(alloc, s)?;
        let Ok(down) = open_lines(alloc, s.cabinets.len(), Direction::Down) else {
            return Err(NoMemory);
        };
        let Ok(up) = open_lines(alloc, s.cabinets.len(), Direction::Up) else {
            return Err(NoMemory);
        };
        Ok(Link { lists, down, up })
    }

    /// What reaches each cabinet in a round in which the master sends these, in the order of the cabinets; the rounds
    /// come in order. If memory runs out, the link represents the same rounds as before, and the round may be repeated.
    pub fn down(
        &mut self,
        alloc: Global,
        round: u32,
        s: &Scenario,
        sendings: &[Sending],
    ) -> Result<Vec<Streams>, NoMemory>
        requires few { length s.now.priority.items ≤ 100000 }
        requires each { length sendings.now ≡ cabinet_count self.old }
        ensures kept { cabinet_count self.new ≡ cabinet_count self.old }
        ensures count { IfOk result (λ all. length all.items ≡ cabinet_count self.old) }
        ensures reaches { IfOk result (λ all. EachSentTo self.old (scenario_content s.now) round
            (ReceivesItsFrames (scenario_content s.now) sendings.now all.items)) }
        ensures stands { OnOk result (EachSentTo self.old (scenario_content s.now) round
            (StandsWithSent self.new (scenario_content s.now) sendings.now)) }
        ensures again { OnErr result (EachSentTo self.old (scenario_content s.now) round (LinkStands self.new (scenario_content s.now))) }
    {
        match deliver_all(&mut self.down, &self.lists, alloc, round, s, sendings) {
            Ok(all) => Ok(all),
            Err(error) => Err(error),
        }
    }

    /// What arrives at the master of each cabinet's replies in a round, in the order of the cabinets; the rounds come
    /// in order. If memory runs out, the link represents the same rounds as before, and the round may be repeated.
    pub fn up(
        &mut self,
        alloc: Global,
        round: u32,
        answers: &[Answers],
    ) -> Result<Vec<Answers>, NoMemory>
        requires each { length answers.now ≡ cabinet_count self.old }
        ensures kept { cabinet_count self.new ≡ cabinet_count self.old }
        ensures count { IfOk result (λ all. length all.items ≡ cabinet_count self.old) }
        ensures arrive { IfOk result (λ all. (s : ScenarioContent) → EachHeardFrom self.old s round (RepliesArrive s answers.now all.items)) }
        ensures stands { OnOk result ((s : ScenarioContent) → EachHeardFrom self.old s round (StandsWithReplied self.new s answers.now)) }
        ensures again { OnErr result ((s : ScenarioContent) → EachHeardFrom self.old s round (LinkStands self.new s)) }
    {
        match bring_all_back(&mut self.up, &self.lists, alloc, round, answers) {
            Ok(all) => Ok(all),
            Err(error) => Err(error),
        }
    }
}
