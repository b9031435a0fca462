//! The scenario's lists of inputs, frames, priority requests and faults, sorted once by the rounds that take them.

ghost use Rattle.std.specs.Prelude.{ℕ, ◌≡◌, ◌≤◌, ◌++◌, length, IfOk, OnOk};
ghost use Rattle.scenario_data.specs.Content.{scenario_content};
ghost use Rattle.scenario_data.specs.Inputs.{inputs_of};
ghost use Rattle.sig_types.specs.Items.{texts_of};
ghost use Rattle.link_sim.specs.Priority.{priority_texts};
ghost use Rattle.link_sim.specs.Reaching.{frames_of};

use crate::items::{frame_dues, input_dues, push_fields, push_frames, request_dues};
use crate::priority::push_requests;
use crate::{Agenda, FaultList};
use scenario_data::Scenario;
use sig_types::{Field, NoMemory, Octets, Way};
use std::alloc::{AllocError, Global};

/// The lists in the order of the rounds. Items are places in the scenario's own lists.
#[derive(Drop)]
pub struct Lists {
    pub(crate) faults: FaultList,
    inputs: Agenda,
    frames: Agenda,
    requests: Agenda,
}

/// The frames that arrive on the three streams of a cabinet, in one direction.
#[derive(Drop)]
pub struct Arrivals {
    pub polls: Vec<Octets>,
    pub loads: Vec<Octets>,
    pub prios: Vec<Octets>,
}

impl Lists {
    ghost use Rattle.link_sim.specs.Lists.{AreOf, HaveOwn};

    /// The lists of a scenario.
    pub fn new(alloc: Global, s: &Scenario) -> Result<Lists, NoMemory>
        ensures { IfOk result (λ lists. AreOf lists (scenario_content s.now)) }
    {
        let Ok(all_inputs) = input_dues(alloc, &s.inputs) else {
            return Err(NoMemory);
        };
        let Ok(all_frames) = frame_dues(alloc, &s.frames) else {
            return Err(NoMemory);
        };
        let Ok(all_requests) = request_dues(alloc, &s.priority) else {
            return Err(NoMemory);
        };
        let faults = FaultList::new(alloc, &s.faults)?;
        let inputs = Agenda::new(all_inputs)?;
        let frames = Agenda::new(all_frames)?;
        let requests = Agenda::new(all_requests)?;
        Ok(Lists {
            faults,
            inputs,
            frames,
            requests,
        })
    }

    /// What happens at the street in a round at a cabinet.
    pub fn fields(
        &self,
        alloc: Global,
        round: u32,
        cab: u32,
        s: &Scenario,
    ) -> Result<Vec<Field>, NoMemory>
        ensures { IfOk result (λ fields. AreOf self.now (scenario_content s.now) → fields.items ≡ inputs_of round cab s.now.inputs.items) }
    {
        let mut fields = Vec::new(alloc);
        match push_fields(&mut fields, &s.inputs, self.inputs.of(round, cab)) {
            Ok(()) => Ok(fields),
            Err(_) => Err(NoMemory),
        }
    }

    /// The frames of the priority requests to a cabinet in a round.
    pub fn requests(
        &self,
        alloc: Global,
        round: u32,
        cab: u32,
        s: &Scenario,
    ) -> Result<Vec<Octets>, NoMemory>
        requires few { length s.now.priority.items ≤ 100000 }
        ensures { IfOk result (λ texts. AreOf self.now (scenario_content s.now) → texts_of texts.items ≡ priority_texts s.now.community.items s.now.priority.items round cab) }
    {
        let mut texts = Vec::new(alloc);
        match push_requests(
            &mut texts,
            &s.community,
            &s.priority,
            self.requests.of(round, cab),
        ) {
            Ok(()) => Ok(texts),
            Err(_) => Err(NoMemory),
        }
    }

    /// Appends the scenario's own frames on a stream to a cabinet in a round.
    fn push_own(
        &self,
        out: &mut Vec<Octets>,
        round: u32,
        cab: u32,
        way: Way,
        s: &Scenario,
    ) -> Result<(), AllocError>
        ensures { OnOk result (AreOf self.now (scenario_content s.now) → texts_of out.new.items ≡ texts_of out.old.items ++ frames_of (scenario_content s.now).frames round cab way) }
    {
        match push_frames(out, &s.frames, self.frames.of(round, cab), way) {
            Ok(()) => Ok(()),
            Err(error) => Err(error),
        }
    }

    /// What arrives on the streams, with the scenario's own frames after it.
    pub fn with_own(
        &self,
        arrived: Arrivals,
        round: u32,
        cab: u32,
        s: &Scenario,
    ) -> Result<Arrivals, NoMemory>
        ensures { IfOk result (λ all. AreOf self.now (scenario_content s.now) → HaveOwn (scenario_content s.now) round cab arrived all) }
    {
        let mut all = arrived;
        if self
            .push_own(&mut all.polls, round, cab, Way::Poll, s)
            .is_err()
        {
            return Err(NoMemory);
        }
        if self
            .push_own(&mut all.loads, round, cab, Way::Load, s)
            .is_err()
        {
            return Err(NoMemory);
        }
        match self.push_own(&mut all.prios, round, cab, Way::Prio, s) {
            Ok(()) => Ok(all),
            Err(_) => Err(NoMemory),
        }
    }
}
