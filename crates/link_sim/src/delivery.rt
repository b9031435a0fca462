//! What reaches one cabinet in a round, and what of its replies reaches the master.

ghost use Rattle.std.specs.Prelude.{ℕ, ◌≡◌, ◌≤◌, ◌∷◌, [], length, IfOk};
ghost use Rattle.scenario_data.specs.Content.{ScenarioContent, scenario_content};
ghost use Rattle.scenario_data.specs.declared.scenario.Direction.TheVariants.{Down, Up};
ghost use Rattle.sig_types.specs.Items.{texts_of};
ghost use Rattle.link_sim.specs.Kept.{faults_in};
ghost use Rattle.link_sim.specs.Link.{sent_text, Stays, Delivers, Returns};

use crate::{Lines, Lists, StreamFrames};
use scenario_data::Scenario;
use sig_types::{Answers, NoMemory, Octets, Sending, Streams};
use std::alloc::Global;
use std::slice;

/// What is sent on a stream, as a list.
fn sent(frame: &Option<Octets>) -> &[Octets]
    ensures { texts_of result.now ≡ sent_text frame.now }
{
    match frame {
        Some(octets) => slice::from_ref(octets),
        None => &[],
    }
}

/// What reaches a cabinet in a round in which the master sends this. Where memory is refused, the lines stay for the same round.
pub(crate) fn deliver(
    lines: &mut Lines,
    lists: &Lists,
    alloc: Global,
    round: u32,
    cab: u32,
    s: &Scenario,
    sending: &Sending,
) -> Result<Streams, NoMemory>
    requires few { length s.now.priority.items ≤ 100000 }
    ensures delivers { IfOk result (λ streams. Delivers lines.old lines.new lists.now (scenario_content s.now) round cab sending.now streams) }
    ensures stays { Stays lines.old lines.new (faults_in lists.now.faults) cab Down round }
{
    let requests = lists.requests(alloc, round, cab, s)?;
    let fields = lists.fields(alloc, round, cab, s)?;
    let polls = sent(&sending.poll);
    let loads = sent(&sending.load);
    let frames = StreamFrames {
        polls,
        loads,
        prios: &requests,
    };
    let arrived = lines.carry(alloc, &lists.faults, round, &frames)?;
    let all = lists.with_own(arrived, round, cab, s)?;
    Ok(Streams {
        fields,
        polls: all.polls,
        loads: all.loads,
        prios: all.prios,
        ticks: s.ticks,
    })
}

/// What arrives of a cabinet's replies in a round. Where memory is refused, the lines stay for the same round.
pub(crate) fn bring_back(
    lines: &mut Lines,
    lists: &Lists,
    alloc: Global,
    round: u32,
    answers: &Answers,
) -> Result<Answers, NoMemory>
    ensures returns { IfOk result (λ arrived. (s : ScenarioContent) (cab : ℕ) → Returns lines.old lines.new lists.now s round cab answers.now arrived) }
    ensures stays { (cab : ℕ) → Stays lines.old lines.new (faults_in lists.now.faults) cab Up round }
{
    let frames = StreamFrames {
        polls: &answers.polls,
        loads: &answers.loads,
        prios: &answers.prios,
    };
    let arrived = lines.carry(alloc, &lists.faults, round, &frames)?;
    Ok(Answers {
        polls: arrived.polls,
        loads: arrived.loads,
        prios: arrived.prios,
    })
}
