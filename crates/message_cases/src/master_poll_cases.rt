//! A download that is taken and one that is refused: what the master sends in each round and what it notes, from the grammar of
//! the messages (RFC 1157) by hand.

ghost use Rattle.std.specs.Prelude.{◌≡◌, ◌≤◌, IfOk, length};
ghost use Rattle.scenario_data.specs.Content.{scenario_content};
ghost use Rattle.master_poll.specs.Masters.{IsRun};
ghost use Rattle.master_rounds.specs.Served.{CanBeServed};

use arrayvec::ArrayVec;
use hex::decode as octets_of;
use master_poll::{Master, Round};
use scenario_data::{Base, Cabinet, Fault, LoadItem, MasterSetup, Scenario};
use sig_tables::{Cell, CellValue};
use sig_types::{Answers, MasterNote, Octets};
use std::alloc::{AllocError, Global};
use std::test::Fail;

pub(crate) const BEGIN: &str =
    "302b02010004067075626c6963a31e02010102010002010030133011060c2b0601040181fd5901010200020101";

pub(crate) const BEGUN: &str =
    "302b02010004067075626c6963a21e02010102010002010030133011060c2b0601040181fd5901010200020101";

pub(crate) const PART: &str =
    "306a02010004067075626c6963a35d02010202010002010030523011060c2b0601040181fd59010103000201013011060c2b0601040181fd59010104000201013014060f2b060104018936040201010201080202011e3014060f2b060104018936040201010201080602011e";

pub(crate) const TAKEN: &str =
    "306a02010004067075626c6963a25d02010202010002010030523011060c2b0601040181fd59010103000201013011060c2b0601040181fd59010104000201013014060f2b060104018936040201010201080202011e3014060f2b060104018936040201010201080602011e";

pub(crate) const VERIFY: &str =
    "303e02010004067075626c6963a33102010302010002010030263011060c2b0601040181fd59010103000201013011060c2b0601040181fd5901010500020101";

const VERIFIED: &str =
    "303e02010004067075626c6963a23102010302010002010030263011060c2b0601040181fd59010103000201013011060c2b0601040181fd5901010500020101";

const REFUSED: &str =
    "303e02010004067075626c6963a23102010302010502010230263011060c2b0601040181fd59010103000201013011060c2b0601040181fd5901010500020101";

const FINISH: &str =
    "303e02010004067075626c6963a33102010402010002010030263011060c2b0601040181fd59010103000201013011060c2b0601040181fd5901010600020101";

const DONE: &str =
    "303e02010004067075626c6963a23102010402010002010030263011060c2b0601040181fd59010103000201013011060c2b0601040181fd5901010600020101";

/// One cabinet, and a load for it in the first round: yellow change of phases 2 and 6. The link has these faults.
pub(crate) fn one_load(alloc: Global, faults: Vec<Fault>) -> Result<Scenario, AllocError>
    requires { length faults.items ≤ 9 }
    ensures run { IfOk result (λ s. IsRun (scenario_content s)) }
    ensures served { IfOk result (λ s. CanBeServed (scenario_content s)) }
    ensures cabinets { IfOk result (λ s. length s.cabinets.items ≡ 1) }
{
    let mut community = ArrayVec::new();
    let _ = community.try_extend_from_slice(b"public");
    let cabinet = Cabinet {
        base: Base::Std8,
        cells: Vec::new(alloc),
        pattern: 0,
        clock: 0,
        section: 1,
        gain: 0,
        lose: 0,
    };
    let load = LoadItem {
        round: 1,
        cabinet: 1,
        cells: vec![in alloc;
            (
                Cell::Phase {
                    phase: 2,
                    column: 8
                },
                CellValue::Number(30)
            ),
            (
                Cell::Phase {
                    phase: 6,
                    column: 8
                },
                CellValue::Number(30)
            ),
        ]?,
    };
    Ok(Scenario {
        version: 1,
        rounds: 9,
        ticks: 1,
        community,
        cabinets: vec![in alloc; cabinet]?,
        master: MasterSetup {
            clock: 0,
            poll_every: 0,
            clock_every: 0,
            pattern_every: 0,
            retries: 3,
            schedule: Vec::new(alloc),
        },
        inputs: Vec::new(alloc),
        loads: vec![in alloc; load]?,
        priority: Vec::new(alloc),
        frames: Vec::new(alloc),
        faults,
        compact: Vec::new(alloc),
    })
}

/// What arrives from the one cabinet: a reply on the load stream, or nothing where the text is empty.
fn arrived(alloc: Global, reply: &str) -> Result<Vec<Answers>, Fail>
    ensures { IfOk result (λ answers. length answers.items ≡ 1) }
{
    let mut loads = Vec::new(alloc);
    if !reply.is_empty() {
        let mut octets = Octets::new();
        let _ = octets.try_extend_from_slice(&octets_of(alloc, reply)?);
        loads.push(octets)?;
    }
    let answers = Answers {
        polls: Vec::new(alloc),
        loads,
        prios: Vec::new(alloc),
    };
    Ok(vec![in alloc; answers]?)
}

/// Whether a round sends this frame of a download, none where the text is empty, and makes this note, or none.
fn is_made(
    alloc: Global,
    made: &Round,
    frame: &str,
    note: Option<MasterNote>,
) -> Result<bool, Fail> {
    let wanted = octets_of(alloc, frame)?;
    let sent = match made.sendings.first() {
        Some(sending) => match &sending.load {
            Some(octets) => octets.as_slice() == wanted.as_slice(),
            None => wanted.is_empty(),
        },
        None => false,
    };
    let noted = match note {
        Some(note) => made.notes.as_slice() == [note].as_slice(),
        None => made.notes.is_empty(),
    };
    Ok(sent && noted)
}

/// The reply that arrives before each round, the frame that the round sends, and what it notes.
fn meets(alloc: Global, rounds: &[(&str, &str, Option<MasterNote>)]) -> Result<bool, Fail>
    requires { length rounds.now ≤ 9 }
{
    let s = one_load(alloc, Vec::new(alloc))?;
    let Ok(mut master) = Master::open(alloc, &s) else {
        return Ok(false);
    };
    for place in 0..rounds.len() {
        let (reply, frame, note) = rounds[place];
        let arrived = arrived(alloc, reply)?;
        let Ok(made) = master.step(alloc, place as u32 + 1, &s, &arrived) else {
            return Ok(false);
        };
        if !is_made(alloc, &made, frame, note)? {
            return Ok(false);
        }
    }
    Ok(true)
}

#[test]
fn a_download_is_taken_step_by_step(rt: HostRuntime) -> Result<(), Fail> {
    let rounds = [
        ("", BEGIN, None),
        (BEGUN, PART, None),
        (TAKEN, VERIFY, None),
        (VERIFIED, FINISH, None),
        (DONE, "", Some(MasterNote::LoadDone(1, 1))),
    ];
    assert!(rt; meets(rt.alloc(), &rounds)?);
    Ok(())
}

#[test]
fn a_download_that_is_refused_is_noted(rt: HostRuntime) -> Result<(), Fail> {
    let rounds = [
        ("", BEGIN, None),
        (BEGUN, PART, None),
        (TAKEN, VERIFY, None),
        (REFUSED, "", Some(MasterNote::LoadRefused(1, 1, 5, 2))),
    ];
    assert!(rt; meets(rt.alloc(), &rounds)?);
    Ok(())
}
