//! The first rounds of a download over a link with faults: which frames reach the cabinet, and which replies the master takes up.
//! What a round sends and what a fault does are from the grammar of the messages (RFC 1157) and by hand.

ghost use Rattle.std.specs.Prelude.{◌≡◌, ◌≤◌, IfOk, length};

use crate::master_poll_cases::{BEGIN, BEGUN, PART, TAKEN, VERIFY, one_load};
use hex::decode as octets_of;
use master_rounds::MasterRounds;
use scenario_data::{Direction, Fault, FaultKind};
use sig_types::{Answers, Octets, Way};
use std::alloc::{AllocError, Global};
use std::test::Fail;

/// A fault that meets the first or second frame on the load stream of the one cabinet.
fn fault(round: u32, way: Direction, index: u32, kind: FaultKind) -> Fault {
    Fault {
        round,
        cabinet: 1,
        stream: Way::Load,
        way,
        index,
        kind,
        by: 1,
        octet: 1,
    }
}

/// In the first round the frame comes twice, and the second reply is lost; in the second the frame is repeated a round
/// later, and the first reply is lost.
fn faults(alloc: Global) -> Result<Vec<Fault>, AllocError>
    ensures { IfOk result (λ faults. length faults.items ≡ 4) }
{
    Ok(vec![in alloc;
        fault(1, Direction::Down, 0, FaultKind::Repeat),
        fault(1, Direction::Up, 1, FaultKind::Lose),
        fault(2, Direction::Down, 0, FaultKind::Late),
        fault(2, Direction::Up, 0, FaultKind::Lose),
    ]?)
}

/// Frames with these octets; an empty text represents no frame.
fn frames(alloc: Global, texts: &[&str; 2]) -> Result<Vec<Octets>, Fail> {
    let mut all = Vec::new(alloc);
    for text in texts {
        if !text.is_empty() {
            let mut octets = Octets::new();
            let _ = octets.try_extend_from_slice(&octets_of(alloc, text)?);
            all.push(octets)?;
        }
    }
    Ok(all)
}

/// What the one cabinet answers: these replies on the load stream.
fn answers(alloc: Global, texts: &[&str; 2]) -> Result<Vec<Answers>, Fail>
    ensures { IfOk result (λ answers. length answers.items ≡ 1) }
{
    let answers = Answers {
        polls: Vec::new(alloc),
        loads: frames(alloc, texts)?,
        prios: Vec::new(alloc),
    };
    Ok(vec![in alloc; answers]?)
}

/// The frames that reach the cabinet in each round, and what it answers.
fn meets(alloc: Global, rounds: &[([&str; 2], [&str; 2])]) -> Result<bool, Fail>
    requires { length rounds.now ≤ 9 }
{
    let s = one_load(alloc, faults(alloc)?)?;
    let Ok(mut master_rounds) = MasterRounds::open(alloc, &s) else {
        return Ok(false);
    };
    for place in 0..rounds.len() {
        let round = place as u32 + 1;
        let (wanted, replies) = rounds[place];
        let Ok(begun) = master_rounds.begin(alloc, round, &s) else {
            return Ok(false);
        };
        let wanted = frames(alloc, &wanted)?;
        let reached = match begun.streams.first() {
            Some(streams) => streams.loads == wanted,
            None => false,
        };
        let answered = answers(alloc, &replies)?;
        if !reached || master_rounds.end(alloc, round, &answered).is_err() {
            return Ok(false);
        }
    }
    Ok(true)
}

#[test]
fn frames_and_replies_meet_their_faults(rt: HostRuntime) -> Result<(), Fail> {
    let rounds = [
        ([BEGIN, BEGIN], [BEGUN, BEGUN]),
        ([PART, ""], [TAKEN, TAKEN]),
        ([VERIFY, PART], ["", ""]),
    ];
    assert!(rt; meets(rt.alloc(), &rounds)?);
    Ok(())
}
