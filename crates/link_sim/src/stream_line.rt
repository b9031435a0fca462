//! A line with the copies on it that come later.

ghost use Rattle.std.specs.Prelude.{ℕ, ◌≡◌, ◌≢◌, ◌≤◌, ◌<◌, ◌+◌, ◌%◌, ◌++◌, ◌∷◌, List, [], length, All, OnOk, OnErr, IfOk};
ghost use Rattle.sig_types.specs.Items.{texts_of};
ghost use Rattle.link_sim.specs.Faults.{copied};
ghost use Rattle.link_sim.specs.Carried.{arriving_from, copies_from};
ghost use Rattle.link_sim.specs.Due.{due_texts, AreDueLater};
ghost use Rattle.link_sim.specs.LateLists.{on_late_list, listed_late, AreListedLater, NoneAfter, DropsPast, IsOwnLateList};
ghost use Rattle.link_sim.specs.Kept.{faults_in};

use crate::faults::{arrive, copied};
use crate::{FaultList, Line};
use scenario_data::{Fault, FaultKind};
use sig_types::{NoMemory, Octets};
use std::alloc::{AllocError, Global};
use std::array;

/// A copy of what was sent in a round that comes in a later one.
#[derive(PartialEq, Drop)]
pub struct Late {
    sent: u32,
    due: u64,
    octets: Octets,
}

/// The copies that come in rounds of one rest by 32, in the order of their sending.
#[derive(Drop)]
pub struct LateList {
    copies: Vec<Late>,
}

/// One direction of a stream, with the copies that are still to come, and the last round that it carried. A copy is in
/// the list of its round modulo 32, so that a round examines few others than its own.
#[derive(Drop)]
pub struct StreamLine {
    line: Line,
    late: [LateList; 32],
    last: u32,
    ghost sent: { NoneAfter last late },
}

/// Keeps the copy of a frame that meets a late fault. Those of the rounds before are as they were.
fn keep(
    late: &mut Vec<Late>,
    round: u32,
    fault: Option<Fault>,
    octets: &Octets,
) -> Result<(), AllocError>
    ensures later { OnOk result (AreDueLater round (λ rounds. copied fault rounds octets.now.items) late.old.items late.new.items) }
    ensures now { (due : ℕ) → due_texts round due late.new.items ≡ due_texts round due late.old.items }
    ensures sent { All (λ copy. copy.sent ≤ round) late.old.items → All (λ copy. copy.sent ≤ round) late.new.items }
{
    if let Some(
        Fault {
            kind: FaultKind::Late,
            by,
            ..
        },
    ) = fault
    {
        if by > 0 {
            late.push(Late {
                sent: round,
                due: u64::from(round) + u64::from(by),
                octets: copied(octets),
            })?;
        }
    }
    Ok(())
}

/// The list of the copy of a frame that meets a late fault.
fn late_list_of(round: u32, fault: Option<Fault>) -> usize
    ensures small { result < 32 }
    ensures own { (rounds : ℕ) (text : List ℕ) → IsOwnLateList result round fault rounds text }
{
    match fault {
        Some(
            Fault {
                kind: FaultKind::Late,
                by,
                ..
            },
        ) => ((u64::from(round) + u64::from(by)) % 32) as usize,
        _ => 0,
    }
}

/// Keeps the copy in a list.
fn keep_in(
    late_list: &mut LateList,
    round: u32,
    fault: Option<Fault>,
    octets: &Octets,
) -> Result<(), AllocError>
    ensures later { OnOk result (AreDueLater round (λ rounds. copied fault rounds octets.now.items) late_list.old.copies.items late_list.new.copies.items) }
    ensures now { (due : ℕ) → due_texts round due late_list.new.copies.items ≡ due_texts round due late_list.old.copies.items }
    ensures sent { All (λ copy. copy.sent ≤ round) late_list.old.copies.items → All (λ copy. copy.sent ≤ round) late_list.new.copies.items }
{
    keep(&mut late_list.copies, round, fault, octets)
}

/// Keeps the copy of a frame that meets a late fault in its list.
fn keep_on(
    late: &mut [LateList; 32],
    round: u32,
    fault: Option<Fault>,
    octets: &Octets,
) -> Result<(), AllocError>
    requires sent { NoneAfter round late.old }
    ensures later { OnOk result (AreListedLater round (λ rounds. copied fault rounds octets.now.items) late.old late.new) }
    ensures now { (due : ℕ) → listed_late round due late.new ≡ listed_late round due late.old }
    ensures sent { NoneAfter round late.new }
{
    let place = late_list_of(round, fault);
    keep_in(&mut late[place], round, fault, octets)?;
    Ok(())
}

/// Appends what arrives at once of the frames of a round, and keeps the copies that come later.
fn send(
    late: &mut [LateList; 32],
    out: &mut Vec<Octets>,
    faults: &FaultList,
    line: Line,
    round: u32,
    sent: &[Octets],
) -> Result<(), AllocError>
    requires sent { NoneAfter round late.old }
    ensures out { OnOk result (texts_of out.new.items ≡ texts_of out.old.items ++ arriving_from (faults_in faults.now) line round 0 (texts_of sent.now)) }
    ensures later { OnOk result (AreListedLater round (λ rounds. copies_from (faults_in faults.now) line round rounds 0 (texts_of sent.now)) late.old late.new) }
    ensures now { (due : ℕ) → listed_late round due late.new ≡ listed_late round due late.old }
    ensures sent { NoneAfter round late.new }
{
    let mut place = 0;
    for octets in sent {
        let fault = faults.met(line, round, place);
        arrive(out, fault, octets)?;
        keep_on(late, round, fault, octets)?;
        place += 1;
    }
    Ok(())
}

/// Appends the copies of what was sent before a round that are expected in it.
fn push_all_due(late: &Vec<Late>, round: u32, out: &mut Vec<Octets>) -> Result<(), AllocError>
    ensures { OnOk result (texts_of out.new.items ≡ texts_of out.old.items ++ due_texts round round late.now.items) }
{
    for copy in late {
        if copy.sent < round && copy.due == u64::from(round) {
            out.push(copied(&copy.octets))?;
        }
    }
    Ok(())
}

/// Appends the copies of what was sent before a round that are expected in it, from its list.
fn push_due(late: &[LateList; 32], round: u32, out: &mut Vec<Octets>) -> Result<(), AllocError>
    ensures { OnOk result (texts_of out.new.items ≡ texts_of out.old.items ++ listed_late round round late.now) }
{
    push_all_due(&late[(round % 32) as usize].copies, round, out)
}

/// Drops the copies that were expected before a round, and those that were kept when it was tried before.
fn drop_past(late: &mut Vec<Late>, round: u32)
    ensures drops { DropsPast round late.old.items late.new.items }
{
    late.retain(|copy| copy.sent < round && u64::from(round) <= copy.due);
}

/// The same in a list.
fn drop_in(late_list: &mut LateList, round: u32)
    ensures drops { DropsPast round late_list.old.copies.items late_list.new.copies.items }
{
    drop_past(&mut late_list.copies, round);
}

/// The same in the list of the round: those in it were expected 32 rounds ago.
fn drop_one(late: &mut [LateList; 32], round: u32)
    ensures own { DropsPast round (on_late_list late.old (round % 32)) (on_late_list late.new (round % 32)) }
    ensures others { (k : ℕ) → k ≢ round % 32 → on_late_list late.new k ≡ on_late_list late.old k }
{
    drop_in(&mut late[(round % 32) as usize], round);
}

/// The same in all lists.
fn drop_all(late: &mut [LateList; 32], round: u32)
    ensures drops { (k : ℕ) → DropsPast round (on_late_list late.old k) (on_late_list late.new k) }
{
    for k in 0..32 {
        drop_in(&mut late[k], round);
    }
}

/// Drops what was expected before a round; where the round is repeated, also what was kept when it was tried before.
fn make_ready(late: &mut [LateList; 32], last: u32, round: u32)
    requires sent { NoneAfter last late.old }
    ensures now { (due : ℕ) → round ≤ due → listed_late round due late.new ≡ listed_late round due late.old }
    ensures next { (due : ℕ) → round ≤ due → listed_late (round + 1) due late.new ≡ listed_late round due late.old }
    ensures sent { NoneAfter round late.new }
{
    if round <= last {
        drop_all(late, round);
    } else {
        drop_one(late, round);
    }
}

impl StreamLine {
    ghost use Rattle.link_sim.specs.Holds.{Holds, line_of};
    ghost use Rattle.link_sim.specs.LineRounds.{ArrivesOver, HoldsRound, StillHolds};

    /// A line on which nothing was sent.
    pub fn new(alloc: Global, line: Line) -> StreamLine
        ensures holds { (faults : List Fault) → Holds result faults [] }
        ensures line { line_of result ≡ line }
    {
        StreamLine {
            line,
            late: array::from_fn(|_| LateList {
                copies: Vec::new(alloc),
            }),
            last: 0,
        }
    }

    /// What arrives over the line in a round in which these frames are sent; the rounds come in order. The line holds
    /// what the rounds so far left also afterwards, so that a round that fails elsewhere may be repeated.
    pub fn carry(
        &mut self,
        alloc: Global,
        faults: &FaultList,
        round: u32,
        sent: &[Octets],
    ) -> Result<Vec<Octets>, NoMemory>
        ensures arrives { IfOk result (λ out. ArrivesOver self.old (faults_in faults.now) round (texts_of sent.now) (texts_of out.items)) }
        ensures holds { OnOk result (HoldsRound self.old self.new (faults_in faults.now) round (texts_of sent.now)) }
        ensures again { StillHolds self.old self.new (faults_in faults.now) round }
        ensures line { line_of self.new ≡ line_of self.old }
    {
        let line = self.line;
        make_ready(&mut self.late, self.last, round);
        self.last = round;
        let mut out = Vec::new(alloc);
        if send(&mut self.late, &mut out, faults, line, round, sent).is_err() {
            return Err(NoMemory);
        }
        match push_due(&self.late, round, &mut out) {
            Ok(()) => Ok(out),
            Err(_) => Err(NoMemory),
        }
    }
}
