//! What the master keeps of a cabinet's downloads: the last frame, its result, and the place of the next load.

ghost use Rattle.std.specs.Prelude.{◌≡◌, ◌≤◌, ◌∷◌, ℕ, List, [], drop, map, length, max};
ghost use Rattle.std.specs.Option.{ForSome, option_map};
ghost use Rattle.std.specs.List.{slice_get};
ghost use Rattle.sig_tables.specs.Putting.{put_content};
ghost use Rattle.scenario_data.specs.Content.{LoadContent, load_content};
ghost use Rattle.requests.specs.Requests.{octets_in};
ghost use Rattle.master_load.specs.Downloads.{ArePuts, AreLoads, IsFirstOf, cells_in, loads_of, frame_text};
ghost use Rattle.master_load.specs.Loading.{LoadEvent, AnswerTold, answer, begin_next, begun_by, last_frame, next_frame, note_of, step_due, with_frame};

use crate::download::{LoadFrame, Step, step_after, step_octets};
use requests::answers;
use scenario_data::{LoadItem, Scenario};
use sig_tables::{Cell, CellValue};
use sig_types::{MasterNote, Octets};
use snmp_msg::Message;

/// The result of a frame: no answer yet, a good one, or any other.
#[derive(Clone, Copy, PartialEq, Eq)]
pub enum Outcome {
    Open,
    Good,
    Refused,
}

/// The downloads of one cabinet: the last frame and its result, the place of its load among all loads of the scenario,
/// and the place from which the next load of the cabinet is looked for.
#[derive(Clone, Copy)]
pub struct Loader {
    sent: Option<LoadFrame>,
    outcome: Outcome,
    at: usize,
    next: usize,
    ghost begun: { ForSome sent (λ frame. frame.load ≤ next) },
    ghost few: { next ≤ 1000000 },
}

/// The place of the first load of a cabinet from a place on.
fn next_place(loads: &[LoadItem], cab: u32, from: usize) -> usize
    ensures beyond { from ≤ result }
    ensures within { result ≤ max from (length loads.now) }
    ensures none { loads_of cab (map load_content (drop result loads.now)) ≡ loads_of cab (map load_content (drop from loads.now)) }
    ensures first { IsFirstOf cab (map load_content (drop result loads.now)) }
{
    for place in from..loads.len() {
        if loads[place].cabinet == cab {
            return place;
        }
    }
    from.max(loads.len())
}

/// The cells of the load at a place; none where there is no such load.
fn cells_at(loads: &[LoadItem], place: usize) -> &[(Cell, CellValue)]
    requires loads { AreLoads (map load_content loads.now) }
    ensures cells { map put_content result.now ≡ cells_in (slice_get (map load_content loads.now) place) }
    ensures few { length result.now ≤ 768 }
    ensures puts { ArePuts (map put_content result.now) }
{
    if place < loads.len() {
        loads[place].cells.as_slice()
    } else {
        &[]
    }
}

impl Loader {
    ghost use Rattle.master_load.specs.LoaderStands.{LoaderStands};

    /// Nothing was sent yet.
    pub fn new() -> Loader
        ensures { (cab : ℕ) (loads : List LoadContent) → LoaderStands result cab loads [] }
    {
        Loader {
            sent: None,
            outcome: Outcome::Open,
            at: 0,
            next: 0,
        }
    }

    /// A message arrived on the load stream: a note where it is the first Response to the last frame and ends the load.
    pub fn reply(&mut self, m: &Message) -> Option<MasterNote>
        ensures made { (cab : ℕ) (loads : List LoadContent) (past : List LoadEvent) → LoaderStands self.old cab loads past → result ≡ note_of past m.now }
        ensures stands { (cab : ℕ) (loads : List LoadContent) (past : List LoadEvent) → LoaderStands self.old cab loads past → LoaderStands self.new cab loads (AnswerTold m.now ∷ past) }
    {
        let Some(frame) = self.sent else {
            return None;
        };
        if self.outcome != Outcome::Open || !answers(frame.id, m) {
            return None;
        }
        if m.status != 0 {
            self.outcome = Outcome::Refused;
            return Some(MasterNote::LoadRefused(frame.cab, frame.load, m.status, m.index));
        }
        self.outcome = Outcome::Good;
        match frame.step {
            Step::Finish => Some(MasterNote::LoadDone(frame.cab, frame.load)),
            _ => None,
        }
    }

    /// The step of the present load that is to be sent; none where there is no load or it is at its end.
    fn step_due(&self, loads: &[LoadItem]) -> Option<Step>
        requires loads { AreLoads (map load_content loads.now) }
        ensures { (cab : ℕ) (past : List LoadEvent) → LoaderStands self.now cab (map load_content loads.now) past
            → result ≡ step_due (map load_content loads.now) cab (last_frame past) (answer past) }
    {
        let Some(frame) = self.sent else {
            return None;
        };
        match self.outcome {
            Outcome::Open => Some(frame.step),
            Outcome::Good => step_after(cells_at(loads, self.at).len(), frame.step),
            Outcome::Refused => None,
        }
    }

    /// The number of the load that was begun last; 0 before the first.
    fn begun(&self) -> u32
        ensures begun { result ≡ begun_by self.now.sent }
        ensures few { result ≤ self.now.next }
    {
        match self.sent {
            Some(frame) => frame.load,
            None => 0,
        }
    }

    /// Begins the next load of the cabinet, once its round has come.
    fn begin(&mut self, loads: &[LoadItem], cab: u32, round: u32, id: i32) -> Option<LoadFrame>
        requires few { length loads.now ≤ 1000000 }
        ensures begins { (past : List LoadEvent) → LoaderStands self.old cab (map load_content loads.now) past
            → result ≡ begin_next (map load_content loads.now) cab round id (begun_by (last_frame past)) }
        ensures stands { (past : List LoadEvent) → LoaderStands self.old cab (map load_content loads.now) past
            → LoaderStands self.new cab (map load_content loads.now) (with_frame result past) }
        ensures sent { ForSome result (λ frame. (frame.cab ≡ cab) × (frame.load ≤ 1000000)) }
    {
        let begun = self.begun();
        self.next = next_place(loads, cab, self.next);
        if self.next >= loads.len() {
            return None;
        }
        if round < loads[self.next].round {
            return None;
        }
        let frame = LoadFrame {
            cab,
            load: begun + 1,
            step: Step::Begin,
            id,
        };
        self.at = self.next;
        self.next += 1;
        self.sent = Some(frame);
        self.outcome = Outcome::Open;
        Some(frame)
    }

    /// The frame that is sent in a round under an id: of the present load, or the begin of the next.
    fn turn(&mut self, loads: &[LoadItem], cab: u32, round: u32, id: i32) -> Option<LoadFrame>
        requires few { length loads.now ≤ 1000000 }
        requires loads { AreLoads (map load_content loads.now) }
        ensures follows { (past : List LoadEvent) → LoaderStands self.old cab (map load_content loads.now) past
            → result ≡ next_frame (map load_content loads.now) cab round id past }
        ensures stands { (past : List LoadEvent) → LoaderStands self.old cab (map load_content loads.now) past
            → LoaderStands self.new cab (map load_content loads.now) (with_frame result past) }
        ensures sent { ForSome result (λ frame. (frame.cab ≡ cab) × (frame.load ≤ 1000000)) }
    {
        match (self.sent, self.step_due(loads)) {
            (Some(last), Some(step)) => {
                let frame = LoadFrame {
                    cab,
                    load: last.load,
                    step,
                    id,
                };
                self.sent = Some(frame);
                self.outcome = Outcome::Open;
                Some(frame)
            }
            _ => self.begin(loads, cab, round, id),
        }
    }

    /// What is sent to a cabinet in a round under an id; none exactly where no load is active and none begins.
    pub fn next(&mut self, round: u32, cab: u32, s: &Scenario, id: i32) -> Option<Octets>
        requires few { length s.now.loads.items ≤ 1000000 }
        requires loads { AreLoads (map load_content s.now.loads.items) }
        ensures sent { (past : List LoadEvent) → LoaderStands self.old cab (map load_content s.now.loads.items) past
            → octets_in result ≡ option_map (frame_text s.now.community.items (map load_content s.now.loads.items)) (next_frame (map load_content s.now.loads.items) cab round id past) }
        ensures stands { (past : List LoadEvent) → LoaderStands self.old cab (map load_content s.now.loads.items) past
            → LoaderStands self.new cab (map load_content s.now.loads.items) (with_frame (next_frame (map load_content s.now.loads.items) cab round id past) past) }
    {
        match self.turn(&s.loads, cab, round, id) {
            Some(frame) => {
                let cells = cells_at(&s.loads, self.at);
                Some(step_octets(&s.community, frame.id, frame.load, cells, frame.step))
            }
            None => None,
        }
    }
}
