//! The download stage of a cabinet (transactions after NTCIP 1201): where the parts of new tables are gathered before
//! they are put in force as a whole. It keeps one copy of the tables, which is made when a download begins, and never
//! changes those in force: it answers `Accepted` if its own tables should replace them. Nothing here takes memory.
#![tactic(auto)]

ghost use Rattle.std.specs.Prelude.{◌≡◌, ◌≤◌, List, [], ◌∷◌, Some, map};

use rule_book::judge;
use sig_tables::{Cell, CellValue, Tables};
use sig_types::{Broken, StageAnswer};

mod laws;

pub use laws::{
    installs_what_keeps_the_rules, nothing_after_done, parts_come_in_order, staged_tables_in_range,
};

/// The state of a stage: nothing was begun; parts are taken; all is verified; the tables were put in force.
#[derive(Clone, Copy, PartialEq, Eq)]
pub enum StageState {
    Rest,
    Open,
    Checked,
    Done,
}

/// A cabinet's stage: the id of the last download that began, how many of its parts were taken, where it is, the last
/// answer, and the tables that the download comes to so far.
#[derive(Drop)]
pub struct Stage {
    kept: u32,
    taken: u16,
    stage_state: StageState,
    last: Option<StageAnswer>,
    tables: Tables,
    ghost few: { taken ≤ 60000 },
}

impl Stage {
    ghost use Rattle.sig_tables.specs.Putting.{put_content};
    ghost use Rattle.stage_txn.specs.Calls.{Call, Begin, Part, Verify, Finish};
    ghost use Rattle.stage_txn.specs.Answers.{answered, answer_to, first_broken, staged, stage_state, state_code, last_answer};
    ghost use Rattle.stage_txn.specs.StageKeeps.{StageStands};

    /// A stage to which nothing was sent. Its tables are the standard ones until a download begins.
    pub fn new() -> Stage
        ensures stands { StageStands result [] }
    {
        Stage {
            kept: 0,
            taken: 0,
            stage_state: StageState::Rest,
            last: None,
            tables: Tables::std8(),
        }
    }

    /// Keeps what was answered, and answers it.
    fn answered(&mut self, answer: StageAnswer) -> StageAnswer
        ensures answer { result ≡ answer }
        ensures last { self.new.last ≡ Some answer }
        ensures kept { self.new.kept ≡ self.old.kept }
        ensures taken { self.new.taken ≡ self.old.taken }
        ensures stage_state { self.new.stage_state ≡ self.old.stage_state }
        ensures tables { self.new.tables ≡ self.old.tables }
    {
        self.last = Some(answer);
        answer
    }

    /// The first rule that the staged tables break together with those in force.
    #[tactic(auto, unfolding(crate::specs::Answers::first_broken))]
    fn judged(&self, in_force: &Tables, flashing: bool) -> Result<(), Broken>
        ensures { result ≡ first_broken self.now.tables in_force.now flashing }
    {
        judge(&self.tables, in_force, flashing)
    }

    /// A download begins under this id, 1 or greater, over the tables in force.
    pub fn begin(&mut self, id: u32, in_force: &Tables) -> StageAnswer
        requires some { 1 ≤ id }
        ensures answer { (calls : List Call) → StageStands self.old calls → result ≡ answer_to (answered calls) (Begin id in_force.now) }
        ensures stands { (calls : List Call) → StageStands self.old calls → StageStands self.new (Begin id in_force.now ∷ calls) }
    {
        if id == self.kept {
            return self.answered(StageAnswer::Repeated);
        }
        if id < self.kept {
            return self.answered(StageAnswer::WrongToken);
        }
        self.kept = id;
        self.taken = 0;
        self.stage_state = StageState::Open;
        self.tables = *in_force;
        self.answered(StageAnswer::Staged)
    }

    /// A part of a download, 1 to 60,000. Its cells are put in order, where it is the next part; a cell that there isn't, or
    /// whose value doesn't fit, changes nothing.
    pub fn part(&mut self, id: u32, number: u16, cells: &[(Cell, CellValue)]) -> StageAnswer
        requires some { 1 ≤ id }
        requires some_part { 1 ≤ number }
        requires few_parts { number ≤ 60000 }
        ensures answer { (calls : List Call) → StageStands self.old calls
            → result ≡ answer_to (answered calls) (Part id number (map put_content cells.now)) }
        ensures stands { (calls : List Call) → StageStands self.old calls
            → StageStands self.new (Part id number (map put_content cells.now) ∷ calls) }
    {
        if id != self.kept {
            return self.answered(StageAnswer::WrongToken);
        }
        if number <= self.taken {
            return self.answered(StageAnswer::Repeated);
        }
        if self.stage_state != StageState::Open || number != self.taken + 1 {
            return self.answered(StageAnswer::WrongPart(self.taken + 1));
        }
        self.tables.put_each(cells);
        self.taken = number;
        self.answered(StageAnswer::Staged)
    }

    /// The download has this number of parts: whether all have come, and its tables keep the rules with regard to those
    /// in force, in a cabinet that flashes or not.
    pub fn verify(&mut self, id: u32, total: u16, in_force: &Tables, flashing: bool) -> StageAnswer
        requires some { 1 ≤ id }
        ensures answer { (calls : List Call) → StageStands self.old calls
            → result ≡ answer_to (answered calls) (Verify id total in_force.now flashing) }
        ensures stands { (calls : List Call) → StageStands self.old calls
            → StageStands self.new (Verify id total in_force.now flashing ∷ calls) }
    {
        if id != self.kept {
            return self.answered(StageAnswer::WrongToken);
        }
        match self.stage_state {
            StageState::Checked | StageState::Done => return self.answered(StageAnswer::Repeated),
            StageState::Rest | StageState::Open => {}
        }
        if total != self.taken {
            return self.answered(StageAnswer::WrongPart(self.taken + 1));
        }
        match self.judged(in_force, flashing) {
            Ok(()) => {
                self.stage_state = StageState::Checked;
                self.answered(StageAnswer::Verified)
            }
            Err(broken) => self.answered(StageAnswer::Refused(broken)),
        }
    }

    /// The download ends. Where the answer is `Accepted` the staged tables are to be put in force, and nowhere else.
    pub fn finish(&mut self, id: u32, in_force: &Tables, flashing: bool) -> StageAnswer
        requires some { 1 ≤ id }
        ensures answer { (calls : List Call) → StageStands self.old calls
            → result ≡ answer_to (answered calls) (Finish id in_force.now flashing) }
        ensures stands { (calls : List Call) → StageStands self.old calls
            → StageStands self.new (Finish id in_force.now flashing ∷ calls) }
    {
        if id != self.kept {
            return self.answered(StageAnswer::WrongToken);
        }
        match self.stage_state {
            StageState::Done => return self.answered(StageAnswer::Repeated),
            StageState::Rest | StageState::Open => return self.answered(StageAnswer::NotVerified),
            StageState::Checked => {}
        }
        match self.judged(in_force, flashing) {
            Ok(()) => {
                self.stage_state = StageState::Done;
                self.answered(StageAnswer::Accepted)
            }
            Err(broken) => {
                self.stage_state = StageState::Open;
                self.answered(StageAnswer::Refused(broken))
            }
        }
    }

    /// The staged tables, as they would be put in force.
    pub fn staged(&self) -> &Tables
        ensures { (calls : List Call) → StageStands self.now calls → result.now ≡ staged (answered calls) }
    {
        &self.tables
    }

    /// The state of the stage: 1 normal, 2 transaction, 3 verify, 6 done.
    pub fn state(&self) -> u8
        ensures { (calls : List Call) → StageStands self.now calls → result ≡ state_code (stage_state (answered calls)) }
    {
        match self.stage_state {
            StageState::Rest => 1,
            StageState::Open => 2,
            StageState::Checked => 3,
            StageState::Done => 6,
        }
    }

    /// The last answer that it gave, if any.
    pub fn last(&self) -> Option<StageAnswer>
        ensures { (calls : List Call) → StageStands self.now calls → result ≡ last_answer (answered calls) }
    {
        self.last
    }
}
