//! The lists that are read item by item, of the cabinets, of what happens in the rounds and of the master's schedule: what
//! their items say, and the compact text of each.

ghost use Rattle.std.specs.Prelude.{◌≡◌, ℕ, List, true, false, codes, IfSome, IfNone};
ghost use Rattle.serde_json.specs.Data.{Data, Items, Members, no_members, put, no_items};
ghost use Rattle.scenario_file.specs.Growing.{written};
ghost use Rattle.scenario_file.specs.Listing.{name_of, Lists as ListsItems};
ghost use Rattle.scenario_file.specs.Framing.{AllStand, HoldsPlace, is_list, text_named, stand_in, with_rows};

use crate::found::{Found, Reach};
use crate::listed::Listed;
use crate::written::Written;
use scenario_data::{Cabinet, Entry};
use scenario_read::Events;
use std::alloc::Global;

/// The compact text between the brackets of each list.
#[derive(Drop)]
pub(crate) struct Texts<'a> {
    pub cabinets: Written<'a>,
    pub inputs: Written<'a>,
    pub loads: Written<'a>,
    pub priority: Written<'a>,
    pub frames: Written<'a>,
    pub faults: Written<'a>,
    pub schedule: Written<'a>,
}

impl<'a> Texts<'a> {
    /// The text of the list of this name at the top; none, where the name is not that of a list.
    pub(crate) fn named(&self, name: &str) -> Option<&Written<'a>>
        ensures text { IfSome result (λ text. (is_list name.now ≡ true) × (written text.now ≡ text_named self.now name.now)) }
        ensures none { IfNone result (is_list name.now ≡ false) }
    {
        match name {
            "cabinets" => Some(&self.cabinets),
            "inputs" => Some(&self.inputs),
            "loads" => Some(&self.loads),
            "priority" => Some(&self.priority),
            "frames" => Some(&self.frames),
            "faults" => Some(&self.faults),
            _ => None,
        }
    }
}

/// The cabinets, the schedule and what happens in the rounds, the texts of these lists, and what their items ask for at the
/// most.
#[derive(Drop)]
pub(crate) struct Lists<'a> {
    pub cabinets: Vec<Cabinet>,
    pub schedule: Vec<Entry>,
    pub events: Events,
    pub texts: Texts<'a>,
    pub last: Reach,
}

/// Lists without items.
pub(crate) fn no_lists<'a>(alloc: Global) -> Lists<'a>
    ensures { AllStand result no_members (λ _. no_items) }
{
    Lists {
        cabinets: Vec::new(alloc),
        schedule: Vec::new(alloc),
        events: Events {
            inputs: Vec::new(alloc),
            loads: Vec::new(alloc),
            priority: Vec::new(alloc),
            frames: Vec::new(alloc),
            faults: Vec::new(alloc),
        },
        texts: Texts {
            cabinets: Written::empty(alloc),
            inputs: Written::empty(alloc),
            loads: Written::empty(alloc),
            priority: Written::empty(alloc),
            frames: Written::empty(alloc),
            faults: Written::empty(alloc),
            schedule: Written::empty(alloc),
        },
        last: Reach::none(),
    }
}

/// Puts a list in place of what was found of it before: one of the top with what represents it in the frame, the
/// schedule with the master in which it is.
pub(crate) fn put_list<'a>(lists: &mut Lists<'a>, listed: Listed<'a>)
    ensures top { is_list (name_of listed.entry.found) ≡ true → (frame : Members) → (rows : List ℕ → Items) → (ds : Items) → AllStand lists.old frame rows → ListsItems listed.entry ds
        → AllStand lists.new (put (name_of listed.entry.found) (stand_in (name_of listed.entry.found) ds) frame) (with_rows rows (name_of listed.entry.found) ds) }
    ensures schedule { name_of listed.entry.found ≡ codes "schedule" → (frame : Members) → (rows : List ℕ → Items) → (ds : Items) → (master : Data) → AllStand lists.old frame rows → ListsItems listed.entry ds
        → HoldsPlace master ds → AllStand lists.new (put (codes "master") master frame) (with_rows rows (codes "schedule") ds) }
{
    let Listed {
        found,
        text,
        last,
        ..
    } = listed;
    lists.last = lists.last.farthest(last);
    match found {
        Found::Cabinets(cabinets) => {
            lists.cabinets = cabinets;
            lists.texts.cabinets = text;
        }
        Found::Inputs(inputs) => {
            lists.events.inputs = inputs;
            lists.texts.inputs = text;
        }
        Found::Loads(loads) => {
            lists.events.loads = loads;
            lists.texts.loads = text;
        }
        Found::Priority(priority) => {
            lists.events.priority = priority;
            lists.texts.priority = text;
        }
        Found::Frames(frames) => {
            lists.events.frames = frames;
            lists.texts.frames = text;
        }
        Found::Faults(faults) => {
            lists.events.faults = faults;
            lists.texts.faults = text;
        }
        Found::Schedule(schedule) => {
            lists.schedule = schedule;
            lists.texts.schedule = text;
        }
    }
}
