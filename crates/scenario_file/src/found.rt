//! The items of a list, added one by one. How many rounds and cabinets there are, and the version, may follow later in
//! the text, so that they are held to the most that any scenario has; what they ask for is checked against these later.

ghost use Rattle.std.specs.Prelude.{◌≡◌, ◌≤◌, ◌<◌, ◌⊎◌, [], ◌∷◌, ◌++◌, false, length, IfSome, IsTrue};
ghost use Rattle.serde_json.specs.Data.{Items, item, no_items, array, object};
ghost use Rattle.serde_json.specs.Written.{has_float};
ghost use Rattle.serde_json.specs.View.{view};
ghost use Rattle.scenario_read.specs.Sorted.{Sorted};
ghost use Rattle.scenario_cut.specs.Growing.{both};
ghost use Rattle.scenario_file.specs.Growing.{blanks};
ghost use Rattle.scenario_file.specs.Plain.{InputFits, input_members};
ghost use Rattle.scenario_file.specs.Listing.{ReachGrows, Holds, Within, asked_version, name_of};
ghost use Rattle.scenario_file.specs.Framing.{Begins, stand_in};

use crate::entries::entry_in;
use scenario_data::{Cabinet, Entry, Fault, FrameItem, Input, LoadItem, PriorityItem};
use scenario_read::{cabinet_in, fault_in, frame_in, input_in, load_in, priority_in};
use serde_json::{Map, Value};
use std::alloc::Global;

/// What the items of a list say, by the list.
#[derive(Drop)]
pub(crate) enum Found {
    Cabinets(Vec<Cabinet>),
    Inputs(Vec<Input>),
    Loads(Vec<LoadItem>),
    Priority(Vec<PriorityItem>),
    Frames(Vec<FrameItem>),
    Faults(Vec<Fault>),
    Schedule(Vec<Entry>),
}

/// What items ask for: a round and a cabinet, counted from 1, and a version of the scenario; 0 is none.
#[derive(Clone, Copy)]
pub(crate) struct Reach {
    pub round: u32,
    pub cabinet: u32,
    pub version: u32,
}

impl Found {
    /// Whether this is the list of the inputs.
    pub(crate) fn is_inputs(&self) -> bool {
        matches!(self, Found::Inputs(_))
    }
}

/// The greater of two numbers.
fn greater(one: u32, other: u32) -> u32
    ensures one { one ≤ result }
    ensures other { other ≤ result }
{
    if one < other { other } else { one }
}

impl Reach {
    /// What asks for nothing.
    pub(crate) fn none() -> Reach
        ensures { result ≡ record { round = 0; cabinet = 0; version = 0 } }
    {
        Reach {
            round: 0,
            cabinet: 0,
            version: 0,
        }
    }

    /// The later round, the higher cabinet and the later version of two.
    pub(crate) fn farthest(self, other: Reach) -> Reach
        ensures self_far { ReachGrows self result }
        ensures other_far { ReachGrows other result }
    {
        Reach {
            round: greater(self.round, other.round),
            cabinet: greater(self.cabinet, other.cabinet),
            version: greater(self.version, other.version),
        }
    }

    /// Whether a scenario of this version, 1 or 2, with this number of rounds and cabinets has all that is asked for.
    pub(crate) fn lies_within(self, version: u32, rounds: u32, cabinets: usize) -> bool
        ensures round { IsTrue result → self.round ≤ rounds }
        ensures cabinet { IsTrue result → self.cabinet ≤ cabinets }
        ensures version { IsTrue result → (self.version < 2) ⊎ (version ≡ 2) }
    {
        self.round <= rounds
            && self.cabinet as usize <= cabinets
            && (self.version < 2 || version == 2)
    }
}

/// The list of this name at the top, without items yet; none, where the name is not that of a list.
pub(crate) fn list_named(alloc: Global, name: &str) -> Option<Found>
    ensures { Begins result name.now }
{
    if name == "cabinets" {
        return Some(Found::Cabinets(Vec::new(alloc)));
    }
    if name == "inputs" {
        return Some(Found::Inputs(Vec::new(alloc)));
    }
    if name == "loads" {
        return Some(Found::Loads(Vec::new(alloc)));
    }
    if name == "priority" {
        return Some(Found::Priority(Vec::new(alloc)));
    }
    if name == "frames" {
        return Some(Found::Frames(Vec::new(alloc)));
    }
    if name == "faults" {
        return Some(Found::Faults(Vec::new(alloc)));
    }
    None
}

/// The version of a scenario that a cabinet asks for: 2, where it names how its clock drifts.
fn asked_version(object: &Value) -> u32
    ensures { result ≡ asked_version (view object.now) }
{
    if object.get("gain").is_some() || object.get("lose").is_some() {
        2
    } else {
        1
    }
}

/// Puts a cabinet at the end.
fn push_cabinet(cabinets: &mut Vec<Cabinet>, cabinet: Cabinet) -> Option<()>
    ensures { IfSome result (λ _. cabinets.new.items ≡ cabinets.old.items ++ cabinet ∷ []) }
{
    match cabinets.push(cabinet) {
        Ok(()) => Some(()),
        Err(_) => None,
    }
}

/// Adds a cabinet, of 64 at most.
fn add_cabinet(alloc: Global, object: &Value, cabinets: &mut Vec<Cabinet>) -> Option<Reach>
    ensures added { IfSome result (λ _. (ds : Items) → Holds (Found.Cabinets cabinets.old) ds → Holds (Found.Cabinets cabinets.new) (both ds (item (view object.now) no_items))) }
    ensures floatless { IfSome result (λ _. Sorted (view object.now) → has_float (view object.now) ≡ false) }
    ensures reach { IfSome result (λ reach. Within (name_of (Found.Cabinets cabinets.old)) reach (view object.now)) }
{
    let place = cabinets.len();
    if place >= 64 {
        return None;
    }
    let Ok(cabinet) = cabinet_in(alloc, object, place, 2) else {
        return None;
    };
    push_cabinet(cabinets, cabinet)?;
    Some(Reach {
        round: 0,
        cabinet: 0,
        version: asked_version(object),
    })
}

/// Adds an input, of a million at most.
fn add_input(alloc: Global, object: &Value, inputs: &mut Vec<Input>) -> Option<Reach>
    ensures added { IfSome result (λ _. (ds : Items) → Holds (Found.Inputs inputs.old) ds → Holds (Found.Inputs inputs.new) (both ds (item (view object.now) no_items))) }
    ensures floatless { IfSome result (λ _. Sorted (view object.now) → has_float (view object.now) ≡ false) }
    ensures reach { IfSome result (λ reach. Within (name_of (Found.Inputs inputs.old)) reach (view object.now)) }
{
    let place = inputs.len();
    if place >= 1_000_000 {
        return None;
    }
    let Ok(input) = input_in(alloc, object, place, 86_400, 64) else {
        return None;
    };
    let reach = Reach {
        round: input.round,
        cabinet: input.cabinet,
        version: 0,
    };
    match inputs.push(input) {
        Ok(()) => Some(reach),
        Err(_) => None,
    }
}

/// Puts an input that is without fault at the end of a million at most.
fn push_plain(input: Input, inputs: &mut Vec<Input>) -> Option<Reach>
    requires fits { InputFits input }
    ensures added { IfSome result (λ _. (ds : Items) → Holds (Found.Inputs inputs.old) ds → Holds (Found.Inputs inputs.new) (both ds (item (object (input_members input)) no_items))) }
    ensures reach { IfSome result (λ reach. Within (name_of (Found.Inputs inputs.old)) reach (object (input_members input))) }
{
    if inputs.len() >= 1_000_000 {
        return None;
    }
    match inputs.push(input) {
        Ok(()) => Some(Reach {
            round: input.round,
            cabinet: input.cabinet,
            version: 0,
        }),
        Err(_) => None,
    }
}

/// Adds an input that is without fault, to a list of inputs.
pub(crate) fn add_plain(input: Input, found: &mut Found) -> Option<Reach>
    requires fits { InputFits input }
    ensures added { IfSome result (λ _. (ds : Items) → Holds found.old ds → Holds found.new (both ds (item (object (input_members input)) no_items))) }
    ensures reach { IfSome result (λ reach. Within (name_of found.old) reach (object (input_members input))) }
    ensures list { name_of found.new ≡ name_of found.old }
{
    match found {
        Found::Inputs(inputs) => push_plain(input, inputs),
        _ => None,
    }
}

/// Puts a load at the end.
fn push_load(loads: &mut Vec<LoadItem>, load: LoadItem) -> Option<()>
    ensures { IfSome result (λ _. loads.new.items ≡ loads.old.items ++ load ∷ []) }
{
    match loads.push(load) {
        Ok(()) => Some(()),
        Err(_) => None,
    }
}

/// Adds a load, of a hundred at most of its cabinet.
fn add_load(alloc: Global, object: &Value, loads: &mut Vec<LoadItem>) -> Option<Reach>
    ensures added { IfSome result (λ _. (ds : Items) → Holds (Found.Loads loads.old) ds → Holds (Found.Loads loads.new) (both ds (item (view object.now) no_items))) }
    ensures floatless { IfSome result (λ _. Sorted (view object.now) → has_float (view object.now) ≡ false) }
    ensures reach { IfSome result (λ reach. Within (name_of (Found.Loads loads.old)) reach (view object.now)) }
{
    let place = loads.len();
    let Ok(load) = load_in(alloc, object, loads, place, 86_400, 64) else {
        return None;
    };
    let reach = Reach {
        round: load.round,
        cabinet: load.cabinet,
        version: 0,
    };
    push_load(loads, load)?;
    Some(reach)
}

/// Adds a priority request or a cancel, of a hundred thousand at most.
fn add_priority(alloc: Global, object: &Value, priority: &mut Vec<PriorityItem>) -> Option<Reach>
    ensures added { IfSome result (λ _. (ds : Items) → Holds (Found.Priority priority.old) ds → Holds (Found.Priority priority.new) (both ds (item (view object.now) no_items))) }
    ensures floatless { IfSome result (λ _. Sorted (view object.now) → has_float (view object.now) ≡ false) }
    ensures reach { IfSome result (λ reach. Within (name_of (Found.Priority priority.old)) reach (view object.now)) }
{
    let place = priority.len();
    if place >= 100_000 {
        return None;
    }
    let Ok(found) = priority_in(alloc, object, place, 86_400, 64) else {
        return None;
    };
    let reach = Reach {
        round: found.round,
        cabinet: found.cabinet,
        version: 0,
    };
    match priority.push(found) {
        Ok(()) => Some(reach),
        Err(_) => None,
    }
}

/// Puts a frame at the end.
fn push_frame(frames: &mut Vec<FrameItem>, frame: FrameItem) -> Option<()>
    ensures { IfSome result (λ _. frames.new.items ≡ frames.old.items ++ frame ∷ []) }
{
    match frames.push(frame) {
        Ok(()) => Some(()),
        Err(_) => None,
    }
}

/// Adds a frame, of a hundred thousand at most.
fn add_frame(alloc: Global, object: &Value, frames: &mut Vec<FrameItem>) -> Option<Reach>
    ensures added { IfSome result (λ _. (ds : Items) → Holds (Found.Frames frames.old) ds → Holds (Found.Frames frames.new) (both ds (item (view object.now) no_items))) }
    ensures floatless { IfSome result (λ _. Sorted (view object.now) → has_float (view object.now) ≡ false) }
    ensures reach { IfSome result (λ reach. Within (name_of (Found.Frames frames.old)) reach (view object.now)) }
{
    let place = frames.len();
    if place >= 100_000 {
        return None;
    }
    let Ok(frame) = frame_in(alloc, object, place, 86_400, 64) else {
        return None;
    };
    let reach = Reach {
        round: frame.round,
        cabinet: frame.cabinet,
        version: 0,
    };
    push_frame(frames, frame)?;
    Some(reach)
}

/// Adds a fault of the link, of a hundred thousand at most.
fn add_fault(alloc: Global, object: &Value, faults: &mut Vec<Fault>) -> Option<Reach>
    ensures added { IfSome result (λ _. (ds : Items) → Holds (Found.Faults faults.old) ds → Holds (Found.Faults faults.new) (both ds (item (view object.now) no_items))) }
    ensures floatless { IfSome result (λ _. Sorted (view object.now) → has_float (view object.now) ≡ false) }
    ensures reach { IfSome result (λ reach. Within (name_of (Found.Faults faults.old)) reach (view object.now)) }
{
    let place = faults.len();
    if place >= 100_000 {
        return None;
    }
    let Ok(fault) = fault_in(alloc, object, place, 86_400, 64) else {
        return None;
    };
    let reach = Reach {
        round: fault.round,
        cabinet: fault.cabinet,
        version: 0,
    };
    match faults.push(fault) {
        Ok(()) => Some(reach),
        Err(_) => None,
    }
}

/// Adds an entry of the master's schedule, of a thousand at most. It asks for nothing.
fn add_entry(alloc: Global, object: &Value, entries: &mut Vec<Entry>) -> Option<Reach>
    ensures added { IfSome result (λ _. (ds : Items) → Holds (Found.Schedule entries.old) ds → Holds (Found.Schedule entries.new) (both ds (item (view object.now) no_items))) }
    ensures floatless { IfSome result (λ _. Sorted (view object.now) → has_float (view object.now) ≡ false) }
    ensures reach { IfSome result (λ reach. Within (name_of (Found.Schedule entries.old)) reach (view object.now)) }
{
    let place = entries.len();
    if place >= 1000 {
        return None;
    }
    let Ok(entry) = entry_in(alloc, object, place) else {
        return None;
    };
    match entries.push(entry) {
        Ok(()) => Some(Reach::none()),
        Err(_) => None,
    }
}

/// Adds an item to its list, and says what it asks for.
pub(crate) fn add_item(alloc: Global, object: &Value, found: &mut Found) -> Option<Reach>
    ensures added { IfSome result (λ _. (ds : Items) → Holds found.old ds → Holds found.new (both ds (item (view object.now) no_items))) }
    ensures floatless { IfSome result (λ _. Sorted (view object.now) → has_float (view object.now) ≡ false) }
    ensures reach { IfSome result (λ reach. Within (name_of found.old) reach (view object.now)) }
    ensures list { name_of found.new ≡ name_of found.old }
{
    match found {
        Found::Cabinets(cabinets) => add_cabinet(alloc, object, cabinets),
        Found::Inputs(inputs) => add_input(alloc, object, inputs),
        Found::Loads(loads) => add_load(alloc, object, loads),
        Found::Priority(priority) => add_priority(alloc, object, priority),
        Found::Frames(frames) => add_frame(alloc, object, frames),
        Found::Faults(faults) => add_fault(alloc, object, faults),
        Found::Schedule(entries) => add_entry(alloc, object, entries),
    }
}

/// A list of that many empty objects.
fn blanks(alloc: Global, count: usize) -> Option<Value>
    ensures { IfSome result (λ list. view list ≡ array (blanks count)) }
{
    let mut objects = Vec::new(alloc);
    for _ in 0..count {
        match objects.push(Value::Object(Map::new(alloc))) {
            Ok(()) => {}
            Err(_) => return None,
        }
    }
    Some(Value::Array(objects))
}

/// What represents a list in addition to what isn't read item by item: a list of as many empty objects as there are
/// cabinets, and an empty list for each other one.
pub(crate) fn stand_in(alloc: Global, found: &Found) -> Option<Value>
    ensures { IfSome result (λ list. (ds : Items) → Holds found.now ds → view list ≡ stand_in (name_of found.now) ds) }
{
    match found {
        Found::Cabinets(cabinets) => match blanks(alloc, cabinets.len()) {
            Some(list) => Some(list),
            None => None,
        },
        _ => Some(Value::Array(Vec::new(alloc))),
    }
}
