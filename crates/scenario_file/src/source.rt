//! A scenario as the next value of a reader, with its text in parts: the values other than the lists as a tree, and the
//! text of each list, which mostly is a part of the file. The text takes further inputs and another schedule, and is
//! written without being read again.

ghost use Rattle.std.specs.Prelude.{◌≡◌, ◌<◌, ◌≤◌, [], ◌++◌, true, false, codes, length, is_some, Some, IfSome, string_bytes};
ghost use Rattle.json.specs.Json.{value};
ghost use Rattle.serde_json.specs.Data.{Data, object, item, no_items};
ghost use Rattle.serde_json.specs.Find.{get_member};
ghost use Rattle.serde_json.specs.Read.{of_json, converted};
ghost use Rattle.serde_json.specs.View.{view, items_view, members_view};
ghost use Rattle.serde_json.specs.Written.{has_float, items_have_float, comma_if, compact_text};
ghost use Rattle.scenario_data.specs.Content.{scenario_content};
ghost use Rattle.scenario_read.specs.Answers.{IsScenario};
ghost use Rattle.scenario_read.specs.Content.{scenario_of};
ghost use Rattle.scenario_read.specs.Faults.{faults};
ghost use Rattle.scenario_file.specs.Growing.{written, inner_text};
ghost use Rattle.scenario_file.specs.Framing.{setup_with};
ghost use Rattle.scenario_file.specs.Source.{Writes, IsRead, IsSource, with_inputs, with_schedule};

use crate::compact::compact;
use crate::left::Left;
use crate::lists::{Lists, Texts};
use crate::master::no_entries;
use crate::members::{put_in_master, put_named};
use crate::top::{Whole, members_of};
use crate::written::Written;
use json::{Reader, Token};
use scenario_data::{Cabinet, Entry, MasterSetup, Scenario};
use scenario_read::{Parts, Setup, all_judged, checked_parts, scenario_from};
use serde_json::{Map, Value};
use std::alloc::Global;

/// The names of a scenario.
pub(crate) const SCENARIO_NAMES: [&str; 11] = [
    "version",
    "rounds",
    "ticks",
    "community",
    "cabinets",
    "master",
    "inputs",
    "loads",
    "priority",
    "frames",
    "faults",
];

/// A scenario's text in parts: its members except the lists, the text of each list between its brackets, and whether
/// there is an input. After a change that lacked memory it isn't a text any more.
#[derive(Drop)]
pub struct ScenarioText<'a> {
    frame: Map<String, Value>,
    texts: Texts<'a>,
    some: bool,
}

/// A scenario and the parts of its text.
#[derive(Drop)]
pub struct Source<'a> {
    pub scenario: Scenario,
    pub text: ScenarioText<'a>,
}

/// The same setup, with these cabinets and this schedule.
fn with_found(setup: Setup, cabinets: Vec<Cabinet>, schedule: Vec<Entry>) -> Setup
    ensures { result ≡ setup_with setup cabinets schedule }
{
    let Setup {
        rounds,
        ticks,
        community,
        master,
        ..
    } = setup;
    Setup {
        rounds,
        ticks,
        community,
        cabinets,
        master: MasterSetup { schedule, ..master },
    }
}

/// The members of an object.
fn members_in(value: Value) -> Option<Map<String, Value>>
    ensures { IfSome result (λ members. object (members_view members.entries) ≡ view value) }
{
    match value {
        Value::Object(members) => Some(members),
        _ => None,
    }
}

/// The scenario of these parts, where it is right, with room for N bytes of its compact text.
pub(crate) fn source_of<'a>(alloc: Global, whole: Whole<'a>, room: usize) -> Option<Source<'a>>
    requires read { (d : Data) × IsRead whole d }
    ensures source { IfSome result (λ source. (d : Data) → IsRead whole.entry d → IsSource source d) }
    ensures few { IfSome result (λ source. length source.scenario.cabinets.items ≤ 64) }
{
    let Whole { frame, lists } = whole;
    let Lists {
        cabinets,
        schedule,
        events,
        texts,
        last,
    } = lists;
    let text = compact(alloc, &frame, &texts, room)?;
    let object = Value::Object(frame);
    let Ok(parts) = checked_parts(alloc, &object) else {
        return None;
    };
    let Parts { version, setup, .. } = parts;
    if !last.lies_within(version, setup.rounds, setup.cabinets.len()) {
        return None;
    }
    match all_judged(&cabinets) {
        Ok(()) => {}
        Err(_) => return None,
    }
    let frame = members_in(object)?;
    let some = events.inputs.len() > 0;
    let parts = Parts {
        version,
        setup: with_found(setup, cabinets, schedule),
        events,
    };
    Some(Source {
        scenario: scenario_from(parts, text.into_bytes()),
        text: ScenarioText { frame, texts, some },
    })
}

/// Reads the scenario that is the reader's next value, in this file, nested at most 126 deep. Of equal names that
/// `left` has counted only the last is read, and so of equal names of the master, if `left` has names. Nothing if the
/// scenario is not valid, if an earlier of equal names that is read holds a value that no scenario may have, if more
/// were counted of a name than appear, or if memory runs out.
pub fn scenario_at<'a>(
    alloc: Global,
    reader: &mut Reader<'_>,
    left: Left,
    file: &'a [u8],
) -> Option<Source<'a>>
    ensures ok { IfSome result (λ s. (d : Data) × (converted of_json (value 126 reader.old) ≡ Some (d, reader.new)) × (faults d ≡ [])
        × (scenario_content s.scenario ≡ scenario_of d) × Writes s.text d) }
    ensures shorter { IfSome result (λ _. length reader.new < length reader.old) }
    ensures few { IfSome result (λ s. length s.scenario.cabinets.items ≤ 64) }
    ensures reads_back { IfSome result (λ s. IsScenario s.scenario.compact.items (scenario_content s.scenario)) }
{
    match reader.next() {
        Some(Token::BeginObject) => {}
        _ => return None,
    }
    let whole = members_of(alloc, reader, 125, left, file)?;
    match source_of(alloc, whole, file.len()) {
        Some(source) => Some(source),
        None => None,
    }
}

/// The text of entries between the brackets of their list.
fn entries_text<'a>(alloc: Global, entries: &Vec<Value>) -> Option<Written<'a>>
    ensures { IfSome result (λ text. items_have_float (items_view entries.now.items) ≡ false → written text ≡ inner_text false (items_view entries.now.items)) }
{
    let mut text = Written::empty(alloc);
    for i in 0..entries.len() {
        text.add_value(alloc, &entries[i], i > 0)?;
    }
    Some(text)
}

/// Whether inputs are among the members.
fn has_inputs(frame: &Map<String, Value>) -> bool
    ensures { result ≡ is_some (get_member (codes "inputs") (members_view frame.now.entries)) }
{
    frame.contains_key("inputs")
}

impl<'a> ScenarioText<'a> {
    /// Puts inputs without items, where there are none.
    pub fn begin_inputs(&mut self, alloc: Global) -> Option<()>
        ensures begun { IfSome result (λ _. (d : Data) → Writes self.old d → Writes self.new (with_inputs no_items d)) }
        ensures stand { IfSome result (λ _. is_some (get_member (codes "inputs") (members_view self.new.frame.entries)) ≡ true) }
    {
        if has_inputs(&self.frame) {
            return Some(());
        }
        match put_named(alloc, &mut self.frame, "inputs", no_entries(alloc)) {
            Ok(held) => {
                drop(held);
                Some(())
            }
            Err(_) => None,
        }
    }

    /// Adds an input after the inputs.
    pub fn add_input(&mut self, alloc: Global, input: &Value) -> Option<()>
        ensures { IfSome result (λ _. (d : Data) → has_float (view input.now) ≡ false → Writes self.old d
            → Writes self.new (with_inputs (item (view input.now) no_items) d)) }
    {
        self.begin_inputs(alloc)?;
        self.texts.inputs.add_value(alloc, input, self.some)?;
        self.some = true;
        Some(())
    }

    /// Puts these entries in place of the master's schedule.
    pub fn put_schedule(&mut self, alloc: Global, entries: &Vec<Value>) -> Option<()>
        ensures { IfSome result (λ _. (d : Data) → items_have_float (items_view entries.now.items) ≡ false → Writes self.old d
            → Writes self.new (with_schedule (items_view entries.now.items) d)) }
    {
        let text = entries_text(alloc, entries)?;
        match put_in_master(alloc, &mut self.frame, no_entries(alloc)) {
            Ok(()) => {
                self.texts.schedule = text;
                Some(())
            }
            Err(_) => None,
        }
    }

    /// The compact text, with room for N bytes.
    pub fn write(&self, alloc: Global, room: usize) -> Option<String>
        ensures { IfSome result (λ text. (d : Data) → Writes self.now d → string_bytes text ≡ compact_text d) }
    {
        match compact(alloc, &self.frame, &self.texts, room) {
            Some(text) => Some(text),
            None => None,
        }
    }
}
