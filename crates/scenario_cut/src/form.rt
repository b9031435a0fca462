//! The places of a value that is read, by what may open there and how much of it is kept: a scenario, and the objects
//! around one that ask for progression bands or describe detectors.

ghost use Rattle.std.specs.Prelude.{◌≡◌, ◌<◌, ◌≤◌, ◌+◌, bytes_eq, if◌then◌else◌};
ghost use Rattle.serde_json.specs.View.{view};
ghost use Rattle.scenario_cut.specs.Cutting.{Street, Field, Outer, Whole, Bare, opens_array, opens_object, item_form, member_form, is_of_a_round, is_a_pulse, is_event_list, room, room_behind, drops};

use serde_json::Value;

/// A place: an object that asks for bands, and a field file; either of them with its scenario except its lists, with
/// its bank and the rules by which patterns follow traffic, and at any other name with only a number, a text or a word;
/// a whole scenario; a scenario except its lists of cabinets and of what happens; these lists, with their items; pulses
/// of detectors; the master; entries, of its schedule, of a bank or of a rule; those rules, with their sections; cells,
/// one of them, and a part of it; travel times; and any other place, where only a number, a text or a word is allowed.
#[derive(Clone, Copy)]
pub enum Form {
    Street,
    Field,
    Outer,
    Whole,
    Setup,
    Cabinets,
    Cabinet,
    Events,
    Event,
    Pulses,
    Pulse,
    Master,
    Entries,
    Entry,
    Respond,
    Sections,
    Section,
    Steps,
    Step,
    Rows,
    Row,
    Part,
    Times,
    Bare,
}

/// Whether an array may be there.
pub(crate) fn opens_array(form: Form) -> bool
    ensures { result ≡ opens_array form }
{
    matches!(
        form,
        Form::Cabinets
            | Form::Events
            | Form::Pulses
            | Form::Entries
            | Form::Sections
            | Form::Steps
            | Form::Rows
            | Form::Row
            | Form::Times
    )
}

/// Whether an object may be there.
pub(crate) fn opens_object(form: Form) -> bool
    ensures { result ≡ opens_object form }
{
    matches!(
        form,
        Form::Street
            | Form::Field
            | Form::Outer
            | Form::Whole
            | Form::Setup
            | Form::Cabinet
            | Form::Event
            | Form::Pulse
            | Form::Master
            | Form::Entry
            | Form::Respond
            | Form::Section
            | Form::Step
    )
}

/// The place of each item of an array.
pub(crate) fn item_form(form: Form) -> Form
    ensures { result ≡ item_form form }
{
    match form {
        Form::Cabinets => Form::Cabinet,
        Form::Events => Form::Event,
        Form::Pulses => Form::Pulse,
        Form::Entries => Form::Entry,
        Form::Sections => Form::Section,
        Form::Steps => Form::Step,
        Form::Rows => Form::Row,
        Form::Row => Form::Part,
        _ => Form::Bare,
    }
}

/// Whether a name is that of a list of what happens.
fn is_event_list(name: &str) -> bool
    ensures { result ≡ is_event_list name.now }
{
    name == "inputs"
        || name == "loads"
        || name == "priority"
        || name == "frames"
        || name == "faults"
}

/// The place of the member of this name in an object that asks of bands.
fn street_member(name: &str) -> Form
    ensures { result ≡ member_form Street name.now }
{
    if name == "scenario" {
        Form::Whole
    } else if name == "travel" {
        Form::Times
    } else {
        Form::Bare
    }
}

/// The place of the member of this name in a field file.
fn field_member(name: &str) -> Form
    ensures { result ≡ member_form Field name.now }
{
    if name == "scenario" {
        Form::Whole
    } else if name == "bank" {
        Form::Entries
    } else if name == "pulses" {
        Form::Pulses
    } else if name == "respond" {
        Form::Respond
    } else {
        Form::Bare
    }
}

/// The place of the member of this name in either of these without its lists.
fn outer_member(name: &str) -> Form
    ensures { result ≡ member_form Outer name.now }
{
    if name == "scenario" {
        Form::Setup
    } else if name == "bank" {
        Form::Entries
    } else if name == "respond" {
        Form::Respond
    } else {
        Form::Bare
    }
}

/// The place of the member of this name in a scenario.
fn whole_member(name: &str) -> Form
    ensures { result ≡ member_form Whole name.now }
{
    if name == "cabinets" {
        Form::Cabinets
    } else if name == "master" {
        Form::Master
    } else if is_event_list(name) {
        Form::Events
    } else {
        Form::Bare
    }
}

/// The place of a name's member, where the object has one member that opens something.
fn only_member(name: &str, known: &str, form: Form) -> Form
    ensures { result ≡ (if bytes_eq name.now known.now then form else Bare) }
{
    if name == known { form } else { Form::Bare }
}

/// The place of the member of this name.
pub(crate) fn member_form(form: Form, name: &str) -> Form
    ensures { result ≡ member_form form name.now }
{
    match form {
        Form::Street => street_member(name),
        Form::Field => field_member(name),
        Form::Outer => outer_member(name),
        Form::Whole => whole_member(name),
        Form::Setup => only_member(name, "master", Form::Master),
        Form::Cabinet | Form::Event => only_member(name, "cells", Form::Rows),
        Form::Master => only_member(name, "schedule", Form::Entries),
        Form::Respond => only_member(name, "sections", Form::Sections),
        Form::Section => only_member(name, "steps", Form::Steps),
        _ => Form::Bare,
    }
}

/// Whether an object is of a round and a cabinet.
fn is_of_a_round(object: &Value) -> bool
    ensures { result ≡ is_of_a_round (view object.now) }
{
    object.get("round").is_some() && object.get("cabinet").is_some()
}

/// Whether an object is of a round, a cabinet and a detector, and puts it on or off.
fn is_a_pulse(object: &Value) -> bool
    ensures { result ≡ is_a_pulse (view object.now) }
{
    is_of_a_round(object) && (object.get("detector").is_some() && object.get("on").is_some())
}

/// How many items of this kind are kept at the most, more than any right list has; 1 represents any number.
pub(crate) fn room(form: Form) -> usize
    ensures room { result ≡ room form }
    ensures few { result ≤ 4097 }
{
    match form {
        Form::Cabinet => 65,
        Form::Entry => 1001,
        Form::Section | Form::Step => 9,
        Form::Row => 4097,
        Form::Part => 6,
        _ => 1,
    }
}

/// How many more may be kept after an item, where there is room for one and that many more.
pub(crate) fn room_behind(form: Form, more: usize, item: &Value) -> usize
    requires { more < 4097 }
    ensures behind { result ≡ room_behind form more (view item.now) }
    ensures few { result ≤ more + 1 }
{
    match form {
        Form::Cabinet | Form::Entry | Form::Section | Form::Step | Form::Row | Form::Part => more,
        Form::Event => if is_of_a_round(item) { more + 1 } else { 0 },
        Form::Pulse => if is_a_pulse(item) { more + 1 } else { 0 },
        _ => more + 1,
    }
}

/// Whether items for which there is no room are dropped.
pub(crate) fn drops(form: Form) -> bool
    ensures { result ≡ drops form }
{
    matches!(
        form,
        Form::Cabinet | Form::Entry | Form::Section | Form::Step | Form::Row | Form::Part
    )
}
