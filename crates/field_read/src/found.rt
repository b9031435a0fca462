//! The items of a list, added one by one. How many rounds and cabinets there are may follow later in the text, so that
//! they are held to the most that any scenario has; what they name is checked against these later.

ghost use Rattle.std.specs.Prelude.{◌≡◌, IfSome};
ghost use Rattle.serde_json.specs.Data.{Items, item, no_items};
ghost use Rattle.serde_json.specs.View.{view};
ghost use Rattle.scenario_cut.specs.Growing.{both};
ghost use Rattle.field_read.specs.Lists.{Holds, name_of};

use crate::{detector_in, pulse_in};
use detector_bank::{Detector, Pulse};
use serde_json::Value;
use std::alloc::Global;

/// What the items of a list say, by the list.
#[derive(Drop)]
pub(crate) enum Found {
    Bank(Vec<Detector>),
    Pulses(Vec<Pulse>),
}

/// Adds a detector, of 512 at most.
fn add_detector(alloc: Global, object: &Value, bank: &mut Vec<Detector>) -> Option<()>
    ensures { IfSome result (λ _. (ds : Items) → Holds (Found.Bank bank.old) ds → Holds (Found.Bank bank.new) (both ds (item (view object.now) no_items))) }
{
    let place = bank.len();
    let full = place >= 512;
    if full {
        return None;
    }
    let Ok(detector) = detector_in(alloc, object, place, 64) else {
        return None;
    };
    match bank.push(detector) {
        Ok(()) => Some(()),
        Err(_) => None,
    }
}

/// Adds a pulse, of a million at most.
fn add_pulse(alloc: Global, object: &Value, pulses: &mut Vec<Pulse>) -> Option<()>
    ensures { IfSome result (λ _. (ds : Items) → Holds (Found.Pulses pulses.old) ds → Holds (Found.Pulses pulses.new) (both ds (item (view object.now) no_items))) }
{
    let place = pulses.len();
    if place >= 1_000_000 {
        return None;
    }
    let Ok(pulse) = pulse_in(alloc, object, place, 86_400, 64) else {
        return None;
    };
    match pulses.push(pulse) {
        Ok(()) => Some(()),
        Err(_) => None,
    }
}

/// Adds an item to its list.
pub(crate) fn add_item(alloc: Global, object: &Value, found: &mut Found) -> Option<()>
    ensures added { IfSome result (λ _. (ds : Items) → Holds found.old ds → Holds found.new (both ds (item (view object.now) no_items))) }
    ensures list { name_of found.new ≡ name_of found.old }
{
    match found {
        Found::Bank(bank) => add_detector(alloc, object, bank),
        Found::Pulses(pulses) => add_pulse(alloc, object, pulses),
    }
}
