//! The names that an object at each place may have. Of any others only the first in byte order is kept: it is at fault
//! before all values of the object.

ghost use Rattle.std.specs.Prelude.{◌≡◌, IfSome, option_map, string_bytes};
ghost use Rattle.scenario_read.specs.Kinds.{is_among};
ghost use Rattle.scenario_cut.specs.Cutting.{Event, entry_names, input_names, link_names, names_at, request_names, scenario_names};
ghost use Rattle.scenario_cut.specs.Others.{lesser};

use crate::form::Form;
use scenario_read::is_among;
use std::alloc::Global;
use std::cmp::Ordering;

/// Whether a scenario may have this name.
fn is_of_scenario(name: &str) -> bool
    ensures { result ≡ is_among scenario_names name.now }
{
    is_among(
        &[
            "version",
            "rounds",
            "ticks",
            "community",
            "cabinets",
            "master",
            "inputs",
            "loads",
            "priority",
            "frames",
            "faults",
        ],
        name,
    )
}

/// Whether an input or a load may have this name.
fn is_of_input(name: &str) -> bool
    ensures { result ≡ is_among input_names name.now }
{
    is_among(
        &["round", "cabinet", "veh", "on", "ped", "preempt", "cells"],
        name,
    )
}

/// Whether a request or its cancel may have this name, in addition to its round and its cabinet.
fn is_of_request(name: &str) -> bool
    ensures { result ≡ is_among request_names name.now }
{
    is_among(
        &[
            "cancel",
            "number",
            "class",
            "level",
            "phase",
            "arrival",
            "departure",
        ],
        name,
    )
}

/// Whether a frame or a fault of the link may have this name, in addition to its round and its cabinet.
fn is_of_link(name: &str) -> bool
    ensures { result ≡ is_among link_names name.now }
{
    is_among(
        &["stream", "hex", "way", "index", "kind", "by", "octet"],
        name,
    )
}

/// Whether something that happens may have this name.
fn is_of_event(name: &str) -> bool
    ensures { result ≡ is_among (names_at Event) name.now }
{
    is_of_input(name) || is_of_request(name) || is_of_link(name)
}

/// Whether an entry of the schedule or a detector of the bank may have this name.
fn is_of_entry(name: &str) -> bool
    ensures { result ≡ is_among entry_names name.now }
{
    is_among(
        &[
            "second",
            "section",
            "pattern",
            "cabinet",
            "detector",
            "phase",
            "delay",
            "extend",
            "no_activity",
            "max_presence",
            "erratic",
        ],
        name,
    )
}

/// Whether an object at this place may have this name.
pub(crate) fn allows(form: Form, name: &str) -> bool
    ensures { result ≡ is_among (names_at form) name.now }
{
    match form {
        Form::Whole | Form::Setup => is_of_scenario(name),
        Form::Event => is_of_event(name),
        Form::Entry => is_of_entry(name),
        Form::Street => is_among(&["scenario", "section", "pattern", "travel"], name),
        Form::Field => is_among(&["scenario", "bank", "pulses", "respond"], name),
        Form::Outer => is_among(
            &[
                "scenario", "section", "pattern", "travel", "bank", "pulses", "respond",
            ],
            name,
        ),
        Form::Cabinet => is_among(
            &[
                "base", "cells", "pattern", "clock", "section", "gain", "lose",
            ],
            name,
        ),
        Form::Pulse => is_among(&["round", "cabinet", "detector", "on"], name),
        Form::Master => is_among(
            &[
                "clock",
                "poll_every",
                "clock_every",
                "pattern_every",
                "retries",
                "schedule",
            ],
            name,
        ),
        Form::Respond => is_among(&["period", "sections"], name),
        Form::Section => is_among(&["section", "base", "steps"], name),
        Form::Step => is_among(&["up", "down", "pattern"], name),
        _ => false,
    }
}

/// Holds a name, where none is held or it is less.
pub(crate) fn hold(alloc: Global, held: &mut Option<String>, name: &str) -> Option<()>
    ensures { IfSome result (λ _. option_map string_bytes held.new ≡ lesser name.now (option_map string_bytes held.old)) }
{
    if let Some(old) = held {
        if name.cmp(old.as_str()) != Ordering::Less {
            return Some(());
        }
    }
    match String::from_str(alloc, name) {
        Ok(copy) => {
            *held = Some(copy);
            Some(())
        }
        Err(_) => None,
    }
}
