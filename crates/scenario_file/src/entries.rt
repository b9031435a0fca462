//! One entry of the master's schedule.

ghost use Rattle.std.specs.Prelude.{◌≡◌};
ghost use Rattle.serde_json.specs.View.{view};
ghost use Rattle.scenario_read.specs.Fields.{object_of};
ghost use Rattle.scenario_read.specs.Table.{entry_shape};
ghost use Rattle.scenario_read.specs.Content.{entry_of};
ghost use Rattle.scenario_read.specs.Readers.{steps_of, Answers};

use scenario_data::{Entry, ReadFail};
use scenario_read::{Place, known_names, whole_at};
use serde_json::Value;
use std::alloc::Global;

/// The entry that an object says, at its place from 0.
pub(crate) fn entry_in(alloc: Global, object: &Value, entry: usize) -> Result<Entry, ReadFail>
    ensures { Answers result (object_of entry_shape (steps_of (Place.Entry entry)) (view object.now)) (λ e. e ≡ entry_of (view object.now)) }
{
    let place = Place::Entry(entry);
    known_names(alloc, object, place, &["second", "section", "pattern"])?;
    let second = whole_at(alloc, object, place, "second", 0, 86_399)?;
    let section = whole_at(alloc, object, place, "section", 1, 8)?;
    let pattern = whole_at(alloc, object, place, "pattern", 0, 255)?;
    Ok(Entry {
        second,
        section: section as u8,
        pattern: pattern as u8,
    })
}
