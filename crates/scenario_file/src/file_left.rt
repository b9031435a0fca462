//! How often names are still to come in a file that is an object with a scenario: its own, and those of its last
//! scenario. All but the last of each can so be skipped unread.

use crate::left::Left;
use crate::source::SCENARIO_NAMES;
use std::alloc::Global;

/// How often names are still to come: the whole object's own, and those of the last scenario in it. Nothing rests on the numbers but
/// that memory is spared, as in [`Left`].
#[derive(Drop)]
pub struct FileLeft {
    pub own: Left,
    pub scenario: Left,
}

/// The names of the last scenario; no names, where they can't be counted.
fn scenario_left(alloc: Global, bytes: &[u8]) -> Left {
    match Left::of_inner(alloc, bytes, "scenario", &SCENARIO_NAMES) {
        Some(left) => left,
        None => Left::none(alloc),
    }
}

impl FileLeft {
    /// No names.
    pub fn none(alloc: Global) -> FileLeft {
        FileLeft {
            own: Left::none(alloc),
            scenario: Left::none(alloc),
        }
    }

    /// The names in a text that is one object, of whose own these are counted. None if the text isn't an object, and if
    /// memory runs out. Whether a name is repeated isn't checked: if the names of both objects appear once each, one of
    /// the scenario's master may be repeated, which isn't counted here.
    pub fn counted(alloc: Global, bytes: &[u8], names: &[&str]) -> Option<FileLeft> {
        let own = Left::of(alloc, bytes, names)?;
        let scenario = scenario_left(alloc, bytes);
        Some(FileLeft { own, scenario })
    }
}
