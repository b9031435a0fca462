//! What an answer speaks of, held together while it is made.

use sig_tables::{Shown, Tables};
use sig_types::StageAnswer;

/// The tables in force, what the cabinet shows, and the state and the last answer of its download stage.
#[derive(Clone, Copy)]
pub struct Cabinet<'a> {
    pub tables: &'a Tables,
    pub shown: &'a Shown,
    pub state: u8,
    pub last: Option<StageAnswer>,
}
