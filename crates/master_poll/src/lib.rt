//! The master at each cabinet: what it sends to the cabinet in a round, and what it notes from the replies. Polls,
//! patterns and clocks are sent again until they are answered or given up; downloads are sent in addition (requests of
//! RFC 1157).
#![tactic(auto)]

mod channel;
mod command;
mod command_state;
mod master;

ghost use Rattle.std.specs.Prelude.{ℕ, List};
ghost use Rattle.scenario_data.specs.Content.{ScenarioContent, CabinetContent};
ghost use Rattle.master_poll.specs.Sends.{Arrived};
ghost use Rattle.master_poll.specs.Laws.{OpenIsLast};

pub use channel::Channel;
pub use command::{Command, Kind, Now, Task, Turned, task_octets};
pub use command_state::CommandState;
pub use master::{Master, Next, Round};

/// A law: what the master takes for open, the command of the last turn, is the last command that it sent, where that was neither
/// answered nor given up.
pub fn open_is_last()
    ensures { (s : ScenarioContent) (cab : ℕ) (c : CabinetContent) (arrived : List Arrived) → OpenIsLast s cab c arrived }
{}
