//! The commands on the poll stream.

ghost use Rattle.std.specs.Prelude.{◌≡◌, ◌<◌, ◌∷◌, [], All};
ghost use Rattle.snmp_msg.specs.Shortest.{IsWritableBind};
ghost use Rattle.oid_map.specs.Names.{IsName};
ghost use Rattle.requests.specs.Requests.{number_at};
ghost use Rattle.master_poll.specs.Commands.{IsTask};
ghost use Rattle.master_poll.specs.Sends.{task_text};
ghost use Rattle.master_poll.specs.Turns.{kind_of};

use arrayvec::ArrayVec;
use oid_map::Name;
use requests::{number_at, write_get_around, write_set};
use sig_types::Octets;
use snmp_msg::Bind;

/// A kind of command: it sets a pattern, it sets the clock, or it asks how the cabinet fares.
#[derive(Clone, Copy, PartialEq, Eq)]
pub enum Kind {
    Pattern,
    Clock,
    Poll,
}

/// What a command does, with the pattern or the time of day that it carries.
#[derive(Clone, Copy, PartialEq, Eq)]
pub enum Task {
    Pattern(u8),
    Clock(u32),
    Poll,
}

impl Task {
    /// Its kind.
    pub fn kind(self) -> Kind
        ensures { result ≡ kind_of self }
    {
        match self {
            Task::Pattern(_) => Kind::Pattern,
            Task::Clock(_) => Kind::Clock,
            Task::Poll => Kind::Poll,
        }
    }
}

impl Kind {
    ghost use Rattle.master_poll.specs.Turns.{task_now};

    /// What a command of this kind does now.
    pub fn now(self, now: Now) -> Task
        requires clock { now.clock < 864000 }
        ensures task { result ≡ task_now now self }
        ensures settable { IsTask result }
    {
        match self {
            Kind::Pattern => Task::Pattern(now.pattern.unwrap_or(0)),
            Kind::Clock => Task::Clock(now.clock),
            Kind::Poll => Task::Poll,
        }
    }
}

/// A command as it is sent: its id, and for which time in a row it is sent.
#[derive(Clone, Copy, PartialEq, Eq)]
pub struct Command {
    pub task: Task,
    pub id: i32,
    pub tries: u32,
}

/// The one binding of a command that sets a number.
fn setting(name: Name, number: u32) -> [Bind; 1]
    requires name { IsName name }
    requires number { number < 2147483648 }
    ensures bound { result ≡ number_at name number ∷ [] }
    ensures writable { All IsWritableBind result }
{
    [number_at(name, number)]
}

/// What a poll asks for, as the texts of its bindings, which are the same in every poll.
const POLLED_TEXT: [u8; 152] = [
    // pattern status
    48, 17, 6, 13, 43, 6, 1, 4, 1, 137, 54, 4, 2, 1, 4, 10, 0, 5, 0,
    // counter
    48, 16, 6, 12, 43, 6, 1, 4, 1, 129, 253, 89, 1, 2, 2, 0, 5, 0,
    // target
    48, 16, 6, 12, 43, 6, 1, 4, 1, 129, 253, 89, 1, 2, 3, 0, 5, 0,
    // mode
    48, 16, 6, 12, 43, 6, 1, 4, 1, 129, 253, 89, 1, 2, 4, 0, 5, 0,
    // version
    48, 16, 6, 12, 43, 6, 1, 4, 1, 129, 253, 89, 1, 1, 10, 0, 5, 0,
    // greens of phases 1 to 8
    48, 19, 6, 15, 43, 6, 1, 4, 1, 137, 54, 4, 2, 1, 1, 4, 1, 4, 1, 5, 0,
    // greens of phases 9 to 16
    48, 19, 6, 15, 43, 6, 1, 4, 1, 137, 54, 4, 2, 1, 1, 4, 1, 4, 2, 5, 0,
    // pattern in command
    48, 17, 6, 13, 43, 6, 1, 4, 1, 137, 54, 4, 2, 1, 4, 14, 0, 5, 0,
];

/// The octets of what a command does, under an id: a Set, or a Get for a poll.
pub fn task_octets(community: &ArrayVec<u8, 32>, id: i32, task: Task) -> Octets
    requires settable { IsTask task }
    ensures { result.items ≡ task_text community.now.items id task }
{
    prove!(community.len() <= 32);
    match task {
        Task::Pattern(pattern) => {
            write_set(
                community,
                id,
                &setting(Name::PatternControl, u32::from(pattern)),
            )
        }
        Task::Clock(time) => write_set(community, id, &setting(Name::Clock, time)),
        Task::Poll => write_get_around(community, id, &POLLED_TEXT),
    }
}

/// What holds in a round: its number, the master's clock, and the pattern scheduled for the cabinet's section.
#[derive(Clone, Copy, PartialEq, Eq)]
pub struct Now {
    pub round: u32,
    pub clock: u32,
    pub pattern: Option<u8>,
}

/// What a turn gave: the command that is sent, and what is noted: that the cabinet answers again, that it acknowledged another
/// pattern, that it no longer answers.
#[derive(Clone, Copy, PartialEq, Eq)]
pub struct Turned {
    pub command: Option<Command>,
    pub good: bool,
    pub acknowledged: Option<u8>,
    pub failed: bool,
}
