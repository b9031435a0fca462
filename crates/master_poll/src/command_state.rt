//! The master's commands to one cabinet: which command is open, which are to be sent, what was acknowledged and refused.

ghost use Rattle.std.specs.Prelude.{ℕ, ◌≡◌, ◌<◌, ◌≤◌, ◌+◌, ◌&&◌, ◌||◌, not, if◌then◌else◌, List, [], Option, Some, pos};
ghost use Rattle.snmp_msg.specs.declared.message.Message.{Message};
ghost use Rattle.scenario_data.specs.Content.{LoadContent, master_content};
ghost use Rattle.sig_types.specs.Items.{texts_of};
ghost use Rattle.requests.specs.Requests.{messages, status_of};
ghost use Rattle.std.specs.Option.{ForSome};
ghost use Rattle.master_poll.specs.Commands.{IsTask, Turn, ending, count_of, acknowledged};
ghost use Rattle.master_poll.specs.Turns.{begins, command_now, command_of, first_of, is_round, wants_pattern};

use crate::command::{Command, Kind, Now, Task, Turned};
use requests::first_status;
use scenario_data::MasterSetup;
use sig_types::Octets;

/// What the master keeps of one cabinet.
#[derive(Clone, Copy)]
pub struct CommandState {
    sent: u32,
    command: Option<Command>,
    acknowledged: Option<u8>,
    refused: Option<u8>,
    failed: bool,
    pattern_waits: bool,
    clock_waits: bool,
    poll_waits: bool,
    ghost tried: { ForSome command (λ c. 1 ≤ c.tries) },
}

/// Whether something is done in a round that is done every that many; 0 is never.
fn is_round(every: u32, round: u32) -> bool
    ensures { result ≡ is_round every round }
{
    every > 0 && round % every == 0
}

/// Whether a pattern is to be commanded.
fn wants_pattern(
    acknowledged: Option<u8>,
    refused: Option<u8>,
    again: bool,
    pattern: Option<u8>,
) -> bool
    ensures { result ≡ wants_pattern acknowledged refused again pattern }
{
    match pattern {
        Some(_) => refused != pattern && (acknowledged != pattern || again),
        None => false,
    }
}

impl CommandState {
    ghost use Rattle.master_poll.specs.CommandStands.{CommandFollows, CommandStateStands, IsTurn, KeepsWaiting, Settles, sent_by, plan_with};

    /// Nothing was sent yet.
    pub fn new() -> CommandState
        ensures stands { (retries : ℕ) → CommandStateStands result retries [] }
        ensures none { sent_by result ≡ 0 }
    {
        CommandState {
            sent: 0,
            command: None,
            acknowledged: None,
            refused: None,
            failed: false,
            pattern_waits: false,
            clock_waits: false,
            poll_waits: false,
        }
    }

    /// The open command is given up where it was tried that many times without a Response. Gives what is to be noted of
    /// it.
    fn give_up(&mut self, retries: u32) -> Turned
        ensures settles { Settles self.old self.new result retries None }
        ensures tries { ForSome self.new.command (λ c. c.tries < retries) }
        ensures kept { KeepsWaiting self.old self.new }
    {
        let mut turned = Turned {
            command: None,
            good: false,
            acknowledged: None,
            failed: false,
        };
        if let Some(command) = self.command {
            if retries <= command.tries {
                turned.failed = !self.failed;
                self.failed = true;
                self.command = None;
            }
        }
        turned
    }

    /// A Response to the open command ends it; one that was tried too often is given up. Gives what is to be noted.
    fn settle(&mut self, retries: u32, answered: Option<i32>) -> Turned
        ensures settles { (m : Option Message) → answered ≡ status_of m → Settles self.old self.new result retries m }
        ensures tries { ForSome self.new.command (λ c. c.tries < retries) }
        ensures kept { KeepsWaiting self.old self.new }
    {
        let Some(status) = answered else {
            return self.give_up(retries);
        };
        let ended = self.command;
        let mut turned = Turned {
            command: None,
            good: self.failed,
            acknowledged: None,
            failed: false,
        };
        self.command = None;
        self.failed = false;
        let Some(
            Command {
                task: Task::Pattern(pattern),
                ..
            },
        ) = ended
        else {
            return turned;
        };
        if status != 0 {
            self.refused = Some(pattern);
            return turned;
        }
        if self.acknowledged != Some(pattern) {
            turned.acknowledged = Some(pattern);
        }
        self.acknowledged = Some(pattern);
        turned
    }

    /// Marks what is expected in a round.
    fn mark(&mut self, setup: &MasterSetup, now: Now)
        ensures pattern { self.new.pattern_waits ≡ (wants_pattern self.old.acknowledged self.old.refused (is_round setup.now.pattern_every now.round) now.pattern || self.old.pattern_waits) }
        ensures clock { self.new.clock_waits ≡ (is_round setup.now.clock_every now.round || self.old.clock_waits) }
        ensures poll { self.new.poll_waits ≡ (is_round setup.now.poll_every now.round || self.old.poll_waits) }
        ensures command { self.new.command ≡ self.old.command }
        ensures acknowledged { self.new.acknowledged ≡ self.old.acknowledged }
        ensures refused { self.new.refused ≡ self.old.refused }
        ensures failed { self.new.failed ≡ self.old.failed }
        ensures sent { self.new.sent ≡ self.old.sent }
    {
        let again = is_round(setup.pattern_every, now.round);
        if wants_pattern(self.acknowledged, self.refused, again, now.pattern) {
            self.pattern_waits = true;
        }
        if is_round(setup.clock_every, now.round) {
            self.clock_waits = true;
        }
        if is_round(setup.poll_every, now.round) {
            self.poll_waits = true;
        }
    }

    /// Sends a command of a kind, for which time in a row.
    fn put(&mut self, kind: Kind, tries: u32, now: Now)
        requires few { self.old.sent < 2147483646 }
        requires tried { 1 ≤ tries }
        requires clock { now.clock < 864000 }
        ensures command { self.new.command ≡ Some (command_of now (pos (self.old.sent + 1)) tries kind) }
        ensures pattern { self.new.pattern_waits ≡ self.old.pattern_waits }
        ensures clock { self.new.clock_waits ≡ self.old.clock_waits }
        ensures poll { self.new.poll_waits ≡ self.old.poll_waits }
        ensures acknowledged { self.new.acknowledged ≡ self.old.acknowledged }
        ensures refused { self.new.refused ≡ self.old.refused }
        ensures failed { self.new.failed ≡ self.old.failed }
        ensures sent { self.new.sent ≡ self.old.sent + 1 }
        ensures settable { ForSome self.new.command (λ c. IsTask c.task) }
    {
        self.sent += 1;
        self.command = Some(Command {
            task: kind.now(now),
            id: self.sent as i32,
            tries,
        });
    }

    /// Sends the open command again, or the first kind that waits again.
    fn send(&mut self, now: Now)
        requires few { self.old.sent < 2147483646 }
        requires tries { ForSome self.old.command (λ c. c.tries < 4294967295) }
        requires clock { now.clock < 864000 }
        ensures command { self.new.command ≡ command_now now (pos (self.old.sent + 1)) self.old.command (first_of self.old.pattern_waits self.old.clock_waits self.old.poll_waits) }
        ensures pattern { self.new.pattern_waits ≡ (not (begins Kind.Pattern self.new.command) && self.old.pattern_waits) }
        ensures clock { self.new.clock_waits ≡ (not (begins Kind.Clock self.new.command) && self.old.clock_waits) }
        ensures poll { self.new.poll_waits ≡ (not (begins Kind.Poll self.new.command) && self.old.poll_waits) }
        ensures acknowledged { self.new.acknowledged ≡ self.old.acknowledged }
        ensures refused { self.new.refused ≡ self.old.refused }
        ensures failed { self.new.failed ≡ self.old.failed }
        ensures sent { self.new.sent ≡ self.old.sent + count_of self.new.command }
        ensures settable { ForSome self.new.command (λ c. IsTask c.task) }
    {
        if let Some(command) = self.command {
            self.put(command.task.kind(), command.tries + 1, now);
            return;
        }
        if self.pattern_waits {
            self.pattern_waits = false;
            self.put(Kind::Pattern, 1, now);
            return;
        }
        if self.clock_waits {
            self.clock_waits = false;
            self.put(Kind::Clock, 1, now);
            return;
        }
        if self.poll_waits {
            self.poll_waits = false;
            self.put(Kind::Poll, 1, now);
        }
    }

    /// The master's turn at a cabinet, where this is the status of the first Response to its open command, if one arrived.
    pub fn turn(&mut self, setup: &MasterSetup, cab: u32, now: Now, answered: Option<i32>) -> Turned
        requires few { sent_by self.old < 2147483646 }
        requires clock { now.clock < 864000 }
        ensures one { sent_by self.new ≤ sent_by self.old + 1 }
        ensures settable { ForSome result.command (λ c. IsTask c.task) }
        ensures turn { (past : List Turn) (polls loads : List Message) (all : List LoadContent)
            → CommandStateStands self.old setup.now.retries past
            → answered ≡ status_of (ending past polls)
            → IsTurn self.new result (plan_with (master_content setup.now) cab now all) past polls loads }
    {
        let mut turned = self.settle(setup.retries, answered);
        self.mark(setup, now);
        self.send(now);
        turned.command = self.command;
        turned
    }

    /// The status of the first Response to the open command, if one arrived.
    pub fn answered(&self, arrived: &[Octets]) -> Option<i32>
        ensures { (retries : ℕ) (past : List Turn) → CommandStateStands self.now retries past → result ≡ status_of (ending past (messages (texts_of arrived.now))) }
    {
        match self.command {
            Some(command) => first_status(arrived, command.id),
            None => None,
        }
    }

    /// The id of the next frame.
    pub fn next_id(&self) -> i32
        requires few { sent_by self.now < 2147483646 }
        ensures { result ≡ pos (sent_by self.now + 1) }
    {
        (self.sent + 1) as i32
    }

    /// One frame more was sent, or none.
    pub fn count_frame(&mut self, sent: bool)
        requires few { sent_by self.old < 2147483646 }
        ensures sent { sent_by self.new ≡ sent_by self.old + (if sent then 1 else 0) }
        ensures follows { (retries : ℕ) (past : List Turn) → CommandFollows self.old retries past → CommandFollows self.new retries past }
    {
        if sent {
            self.sent += 1;
        }
    }
}
