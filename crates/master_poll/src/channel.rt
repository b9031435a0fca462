//! The master's whole turn at a cabinet: its command, its frame of a download, its notes.

ghost use Rattle.std.specs.Prelude.{ℕ, ◌≡◌, ◌≤◌, ◌<◌, ◌+◌, ◌++◌, ◌∷◌, List, [], map, length, OnOk, IfOk};
ghost use Rattle.std.specs.Option.{ForSome, option_map};
ghost use Rattle.sig_types.specs.Items.{texts_of};
ghost use Rattle.scenario_data.specs.Content.{LoadContent, load_content, master_content};
ghost use Rattle.requests.specs.Requests.{messages, octets_in};
ghost use Rattle.master_load.specs.Downloads.{AreLoads};
ghost use Rattle.master_load.specs.Loading.{LoadEvent, AnswerTold, note_of};
ghost use Rattle.master_load.specs.LoaderStands.{LoaderStands};
ghost use Rattle.master_poll.specs.Commands.{IsTask, Turn};
ghost use Rattle.master_poll.specs.Turns.{told};
ghost use Rattle.master_poll.specs.Notes.{load_notes, noted, where_made, pattern_note};
ghost use Rattle.master_poll.specs.Sends.{command_text};
ghost use Rattle.master_poll.specs.Hearing.{Hears};
ghost use Rattle.master_poll.specs.CommandStands.{plan_with};

use crate::command::{Command, Now, task_octets};
use crate::command_state::CommandState;
use arrayvec::ArrayVec;
use master_load::Loader;
use scenario_data::Scenario;
use sig_types::{Answers, MasterNote, Octets, Sending};
use snmp_msg::Message;
use std::alloc::AllocError;

/// The loader gets a message; its note, if any, is appended.
fn tell(loader: &mut Loader, m: &Message, notes: &mut Vec<MasterNote>) -> Result<(), AllocError>
    ensures stands { OnOk result ((cab : ℕ) (all : List LoadContent) (past : List LoadEvent) → LoaderStands loader.old cab all past → LoaderStands loader.new cab all (AnswerTold m.now ∷ past)) }
    ensures noted { OnOk result ((cab : ℕ) (all : List LoadContent) (past : List LoadEvent) → LoaderStands loader.old cab all past → notes.new.items ≡ notes.old.items ++ noted (note_of past m.now) []) }
{
    match loader.reply(m) {
        Some(note) => {
            notes.push(note)?;
            Ok(())
        }
        None => Ok(()),
    }
}

/// The loader gets each message that arrived on the load stream of its cabinet; its notes are appended.
fn hear(
    loader: &mut Loader,
    arrived: &[Octets],
    notes: &mut Vec<MasterNote>,
) -> Result<(), AllocError>
    ensures { OnOk result ((cab : ℕ) (all : List LoadContent) (past : List LoadEvent) → LoaderStands loader.old cab all past
        → Hears loader.new cab all notes.new.items (told (messages (texts_of arrived.now)) past) (notes.old.items ++ load_notes past (messages (texts_of arrived.now)))) }
{
    for octets in arrived {
        let Some(m) = requests::message(octets) else {
            continue;
        };
        tell(loader, &m, notes)?;
    }
    Ok(())
}

/// Appends a note, where it is made.
fn push_made(notes: &mut Vec<MasterNote>, made: bool, note: MasterNote) -> Result<(), AllocError>
    ensures { OnOk result (notes.new.items ≡ notes.old.items ++ where_made made note) }
{
    if made {
        notes.push(note)?;
    }
    Ok(())
}

/// Appends the note of a pattern that was acknowledged.
fn push_pattern(
    notes: &mut Vec<MasterNote>,
    cab: u32,
    pattern: Option<u8>,
) -> Result<(), AllocError>
    ensures { OnOk result (notes.new.items ≡ notes.old.items ++ pattern_note cab pattern) }
{
    if let Some(pattern) = pattern {
        notes.push(MasterNote::Pattern(cab, pattern))?;
    }
    Ok(())
}

/// The octets of a command, if there is one.
fn command_octets(community: &ArrayVec<u8, 32>, command: Option<Command>) -> Option<Octets>
    requires settable { ForSome command (λ c. IsTask c.task) }
    ensures { octets_in result ≡ option_map (command_text community.now.items) command }
{
    match command {
        Some(command) => Some(task_octets(community, command.id, command.task)),
        None => None,
    }
}

/// What the master keeps of a cabinet.
#[derive(Clone, Copy)]
pub struct Channel {
    command_state: CommandState,
    loader: Loader,
}

impl Channel {
    ghost use Rattle.master_poll.specs.Channels.{IsNew, HasSent, ChannelStands, count_of_channel};

    /// Nothing was sent yet.
    pub fn new() -> Channel
        ensures { IsNew result }
    {
        Channel {
            command_state: CommandState::new(),
            loader: Loader::new(),
        }
    }

    /// The master's turn at a cabinet in a round, at which this has arrived; its notes are appended.
    pub fn turn(
        &mut self,
        s: &Scenario,
        cab: u32,
        now: Now,
        arrived: &Answers,
        notes: &mut Vec<MasterNote>,
    ) -> Result<Sending, AllocError>
        requires few { count_of_channel self.old < 2147483645 }
        requires clock { now.clock < 864000 }
        requires short { length s.now.loads.items ≤ 1000000 }
        requires loads { AreLoads (map load_content s.now.loads.items) }
        ensures turn { IfOk result (λ sending. (past : List Turn) → ChannelStands self.old s.now.master.retries cab (map load_content s.now.loads.items) past
            → HasSent self.new sending notes.old.items notes.new.items s.now.community.items (plan_with (master_content s.now.master) cab now (map load_content s.now.loads.items)) past
            (messages (texts_of arrived.now.polls.items)) (messages (texts_of arrived.now.loads.items))) }
        ensures two { OnOk result (count_of_channel self.new ≤ count_of_channel self.old + 2) }
    {
        let answered = self.command_state.answered(&arrived.polls);
        let turned = self.command_state.turn(&s.master, cab, now, answered);
        push_made(notes, turned.good, MasterNote::Good(cab))?;
        push_pattern(notes, cab, turned.acknowledged)?;
        hear(&mut self.loader, &arrived.loads, notes)?;
        push_made(notes, turned.failed, MasterNote::Fail(cab))?;
        let id = self.command_state.next_id();
        let load = self.loader.next(now.round, cab, s, id);
        self.command_state.count_frame(load.is_some());
        Ok(Sending {
            poll: command_octets(&s.community, turned.command),
            load,
        })
    }
}
