//! What a round of a cabinet has reached so far: its journal, the frames that have a line, and the replies, each after
//! as many of the frames as came before it. Room for the whole round is taken at its start, and for an item that comes
//! after, with it.

ghost use Rattle.std.specs.Prelude.{◌≡◌, ◌≤◌, ◌<◌, ◌+◌, ℕ, [], ◌∷◌, IfOk, OnOk, option_to_list, vec_capacity};
ghost use Rattle.sig_types.specs.Passes.{number_of};
ghost use Rattle.sig_types.specs.declared.streams.Stream.TheVariants.{Inputs};
ghost use Rattle.cabinet_history.specs.Journals.{runs_of, times};
ghost use Rattle.cab_book.specs.Shares.{read_journal};

use crate::journal::Journal;
use cabinet_history::Reply;
use sig_types::{Frame, NoMemory, Stream};
use std::alloc::{AllocError, Global};

/// A reply, and after how many of the frames of its round that have a line it came.
#[derive(Drop)]
pub struct Answered {
    pub reply: Reply,
    pub behind: u32,
}

/// What a round has reached so far.
#[derive(Drop)]
pub struct Happened {
    journal: Journal,
    written: Vec<(u32, Frame)>,
    replies: Vec<Answered>,
    ghost short: { vec_capacity written < 4294967296 },
}

impl Happened {
    ghost use Rattle.cab_book.specs.Happened.{journal_in, written_of, answered_of, HasRoom, HappenedGoesOn, IsSameRound, TicksOn};

    /// No round: there is room for nothing.
    pub fn none(alloc: Global) -> Happened
        ensures room { HasRoom result 0 0 0 }
        ensures journal { journal_in result ≡ [] }
        ensures none { (written_of result ≡ []) × (answered_of result ≡ []) }
    {
        Happened {
            journal: Journal::new(Vec::new(alloc)),
            written: Vec::new(alloc),
            replies: Vec::new(alloc),
        }
    }

    /// A round in which nothing has happened, with room for this number of ticks, of frames from elsewhere and of all
    /// items.
    pub fn with_room(
        alloc: Global,
        ticks: u32,
        frames: usize,
        items: usize,
    ) -> Result<Happened, NoMemory>
        ensures room { IfOk result (λ h. HasRoom h ticks frames items) }
        ensures journal { IfOk result (λ h. journal_in h ≡ []) }
        ensures none { IfOk result (λ h. (written_of h ≡ []) × (answered_of h ≡ [])) }
    {
        match Happened::taken(alloc, ticks, frames, items) {
            Ok(happened) => Ok(happened),
            Err(_) => Err(NoMemory),
        }
    }

    /// The same, where memory may be refused.
    fn taken(alloc: Global, ticks: u32, frames: usize, items: usize) -> Result<Happened, AllocError>
        ensures room { IfOk result (λ h. HasRoom h ticks frames items) }
        ensures journal { IfOk result (λ h. journal_in h ≡ []) }
        ensures none { IfOk result (λ h. (written_of h ≡ []) × (answered_of h ≡ [])) }
    {
        let runs = Vec::with_capacity(alloc, items)?;
        let written = Vec::with_capacity(alloc, ticks as usize)?;
        let replies = Vec::with_capacity(alloc, frames)?;
        Ok(Happened {
            journal: Journal::new(runs),
            written,
            replies,
        })
    }

    /// Takes room for this number of frames from elsewhere and this number of items in all, in addition to those kept.
    /// Nothing else changes, even if memory runs out.
    pub fn reserve(&mut self, frames: usize, items: usize) -> Result<(), NoMemory>
        ensures room { OnOk result ((ticks : ℕ) → HasRoom self.old ticks 0 0 → HasRoom self.new ticks frames items) }
        ensures kept { (ticks others all : ℕ) → HasRoom self.old ticks others all → HasRoom self.new ticks others all }
        ensures same { IsSameRound self.old self.new }
    {
        if self.replies.reserve(frames).is_err() {
            return Err(NoMemory);
        }
        match self.journal.reserve(items) {
            Ok(()) => Ok(()),
            Err(NoMemory) => Err(NoMemory),
        }
    }

    /// An input was heard. It takes no memory.
    pub fn add_input(&mut self)
        requires room { HasRoom self.old 0 0 1 }
        requires few { times (number_of Inputs) (journal_in self.old) < 4294967295 }
        ensures goes { HappenedGoesOn self.old self.new (number_of Inputs) [] [] }
        ensures room { (ticks frames items : ℕ) → HasRoom self.old ticks frames (items + 1) → HasRoom self.new ticks frames items }
    {
        self.journal.add(Stream::Inputs.number());
    }

    /// A pass brought this number of ticks, of which the last gave this frame with its number, or none has a line. It
    /// takes no memory.
    pub fn add_ticks(&mut self, pass: u32, count: u32, written: Option<(u32, Frame)>)
        requires some { 1 ≤ count }
        requires room { HasRoom self.old 1 0 1 }
        requires few { times pass (journal_in self.old) + count ≤ 4294967295 }
        ensures goes { TicksOn self.old self.new pass count (option_to_list written) }
        ensures room { (ticks frames items : ℕ) → HasRoom self.old (ticks + count) frames (items + count) → HasRoom self.new ticks frames items }
    {
        if let Some(frame) = written {
            self.written.push_reserved(frame);
        }
        self.journal.add_run(pass, count);
    }

    /// A frame came and was replied to, or ignored. It takes no memory.
    pub fn add_reply(&mut self, reply: Reply)
        requires room { HasRoom self.old 0 1 1 }
        requires few { times reply.pass (journal_in self.old) < 4294967295 }
        ensures goes { HappenedGoesOn self.old self.new reply.pass [] (reply ∷ []) }
        ensures room { (ticks frames items : ℕ) → HasRoom self.old ticks (frames + 1) (items + 1) → HasRoom self.new ticks frames items }
    {
        let pass = reply.pass;
        let behind = self.written.len() as u32;
        self.replies.push_reserved(Answered { reply, behind });
        self.journal.add(pass);
    }

    /// The journal's passes 5 to 7 are read as 4, which brings ticks too. It takes no memory.
    pub fn join_ticks(&mut self)
        requires few { (p : ℕ) → times p (read_journal (journal_in self.old)) ≤ 4294967295 }
        ensures journal { journal_in self.new ≡ read_journal (journal_in self.old) }
        ensures written { written_of self.new ≡ written_of self.old }
        ensures replies { answered_of self.new ≡ answered_of self.old }
        ensures room { (ticks frames items : ℕ) → HasRoom self.old ticks frames items → HasRoom self.new ticks frames items }
        ensures none { journal_in self.old ≡ [] → self.new ≡ self.old }
    {
        self.journal.join_ticks();
    }

    /// The longest runs of the journal.
    pub fn runs(&self) -> &[(u32, u32)]
        ensures { result.now ≡ runs_of (journal_in self.now) }
    {
        self.journal.runs()
    }

    /// The frames that have a line.
    pub fn written(&self) -> &[(u32, Frame)]
        ensures { result.now ≡ written_of self.now }
    {
        self.written.as_slice()
    }

    /// The replies.
    pub fn replies(&self) -> &[Answered]
        ensures { result.now ≡ answered_of self.now }
    {
        self.replies.as_slice()
    }
}
