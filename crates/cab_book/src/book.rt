//! The book of a cabinet: the cabinet, the streams of the round under way, how many items of each pass are left, and
//! what the round has reached so far. Any pass may bring the next item of its stream at any time, and an item that
//! comes after all of its stream is brought at once. Only a new book, the start of a round and such an item take
//! memory.

ghost use Rattle.std.specs.Prelude.{◌≡◌, ◌≢◌, ◌<◌, ◌≤◌, ◌+◌, ◌-◌, ◌⊎◌, ◌++◌, ◌∷◌, [], ℕ, OnOk, OnErr, IfOk, IfErr, length, replicate, map, get_or};
ghost use Rattle.sig_tables.specs.Decide.{last_frame_of, past_at};
ghost use Rattle.sig_types.specs.Items.{InputTold, Came, items_of, texts_of};
ghost use Rattle.sig_types.specs.Passes.{Brings, number_of, pass_of};
ghost use Rattle.sig_types.specs.declared.streams.Stream.TheVariants.{Inputs, Messages, Ticks};
ghost use Rattle.tick_context.specs.CanRun.{NamesPlace};
ghost use Rattle.tick_context.specs.Strides.{IsStride};
ghost use Rattle.cabinet_history.specs.CabinetHistory.{CabinetHistory};
ghost use Rattle.cabinet_history.specs.Coming.{history_of};
ghost use Rattle.cabinet_history.specs.Journals.{runs_of};
ghost use Rattle.cab_book.specs.CabinetStands.{CabinetStands, cabinet_engine};
ghost use Rattle.cab_book.specs.Rounds.{ArePlaced, AreShort, AreTallied, HasRoomFor, RoundStands, frames_left, items_left, with_last};
ghost use Rattle.cab_book.specs.Happened.{HasRoom};
ghost use Rattle.cab_book.specs.Shares.{read_journal, ticks_left, shares};

use crate::cabinet::{Cabinet, Received};
use crate::happened::{Answered, Happened};
use crate::sharing::shares_of;
use cabinet_history::Reply;
use sig_tables::Tables;
use sig_types::{Field, Frame, NoMemory, Octets, Stream, Streams, Way, pass_of};
use std::alloc::Global;

/// The streams of no round.
fn no_streams(alloc: Global) -> Streams
    ensures { items_of result ≡ replicate 5 [] }
{
    Streams {
        fields: Vec::new(alloc),
        polls: Vec::new(alloc),
        loads: Vec::new(alloc),
        prios: Vec::new(alloc),
        ticks: 0,
    }
}

/// The frames of a stream of messages.
fn frames_of(streams: &Streams, way: Way) -> &[Octets]
    ensures { map Came (texts_of result.now) ≡ get_or (items_of streams.now) (pass_of way) [] }
{
    match way {
        Way::Poll => streams.polls.as_slice(),
        Way::Load => streams.loads.as_slice(),
        Way::Prio => streams.prios.as_slice(),
    }
}

/// An input more is at the end of the others. Where memory ran out all streams are as before.
fn push_field(streams: &mut Streams, field: Field) -> Result<(), NoMemory>
    ensures items { OnOk result (items_of streams.new ≡ with_last (items_of streams.old) Inputs (InputTold field)) }
    ensures fields { OnOk result (streams.new.fields.items ≡ streams.old.fields.items ++ field ∷ []) }
    ensures no_memory { OnErr result (items_of streams.new ≡ items_of streams.old) }
    ensures as_before { OnErr result (streams.new.fields.items ≡ streams.old.fields.items) }
{
    match streams.fields.push(field) {
        Ok(()) => Ok(()),
        Err(_) => Err(NoMemory),
    }
}

/// A frame more is at the end of those of its stream. Where memory ran out all streams are as before.
fn push_frame(streams: &mut Streams, way: Way, octets: Octets) -> Result<(), NoMemory>
    ensures items { OnOk result (items_of streams.new ≡ with_last (items_of streams.old) (Messages way) (Came octets.items)) }
    ensures no_memory { OnErr result (items_of streams.new ≡ items_of streams.old) }
    ensures fields { streams.new.fields ≡ streams.old.fields }
{
    let pushed = match way {
        Way::Poll => streams.polls.push(octets),
        Way::Load => streams.loads.push(octets),
        Way::Prio => streams.prios.push(octets),
    };
    match pushed {
        Ok(()) => Ok(()),
        Err(_) => Err(NoMemory),
    }
}

/// The octets of the next of these frames, where that many are left.
#[tactic(auto, using(crate::proofs::Texts::text_at))]
fn next_of(frames: &[Octets], left: u32) -> &[u8]
    requires some { 0 < left }
    requires within { left ≤ length frames.now }
    ensures { result.now ≡ get_or (texts_of frames.now) (length frames.now - left) [] }
{
    let place = frames.len() - left as usize;
    frames[place].as_slice()
}

/// A cabinet, and its round.
#[derive(Drop)]
pub struct Book {
    // on the heap, so that a book that is handed on moves few octets
    cabinet: Box<Cabinet>,
    streams: Streams,
    // how many items each pass, 0 to 7, has left of the stream that it brings
    left: [u32; 8],
    happened: Happened,
    // what any next item needs: a place for an input, few ticks in all, and room for what it gives
    ghost placed: { ∥ ArePlaced streams ∥₁ },
    ghost few: { cabinet.value.ticks + ticks_left left ≤ 4294967294 },
    ghost room: { HasRoomFor left happened },
    // what is left and what was brought are all items, and the streams are short
    ghost tallied: { AreTallied streams left happened },
    ghost short: { AreShort streams },
    // the round began at some cabinet history that the cabinet represented
    ghost some: { ∥ ((cabinet_history : CabinetHistory) × RoundStands cabinet.value streams happened cabinet_history) ∥₁ },
}

impl Book {
    ghost use Rattle.cab_book.specs.Books.{acts_in, answered_in, cabinet_history_now, engine_of, journal_of, left_of, next_act, streams_in, tick_acts, ticks_by_end, written_in};
    ghost use Rattle.cab_book.specs.Books.{BookStands, CanBeTaken, IsOnePart, Replays, Shares};
    ghost use Rattle.cab_book.specs.Books.{HasOnlyRoom, IgnoresWhatAsksNothing, IsAsBefore, IsBrought, IsBroughtAtEnd, IsLengthened};

    /// The book of a cabinet before its first round.
    pub fn new(alloc: Global, cabinet: Cabinet) -> Result<Book, NoMemory>
        requires some { (cabinet_history : CabinetHistory) × CabinetStands cabinet cabinet_history }
        requires few { cabinet.ticks ≤ 4294967294 }
        ensures stands { IfOk result (λ book. (cabinet_history : CabinetHistory) → CabinetStands cabinet cabinet_history → BookStands book cabinet_history) }
        ensures streams { IfOk result (λ book. streams_in book ≡ replicate 5 []) }
        ensures journal { IfOk result (λ book. journal_of book ≡ []) }
        ensures ticks { IfOk result (λ book. ticks_by_end book ≡ cabinet.ticks) }
        ensures engine { IfOk result (λ book. engine_of book ≡ cabinet_engine cabinet) }
    {
        match Box::new(alloc, cabinet) {
            Ok(cabinet) => Ok(Book {
                cabinet,
                streams: no_streams(alloc),
                left: [0; 8],
                happened: Happened::none(alloc),
            }),
            Err(_) => Err(NoMemory),
        }
    }

    /// Begins a round with these streams; what was left of the round before is dropped. Room for the whole round is
    /// taken here. Where memory ran out the streams come back, and the book is as before.
    pub fn open_round(&mut self, alloc: Global, streams: Streams) -> Result<(), (Streams, NoMemory)>
        requires can { CanBeTaken streams }
        requires few { ticks_by_end self.old + streams.ticks ≤ 4294967294 }
        ensures stands { OnOk result ((cabinet_history : CabinetHistory) → BookStands self.old cabinet_history → BookStands self.new (cabinet_history_now self.old cabinet_history)) }
        ensures streams { OnOk result (streams_in self.new ≡ items_of streams) }
        ensures journal { OnOk result (journal_of self.new ≡ []) }
        ensures one { OnOk result (IsOnePart self.new) }
        ensures ticks { OnOk result (ticks_by_end self.new ≤ ticks_by_end self.old + streams.ticks) }
        ensures no_memory { IfErr result (λ e. (e.0 ≡ streams) × (self.new ≡ self.old)) }
    {
        let polls = streams.polls.len();
        let loads = streams.loads.len();
        let prios = streams.prios.len();
        let fields = streams.fields.len();
        let frames = polls + loads + prios;
        let items = fields + frames + streams.ticks as usize;
        let happened = match Happened::with_room(alloc, streams.ticks, frames, items) {
            Ok(happened) => happened,
            Err(NoMemory) => return Err((streams, NoMemory)),
        };
        self.left = [
            fields as u32,
            polls as u32,
            loads as u32,
            prios as u32,
            streams.ticks,
            0,
            0,
            0,
        ];
        self.streams = streams;
        self.happened = happened;
        Ok(())
    }

    /// How many items a pass has left in the round: a pass from 0 to 7 brings those of the stream `Stream::of_pass`, 5
    /// to 7 only if the ticks were shared. Any other number isn't a pass and has none.
    pub fn left(&self, pass: u32) -> u32
        ensures { result ≡ left_of self.now pass }
    {
        if pass < 8 {
            self.left[pass as usize]
        } else {
            0
        }
    }

    /// A pass brings the next item of its stream. A frame that asks nothing of the cabinet changes nothing in it, and
    /// is ignored. It takes no memory.
    pub fn apply(&mut self, pass: u32)
        requires { 0 < left_of self.old pass }
        ensures stands { (cabinet_history : CabinetHistory) → BookStands self.old cabinet_history → BookStands self.new cabinet_history }
        ensures streams { streams_in self.new ≡ streams_in self.old }
        ensures journal { journal_of self.new ≡ journal_of self.old ++ pass ∷ [] }
        ensures acts { acts_in self.new ≡ acts_in self.old ++ next_act self.old pass ∷ [] }
        ensures own { left_of self.new pass + 1 ≡ left_of self.old pass }
        ensures others { (p : ℕ) → p ≢ pass → left_of self.new p ≡ left_of self.old p }
        ensures ticks { ticks_by_end self.new ≡ ticks_by_end self.old }
        ensures ignored { IgnoresWhatAsksNothing self.old self.new pass (next_act self.old pass).item }
        ensures replays { (first : Book) → Replays first self.old → Replays first self.new }
    {
        match Stream::of_pass(pass) {
            Stream::Inputs => self.hear(),
            Stream::Messages(way) => self.receive(way),
            Stream::Ticks => self.tick(pass),
        }
    }

    /// The ticks of a round to which nothing was brought yet are shared in one, two or four parts among passes 4 to 7: the greater half
    /// first, and of each half too. It takes no memory.
    pub fn share(&mut self, parts: u32)
        requires fresh { journal_of self.old ≡ [] }
        requires parts { (parts ≡ 1) ⊎ (parts ≡ 2) ⊎ (parts ≡ 4) }
        ensures parts { (k : ℕ) → k < 4 → left_of self.new (4 + k) ≡ get_or (shares parts (length (get_or (streams_in self.old) 4 []))) k 0 }
        ensures shares { Shares self.old self.new }
        ensures above { (p : ℕ) → 8 ≤ p → left_of self.new p ≡ 0 }
    {
        let parts = shares_of(parts, self.ticks_left());
        self.left = [
            self.left[0],
            self.left[1],
            self.left[2],
            self.left[3],
            parts[0],
            parts[1],
            parts[2],
            parts[3],
        ];
    }

    /// How many ticks are left in the round.
    fn ticks_left(&self) -> u32
        ensures { result ≡ ticks_left self.now.left }
    {
        self.left[4] + self.left[5] + self.left[6] + self.left[7]
    }

    /// All ticks of the round are those of pass 4 again: passes 5 to 7 are read as 4, also in the journal, which is
    /// written in its longest runs. It takes no memory.
    pub fn join_ticks(&mut self)
        ensures stands { (cabinet_history : CabinetHistory) → BookStands self.old cabinet_history → BookStands self.new cabinet_history }
        ensures streams { streams_in self.new ≡ streams_in self.old }
        ensures journal { journal_of self.new ≡ read_journal (journal_of self.old) }
        ensures one { IsOnePart self.new }
        ensures own { left_of self.new 4 ≡ ticks_left self.old.left }
        ensures others { (p : ℕ) → p < 4 → left_of self.new p ≡ left_of self.old p }
        ensures ticks { ticks_by_end self.new ≡ ticks_by_end self.old }
        ensures undone { (first : Book) → journal_of first ≡ [] → IsOnePart first → Shares first self.old → self.new ≡ first }
    {
        let ticks = self.ticks_left();
        self.happened.join_ticks();
        self.left = [
            self.left[0],
            self.left[1],
            self.left[2],
            self.left[3],
            ticks,
            0,
            0,
            0,
        ];
    }

    /// A pass that brings ticks brings its next ones, up to the first whose frame has a line, but at most n: how many these are. It
    /// takes no memory.
    pub fn stride(&mut self, pass: u32, n: u32) -> u32
        requires above { 4 ≤ pass }
        requires below { pass ≤ 7 }
        requires some { 1 ≤ n }
        requires within { n ≤ left_of self.old pass }
        ensures least { (cabinet_history : CabinetHistory) → BookStands self.old cabinet_history → IsStride (history_of (cabinet_history_now self.old cabinet_history)) n result }
        ensures stands { (cabinet_history : CabinetHistory) → BookStands self.old cabinet_history → BookStands self.new cabinet_history }
        ensures streams { streams_in self.new ≡ streams_in self.old }
        ensures journal { journal_of self.new ≡ journal_of self.old ++ replicate result pass }
        ensures acts { acts_in self.new ≡ acts_in self.old ++ tick_acts pass result }
        ensures own { left_of self.new pass + result ≡ left_of self.old pass }
        ensures others { (p : ℕ) → p ≢ pass → left_of self.new p ≡ left_of self.old p }
        ensures ticks { ticks_by_end self.new ≡ ticks_by_end self.old }
        ensures replays { (first : Book) → Replays first self.old → Replays first self.new }
        ensures some { 1 ≤ result }
        ensures within { result ≤ n }
    {
        let (ticks, written) = self.cabinet.stride(n);
        self.happened.add_ticks(pass, ticks, written);
        self.left[pass as usize] -= ticks;
        ticks
    }

    /// An input comes after all others of the round, which were brought, and is brought at once. Where memory ran out
    /// the book is as before.
    pub fn bring_input(&mut self, field: Field) -> Result<(), NoMemory>
        requires place { NamesPlace field }
        requires none { left_of self.old (number_of Inputs) ≡ 0 }
        requires few { length (get_or (streams_in self.old) (number_of Inputs) []) < 2147483648 }
        ensures brought { OnOk result (IsBroughtAtEnd self.old self.new Inputs (InputTold field)) }
        ensures no_memory { OnErr result (IsAsBefore self.old self.new) }
    {
        match self.add_input(field) {
            Ok(()) => {}
            Err(NoMemory) => return Err(NoMemory),
        }
        self.hear();
        Ok(())
    }

    /// A frame comes after all others of its stream, which were brought, and is brought at once: its reply is the last.
    /// Where memory ran out the book is as before.
    pub fn bring_frame(&mut self, way: Way, octets: Octets) -> Result<(), NoMemory>
        requires none { left_of self.old (pass_of way) ≡ 0 }
        requires few { length (get_or (streams_in self.old) (pass_of way) []) < 2147483648 }
        ensures brought { OnOk result (IsBroughtAtEnd self.old self.new (Messages way) (Came octets.items)) }
        ensures no_memory { OnErr result (IsAsBefore self.old self.new) }
    {
        match self.add_frame(way, octets) {
            Ok(()) => {}
            Err(NoMemory) => return Err(NoMemory),
        }
        self.receive(way);
        Ok(())
    }

    /// Takes room for what one item more may give. Nothing else of the book changes, also if memory runs out.
    fn reserve_one(&mut self) -> Result<(), NoMemory>
        ensures room { OnOk result (HasRoom self.new.happened (ticks_left self.old.left) (frames_left self.old.left + 1) (items_left self.old.left + 1)) }
        ensures same { HasOnlyRoom self.old self.new }
    {
        let frames = self.left[1] as usize + self.left[2] as usize + self.left[3] as usize + 1;
        let items = self.left[0] as usize + frames + self.ticks_left() as usize;
        match self.happened.reserve(frames, items) {
            Ok(()) => Ok(()),
            Err(NoMemory) => Err(NoMemory),
        }
    }

    /// An input comes after all others of the round, and is left to be brought. Where memory ran out the book is as
    /// before.
    fn add_input(&mut self, field: Field) -> Result<(), NoMemory>
        requires place { NamesPlace field }
        requires few { length (get_or (streams_in self.old) (number_of Inputs) []) < 2147483648 }
        ensures added { OnOk result (IsLengthened self.old self.new Inputs (InputTold field)) }
        ensures no_memory { OnErr result (IsAsBefore self.old self.new) }
    {
        match self.reserve_one() {
            Ok(()) => {}
            Err(NoMemory) => return Err(NoMemory),
        }
        match push_field(&mut self.streams, field) {
            Ok(()) => {}
            Err(NoMemory) => return Err(NoMemory),
        }
        self.left[0] += 1;
        Ok(())
    }

    /// A frame comes after all others of its stream, and is left to be brought. Where memory ran out the book is as
    /// before.
    fn add_frame(&mut self, way: Way, octets: Octets) -> Result<(), NoMemory>
        requires few { length (get_or (streams_in self.old) (pass_of way) []) < 2147483648 }
        ensures added { OnOk result (IsLengthened self.old self.new (Messages way) (Came octets.items)) }
        ensures no_memory { OnErr result (IsAsBefore self.old self.new) }
    {
        match self.reserve_one() {
            Ok(()) => {}
            Err(NoMemory) => return Err(NoMemory),
        }
        match push_frame(&mut self.streams, way, octets) {
            Ok(()) => {}
            Err(NoMemory) => return Err(NoMemory),
        }
        self.left[pass_of(way) as usize] += 1;
        Ok(())
    }

    /// The cabinet hears the next input from the street.
    fn hear(&mut self)
        requires { 0 < left_of self.old (number_of Inputs) }
        ensures { IsBrought self.old self.new (number_of Inputs) }
    {
        let place = self.streams.fields.len() - self.left[0] as usize;
        self.cabinet.hear(self.streams.fields[place]);
        self.happened.add_input();
        self.left[0] -= 1;
    }

    /// The cabinet has its next tick, which this pass brings.
    fn tick(&mut self, pass: u32)
        requires ticks { Brings pass Ticks }
        requires some { 0 < left_of self.old pass }
        ensures { IsBrought self.old self.new pass }
    {
        let written = self.cabinet.tick();
        self.happened.add_ticks(pass, 1, written);
        self.left[pass as usize] -= 1;
    }

    /// The next frame of a stream of messages arrives at the cabinet.
    fn receive(&mut self, way: Way)
        requires some { 0 < left_of self.old (pass_of way) }
        ensures { IsBrought self.old self.new (pass_of way) }
    {
        let pass = pass_of(way);
        let frames = frames_of(&self.streams, way);
        let octets = next_of(frames, self.left[pass as usize]);
        let Received { text, load } = self.cabinet.receive(octets);
        self.happened.add_reply(Reply { pass, text, load });
        self.left[pass as usize] -= 1;
    }

    /// The cabinet's last frame.
    pub fn frame(&self) -> Frame
        ensures { (cabinet_history : CabinetHistory) → BookStands self.now cabinet_history → result ≡ last_frame_of (history_of (cabinet_history_now self.now cabinet_history)) }
    {
        self.cabinet.frame()
    }

    /// The cabinet's tables in force.
    pub fn tables(&self) -> &Tables
        ensures { (cabinet_history : CabinetHistory) → BookStands self.now cabinet_history → result.now ≡ (past_at (history_of (cabinet_history_now self.now cabinet_history))).tables }
    {
        self.cabinet.tables()
    }

    /// The journal of the round so far, in its longest runs of one pass.
    pub fn runs(&self) -> &[(u32, u32)]
        ensures { result.now ≡ runs_of (journal_of self.now) }
    {
        self.happened.runs()
    }

    /// The frames of the round that have a line, with the numbers of their ticks.
    pub fn written(&self) -> &[(u32, Frame)]
        ensures { result.now ≡ written_in self.now }
    {
        self.happened.written()
    }

    /// The replies of the round, each after as many of these frames as came before it.
    pub fn replies(&self) -> &[Answered]
        ensures { result.now ≡ answered_in self.now }
    {
        self.happened.replies()
    }
}
