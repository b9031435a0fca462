//! A cabinet: what gives its frames, its download stage, and the community of those who may ask it.

ghost use Rattle.std.specs.Prelude.{◌≡◌, ◌<◌, ◌≤◌, ◌+◌, option_to_list, Some};
ghost use Rattle.sig_tables.specs.Past.{History};
ghost use Rattle.sig_tables.specs.Decide.{last_frame_of, past_at};
ghost use Rattle.tick_context.specs.CanRun.{NamesPlace};
ghost use Rattle.cab_book.specs.Controls.{ControlStands, engine_of};
ghost use Rattle.tick_context.specs.Strides.{IsStride};
ghost use Rattle.agent.specs.Asks.{IsAsked, CanBeCarriedOut};
ghost use Rattle.sig_types.specs.Items.{InputTold, Came, Ticked};
ghost use Rattle.cabinet_history.specs.CabinetHistory.{CabinetHistory, opened, with_item};
ghost use Rattle.cabinet_history.specs.Coming.{Coming, history_of, ask_after, carried_out};
ghost use Rattle.cabinet_history.specs.Frames.{tick_written};
ghost use Rattle.cabinet_history.specs.CabinetAnswers.{reply_to, load_end, in_frame, replied, ask_end};
ghost use Rattle.cab_book.specs.CabinetStands.{blank_ask};

use crate::Control;
use crate::carrying::{call_stage, carry_out, end_of};
use crate::frames::has_line;
use agent::{Ask, Wish, answer, decode_into};
use arrayvec::ArrayVec;
use cabinet_history::Load;
use sig_tables::Tables;
use sig_types::{Field, Frame, Octets};
use snmp_msg::{Message, Pdu};
use stage_txn::Stage;

/// A cabinet, and the number of its ticks so far. What a frame asks is read into one ask, which is blank between frames.
#[derive(Drop)]
pub struct Cabinet {
    control: Control,
    stage: Stage,
    community: ArrayVec<u8, 32>,
    ticks: u32,
    ask: Ask,
}

/// What a cabinet says about a frame: the answer, or silence, and the end of a load where the frame brought one.
#[derive(Drop)]
pub struct Received {
    pub text: Option<Octets>,
    pub load: Option<Load>,
}

/// A Get of nothing.
fn blank_ask() -> Ask
    ensures { result ≡ blank_ask }
{
    Ask {
        message: Message {
            community: ArrayVec::new(),
            pdu: Pdu::Get,
            id: 0,
            status: 0,
            index: 0,
            binds: ArrayVec::new(),
        },
        wish: Wish::Get,
    }
}

/// Leaves a Get of nothing.
fn clear(ask: &mut Ask)
    ensures { ask.new ≡ blank_ask }
{
    ask.message.community.clear();
    ask.message.pdu = Pdu::Get;
    ask.message.id = 0;
    ask.message.status = 0;
    ask.message.index = 0;
    ask.message.binds.clear();
    ask.wish = Wish::Get;
}

impl Cabinet {
    ghost use Rattle.cab_book.specs.CabinetStands.{IsNew, CabinetKeeps, CabinetStands, cabinet_engine};
    ghost use Rattle.cab_book.specs.Ticks.{ticks_on, ticks_written};

    /// A cabinet whose control has just been opened, with the community of those who may ask it. Nothing was sent to its stage.
    pub fn new(control: Control, community: ArrayVec<u8, 32>) -> Cabinet
        requires new { (h : History) × ControlStands control h × IsNew h }
        ensures stands { (h : History) → ControlStands control h → IsNew h → CabinetStands result (opened community.items h) }
        ensures engine { cabinet_engine result ≡ engine_of control }
    {
        Cabinet {
            control,
            stage: Stage::new(),
            community,
            ticks: 0,
            ask: blank_ask(),
        }
    }

    /// Its last frame.
    pub fn frame(&self) -> Frame
        ensures { (cabinet_history : CabinetHistory) → CabinetStands self.now cabinet_history → result ≡ last_frame_of (history_of cabinet_history) }
    {
        self.control.frame()
    }

    /// The tables in force.
    pub fn tables(&self) -> &Tables
        ensures { (cabinet_history : CabinetHistory) → CabinetStands self.now cabinet_history → result.now ≡ (past_at (history_of cabinet_history)).tables }
    {
        self.control.tables()
    }

    /// It hears an input from the street.
    pub fn hear(&mut self, field: Field)
        requires place { NamesPlace field }
        ensures stands { (cabinet_history : CabinetHistory) → CabinetStands self.old cabinet_history → CabinetStands self.new (with_item cabinet_history (InputTold field)) }
        ensures ticks { self.new.ticks ≡ self.old.ticks }
    {
        self.control.input(field);
    }

    /// A tick of 0.1 s: its frame with its number, where that has a line.
    pub fn tick(&mut self) -> Option<(u32, Frame)>
        requires few { self.old.ticks < 4294967294 }
        requires some { ∥ ((cabinet_history : CabinetHistory) × CabinetStands self.old cabinet_history) ∥₁ }
        ensures gives { (cabinet_history : CabinetHistory) → CabinetStands self.old cabinet_history → option_to_list result ≡ tick_written (history_of cabinet_history) }
        ensures stands { (cabinet_history : CabinetHistory) → CabinetStands self.old cabinet_history → CabinetStands self.new (with_item cabinet_history Ticked) }
        ensures ticks { self.new.ticks ≡ self.old.ticks + 1 }
    {
        let last = self.control.frame();
        let next = self.control.tick();
        self.ticks += 1;
        if has_line(&last, &next) {
            Some((self.ticks, next))
        } else {
            None
        }
    }

    /// Ticks up to the first whose frame has a line, but at most n: how many there were, and the frame of the last with its number,
    /// where it has a line.
    pub fn stride(&mut self, n: u32) -> (u32, Option<(u32, Frame)>)
        requires some { 1 ≤ n }
        requires few { self.old.ticks + n ≤ 4294967294 }
        requires stood { ∥ ((cabinet_history : CabinetHistory) × CabinetStands self.old cabinet_history) ∥₁ }
        ensures least { (cabinet_history : CabinetHistory) → CabinetStands self.old cabinet_history → IsStride (history_of cabinet_history) n result.0 }
        ensures gives { (cabinet_history : CabinetHistory) → CabinetStands self.old cabinet_history → option_to_list result.1 ≡ ticks_written result.0 cabinet_history }
        ensures stands { (cabinet_history : CabinetHistory) → CabinetStands self.old cabinet_history → CabinetStands self.new (ticks_on result.0 cabinet_history) }
        ensures ticks { self.new.ticks ≡ self.old.ticks + result.0 }
        ensures some { 1 ≤ result.0 }
        ensures within { result.0 ≤ n }
    {
        let (ticks, told) = self.control.stride_told(n);
        self.ticks += ticks;
        if told {
            (ticks, Some((self.ticks, self.control.frame())))
        } else {
            (ticks, None)
        }
    }

    /// A frame comes to it. One that asks nothing of it, as it isn't a message, is of another community, or is a
    /// Response, is ignored and changes nothing.
    pub fn receive(&mut self, octets: &[u8]) -> Received
        requires some { ∥ ((cabinet_history : CabinetHistory) × CabinetStands self.old cabinet_history) ∥₁ }
        ensures text { (cabinet_history : CabinetHistory) → CabinetStands self.old cabinet_history → result.text ≡ in_frame (reply_to cabinet_history octets.now) }
        ensures load { (cabinet_history : CabinetHistory) → CabinetStands self.old cabinet_history → result.load ≡ load_end cabinet_history octets.now }
        ensures stands { (cabinet_history : CabinetHistory) → CabinetStands self.old cabinet_history → CabinetStands self.new (with_item cabinet_history (Came octets.now)) }
        ensures ticks { self.new.ticks ≡ self.old.ticks }
        ensures nothing { (cabinet_history : CabinetHistory) → CabinetStands self.old cabinet_history → ask_after cabinet_history octets.now ≡ None
            → (self.new ≡ self.old) × (result ≡ record { text = None; load = None }) }
    {
        clear(&mut self.ask);
        let community = self.community.as_slice();
        match decode_into(octets, community, self.control.tables(), &mut self.ask) {
            Some(()) => {
                let told = self.heed();
                clear(&mut self.ask);
                told
            }
            None => {
                clear(&mut self.ask);
                Received {
                    text: None,
                    load: None,
                }
            }
        }
    }

    /// What is asked is answered, by what was before, and carried out.
    fn heed(&mut self) -> Received
        requires some { ∥ ((has : Coming) × CabinetKeeps self.old has) ∥₁ }
        requires asked { IsAsked self.old.ask }
        requires can { CanBeCarriedOut self.old.ask.wish }
        ensures text { (has : Coming) → CabinetKeeps self.old has → result.text ≡ in_frame (replied has (Some self.old.ask)) }
        ensures load { (has : Coming) → CabinetKeeps self.old has → result.load ≡ ask_end has (Some self.old.ask) }
        ensures keeps { (has : Coming) → CabinetKeeps self.old has → CabinetKeeps self.new (carried_out has self.old.ask.wish) }
        ensures community { self.new.community ≡ self.old.community }
        ensures ticks { self.new.ticks ≡ self.old.ticks }
    {
        let shown = self.control.shown();
        let state = self.stage.state();
        let last = self.stage.last();
        let outcome = call_stage(&mut self.stage, &self.control, &self.ask.wish);
        let text = answer(
            &self.ask,
            self.control.tables(),
            &shown,
            state,
            last,
            outcome,
        );
        let load = end_of(shown.version, &self.ask.wish, outcome);
        carry_out(&mut self.control, &self.stage, &self.ask.wish, outcome);
        Received {
            text: Some(text),
            load,
        }
    }
}
