//! The priority requests of a cabinet, as transit vehicles and emergency vehicles make them (NTCIP 1211): ten places, one for
//! each request number. Nothing is done at a tick for a request that waits or departs: its times are kept, and compared
//! where it is asked for.
#![tactic(auto)]

ghost use Rattle.std.specs.Prelude.{◌≡◌, ◌≤◌, ◌<◌, ℕ};

use sig_types::{PhaseSet, Request};

mod kept;
mod passing;
mod place;

use kept::{cancelled_at, is_number, leader_by, state_of, unless_number};
use place::Place;

/// The requests that were given, the one that was active at the last tick and has not been replaced since, and the last tick
/// at which any of them may be live.
#[derive(Drop)]
pub struct Queue {
    places: [Option<Place>; 10],
    active: Option<u8>,
    until: u64,
}

impl Queue {
    ghost use Rattle.sig_tables.specs.declared.tables.Tables.{Tables};
    ghost use Rattle.sig_tables.specs.Past.{Past, Moment, Ask, Cancel};
    ghost use Rattle.sig_tables.specs.Decide.{opened, with_event, with_moment, ticks_in};
    ghost use Rattle.sig_tables.specs.Slots.{is_coordinated};
    ghost use Rattle.sig_tables.specs.Layout.{Has};
    ghost use Rattle.sig_tables.specs.Priority.{active_in, leader, all_requests};
    ghost use Rattle.sig_types.specs.declared.frame.Mode.TheVariants.{Coord};
    ghost use Rattle.sig_tables.specs.Showing.{state_shown, states_shown};
    ghost use Rattle.prio_queue.specs.Places.{meant, some_number};
    ghost use Rattle.prio_queue.specs.QueueStands.{QueueStands};

    /// No request.
    pub fn new() -> Queue
        ensures stands { (t : Tables) → QueueStands result (opened t) }
    {
        Queue {
            places: [None; 10],
            active: None,
            until: 0,
        }
    }

    /// A request, numbered 1 to 10, that is given after N ticks. It replaces the one of its number.
    pub fn request(&mut self, request: Request, tick: u32)
        requires above { 0 < request.number }
        requires within { request.number ≤ 10 }
        ensures stands { (past : Past) → QueueStands self.old past → tick ≡ ticks_in past
            → QueueStands self.new (with_event (Ask request) past) }
    {
        let place = Place {
            ticks: tick,
            request,
            cancelled: false,
        };
        self.active = unless_number(self.active, request.number);
        self.until = self.until.max(place.stays_until());
        self.places[request.number as usize - 1] = Some(place);
    }

    /// The request of a number, 1 to 10, is cancelled after N ticks, where there is one that has not departed.
    pub fn cancel(&mut self, number: u8, tick: u32)
        requires above { 0 < number }
        requires within { number ≤ 10 }
        ensures stands { (past : Past) → QueueStands self.old past → tick ≡ ticks_in past
            → QueueStands self.new (with_event (Cancel number) past) }
    {
        let index = number as usize - 1;
        self.places[index] = cancelled_at(self.places[index], tick);
    }

    /// The request that is active at the tick with this number, which gives a frame in Coord of a pattern with these
    /// coordinated phases: of the live requests for one of them that with the least class, level, time of arrival and
    /// number. None where there is none. (In every other mode no request is active.)
    pub fn active(&self, tick: u32, coordinated: PhaseSet) -> Option<u8>
        ensures active { (past : Past) (t : Tables) (n : ℕ) → QueueStands self.now past → Has coordinated (is_coordinated t n)
            → result ≡ some_number (active_in t (Coord n) tick past.asked) }
    {
        if self.until < u64::from(tick) {
            return None;
        }
        match self.leader(tick, coordinated) {
            Some(place) => Some(place.request.number),
            None => None,
        }
    }

    /// The request that comes first of those that are live after N ticks and for one of these phases.
    fn leader(&self, tick: u32, coordinated: PhaseSet) -> Option<Place>
        ensures { (past : Past) (t : Tables) (n : ℕ) → QueueStands self.now past → Has coordinated (is_coordinated t n)
            → meant result ≡ leader t n tick past.asked all_requests }
    {
        let mut leader = None;
        for step in 0..10 {
            leader = leader_by(self.places[9 - step], leader, tick, coordinated);
        }
        leader
    }

    /// One tick, at which this request was active.
    pub fn step(&mut self, active: Option<u8>)
        ensures stands { (past : Past) (m : Moment) → QueueStands self.old past → ticks_in past < m.number
            → active ≡ some_number m.active → QueueStands self.new (with_moment past m) }
    {
        self.active = active;
    }

    /// The state of the request of a number, 1 to 10, after N ticks: 0 there was none, 1 queued, 2 active at the last
    /// tick, 3 departed, 4 cancelled.
    pub fn state(&self, number: u8, tick: u32) -> u8
        requires above { 0 < number }
        requires within { number ≤ 10 }
        ensures state { (past : Past) → QueueStands self.now past → tick ≡ ticks_in past → result ≡ state_shown past number }
    {
        let active = is_number(self.active, number);
        state_of(self.places[number as usize - 1], tick, active)
    }

    /// The states of all requests; that of number k is at place k - 1.
    pub fn states(&self, tick: u32) -> [u8; 10]
        ensures states { (past : Past) → QueueStands self.now past → tick ≡ ticks_in past → result ≡ states_shown past }
    {
        [
            self.state(1, tick),
            self.state(2, tick),
            self.state(3, tick),
            self.state(4, tick),
            self.state(5, tick),
            self.state(6, tick),
            self.state(7, tick),
            self.state(8, tick),
            self.state(9, tick),
            self.state(10, tick),
        ]
    }
}
