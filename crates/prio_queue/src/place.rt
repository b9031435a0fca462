//! One priority request, and which of two comes first.

ghost use Rattle.std.specs.Prelude.{◌≡◌, ◌<◌, ◌&&◌, ℕ, not, nat_le};
ghost use Rattle.sig_tables.specs.declared.tables.Tables.{Tables};
ghost use Rattle.sig_tables.specs.Slots.{is_coordinated};
ghost use Rattle.sig_tables.specs.Layout.{Has};
ghost use Rattle.sig_tables.specs.Priority.{stays_until, arrives_at, precedes};

use sig_types::{PhaseSet, Request};

/// A request, after how many ticks it was given, and whether it was cancelled before it departed.
#[derive(Clone, Copy)]
pub(crate) struct Place {
    pub ticks: u32,
    pub request: Request,
    pub cancelled: bool,
    ghost numbered: { 0 < request.number },
}

impl Place {
    ghost use Rattle.prio_queue.specs.Places.{place_meant};

    /// The last tick at which the request has not departed.
    pub fn stays_until(&self) -> u64
        ensures { result ≡ stays_until (place_meant self.now) }
    {
        u64::from(self.ticks) + u64::from(self.request.departure)
    }

    /// The tick at which the request arrives.
    fn arrives_at(&self) -> u64
        ensures { result ≡ arrives_at (place_meant self.now) }
    {
        u64::from(self.ticks) + u64::from(self.request.arrival)
    }

    /// Whether the request has not departed after N ticks.
    pub fn has_stayed(&self, tick: u32) -> bool
        ensures { result ≡ nat_le tick (stays_until (place_meant self.now)) }
    {
        u64::from(tick) <= self.stays_until()
    }

    /// Whether this request comes before the other: by class, level, time of arrival and number.
    pub fn precedes(&self, other: &Place) -> bool
        ensures { result ≡ precedes (place_meant self.now) (place_meant other.now) }
    {
        let (mine, others) = (self.request, other.request);
        if mine.class != others.class {
            mine.class <= others.class
        } else if mine.level != others.level {
            mine.level <= others.level
        } else if self.arrives_at() != other.arrives_at() {
            self.arrives_at() <= other.arrives_at()
        } else {
            mine.number <= others.number
        }
    }

    /// Whether the request is for one of these phases, which are the coordinated phases of a pattern.
    pub fn is_for(&self, coordinated: PhaseSet) -> bool
        ensures { (t : Tables) (n : ℕ) → Has coordinated (is_coordinated t n) → result ≡ is_coordinated t n self.now.request.phase }
    {
        let phase = self.request.phase;
        if phase == 0 || phase > 16 {
            false
        } else {
            coordinated.has(phase)
        }
    }

    /// Whether the request is live after N ticks: it has not departed, and was not cancelled.
    pub fn is_live(&self, tick: u32) -> bool
        ensures { result ≡ (nat_le tick (stays_until (place_meant self.now)) && not self.now.cancelled) }
    {
        self.has_stayed(tick) && !self.cancelled
    }
}
