//! What is kept of a detector from round to round, so that each round is looked at once.

ghost use Rattle.std.specs.Prelude.{ℕ, ◌≡◌, ◌≢◌, ◌+◌, ◌-◌, ◌<◌, ◌≤◌, ◌&&◌, ◌||◌, not, true, false, nat_lt, if◌then◌else◌, List, length};
ghost use Rattle.detector_bank.specs.declared.bank.Pulse.{Pulse as PulseRow};
ghost use Rattle.detector_bank.specs.Pulses.{flags_of, flags, is_of, after, any_on, some_pulse, edges_from, edges_in};
ghost use Rattle.detector_bank.specs.Bank.{latest_edges, is_erratic, failed, lately_past, calls};

use crate::bank::{Detector, Pulse};

/// The registers of a detector after a round. In a round without a pulse of the detector none of them changes.
#[derive(Clone, Copy)]
pub struct Watch {
    /// Its state.
    pub on: bool,
    /// The round of its last pulse; 0 before the first.
    pub last_pulse: u32,
    /// The round of its last pulse that was on; 0 before the first.
    pub last_on: u32,
    /// The last round in which it wasn't active, where it is active.
    pub last_inactive: u32,
    /// The last round looked at in which it was past its delay; 0 where there is none.
    pub last_past_delay: u32,
    /// It had no more edges than this in the latest sixty rounds.
    pub most: u32,
    /// The rounds whose edges are kept, each at its number modulo 60.
    pub rounds: [u32; 60],
    /// The edges of each of these rounds.
    pub edges: [u32; 60],
}

/// What the pulses of a round do to a detector.
#[derive(Clone, Copy)]
struct Taken {
    /// Its state after them.
    on: bool,
    /// There was one.
    some: bool,
    /// One of them was on.
    had_on: bool,
    /// How often it went from off to on.
    edges: u32,
}

/// Whether a pulse is one of a detector's.
fn is_of(detector: &Detector, pulse: &Pulse) -> bool
    ensures { result ≡ is_of detector.now pulse.now }
{
    pulse.cabinet == detector.cabinet && pulse.detector == detector.detector
}

/// What the pulses of a round do to a detector that was on or off before them.
fn take_pulses(detector: &Detector, on: bool, span: &[Pulse]) -> Taken
    requires few { length span.now ≤ 1000000 }
    ensures on { result.on ≡ after on (flags_of detector.now span.now) }
    ensures some { result.some ≡ some_pulse (flags_of detector.now span.now) }
    ensures had_on { result.had_on ≡ any_on (flags_of detector.now span.now) }
    ensures edges { result.edges ≡ edges_from on (flags_of detector.now span.now) }
    ensures few { result.edges ≤ length span.now }
{
    let mut taken = Taken {
        on,
        some: false,
        had_on: false,
        edges: 0,
    };
    for pulse in span {
        if is_of(detector, pulse) {
            taken = after_pulse(taken, pulse.on);
        }
    }
    taken
}

/// One pulse more.
fn after_pulse(taken: Taken, on: bool) -> Taken
    requires { taken.edges < 1000000 }
    ensures on { result.on ≡ on }
    ensures some { result.some ≡ true }
    ensures had_on { result.had_on ≡ (taken.had_on || on) }
    ensures edges { result.edges ≡ taken.edges + (if on && not taken.on then 1 else 0) }
{
    let edge = on && !taken.on;
    Taken {
        on,
        some: true,
        had_on: taken.had_on || on,
        edges: if edge { taken.edges + 1 } else { taken.edges },
    }
}

/// A round, or an earlier one.
fn round_if(now: bool, round: u32, before: u32) -> u32
    ensures { result ≡ (if now then round else before) }
{
    if now { round } else { before }
}

/// The earlier of two rounds, where the second is that many rounds after another, and that is yet to come.
fn earlier(due: u32, from: u32, span: u32, round: u32) -> u32
    ensures most { result ≤ due }
    ensures behind { round < from + span → result ≤ from + span }
{
    let end = from.saturating_add(span);
    if round < end && end < due { end } else { due }
}

impl Watch {
    ghost use Rattle.detector_bank.specs.Watching.{present_at, edges_at, Counts, Watches};

    /// Before the first round.
    pub fn new() -> Watch
        ensures { (d : Detector) (ps : List PulseRow) → length ps ≤ 1000000 → Watches result d ps 0 }
    {
        Watch {
            on: false,
            last_pulse: 0,
            last_on: 0,
            last_inactive: 0,
            last_past_delay: 0,
            most: 0,
            rounds: [0; 60],
            edges: [0; 60],
        }
    }

    /// For how many rounds in a row it has been active.
    fn present(&self, round: u32) -> u32
        ensures { result ≡ present_at self.now round }
    {
        if self.on || self.last_on == round {
            round.saturating_sub(self.last_inactive)
        } else {
            0
        }
    }

    /// Whether it is past its delay.
    fn is_past(&self, detector: &Detector, round: u32) -> bool
        ensures { result ≡ nat_lt detector.now.delay (present_at self.now round) }
    {
        self.present(round) > u32::from(detector.delay)
    }

    /// Its edges in one of the latest sixty rounds.
    fn edges_at(&self, round: u32) -> u32
        ensures { result ≡ edges_at self.now round }
    {
        let slot = (round % 60) as usize;
        if self.rounds[slot] == round {
            self.edges[slot]
        } else {
            0
        }
    }

    /// Its edges in the latest sixty rounds.
    fn latest(&self, round: u32) -> u32
        ensures { (d : Detector) (ps : List PulseRow) → length ps ≤ 1000000 → Counts self.now d ps round → result ≡ latest_edges d ps 60 round }
    {
        let mut sum = 0u32;
        for back in 0..60u32 {
            let edges = self.edges_at(round.saturating_sub(back));
            sum = sum.saturating_add(edges);
        }
        sum
    }

    /// Takes the pulses of a round.
    fn take(&mut self, detector: &Detector, round: u32, span: &[Pulse])
        requires few { length span.now ≤ 1000000 }
        ensures { (ps : List PulseRow) (j : ℕ) → round ≡ j + 1 → flags_of detector.now span.now ≡ flags detector.now ps (j + 1) → Watches self.old detector.now ps j → Watches self.new detector.now ps (j + 1) }
    {
        let last = round.saturating_sub(1);
        let before = self.is_past(detector, last);
        let present = self.present(last);
        let taken = take_pulses(detector, self.on, span);
        self.on = taken.on;
        self.last_pulse = round_if(taken.some, round, self.last_pulse);
        self.last_on = round_if(taken.had_on, round, self.last_on);
        self.last_inactive = last.saturating_sub(present);
        let now = self.is_past(detector, round);
        let past = round_if(before, last, self.last_past_delay);
        self.last_past_delay = round_if(now, round, past);
        self.most = self.most.saturating_add(taken.edges);
        let slot = (round % 60) as usize;
        self.rounds[slot] = round;
        self.edges[slot] = taken.edges;
    }

    /// Counts its latest edges where they may be too many.
    fn count(&mut self, detector: &Detector, round: u32)
        ensures { (ps : List PulseRow) → Watches self.old detector.now ps round → Watches self.new detector.now ps round }
    {
        let limit = u32::from(detector.erratic);
        if limit > 0 && self.most > limit {
            self.most = self.latest(round);
        }
    }

    /// One round more, with all pulses of that round.
    pub fn step(&mut self, detector: &Detector, round: u32, span: &[Pulse])
        requires few { length span.now ≤ 1000000 }
        ensures { (ps : List PulseRow) (j : ℕ) → round ≡ j + 1 → flags_of detector.now span.now ≡ flags detector.now ps (j + 1) → Watches self.old detector.now ps j → Watches self.new detector.now ps (j + 1) }
    {
        self.take(detector, round, span);
        self.count(detector, round);
    }

    /// Whether it has had too many edges in the latest sixty rounds.
    fn is_erratic(&self, detector: &Detector, round: u32) -> bool
        ensures { (ps : List PulseRow) → Watches self.now detector.now ps round → result ≡ is_erratic detector.now ps round }
    {
        let limit = u32::from(detector.erratic);
        limit > 0 && self.most > limit && self.latest(round) > limit
    }

    /// Whether the detector has failed in the round.
    pub fn failed(&self, detector: &Detector, round: u32) -> bool
        ensures { (ps : List PulseRow) → Watches self.now detector.now ps round → result ≡ failed detector.now ps round }
    {
        let quiet = round.saturating_sub(self.last_pulse);
        let present = self.present(round);
        let no_activity = detector.no_activity > 0 && quiet >= u32::from(detector.no_activity);
        let locked_on = detector.max_presence > 0 && present >= u32::from(detector.max_presence);
        no_activity || locked_on || self.is_erratic(detector, round)
    }

    /// Whether it was past its delay in the round, or no longer ago than its extension.
    fn lately_past(&self, detector: &Detector, round: u32) -> bool
        ensures { (ps : List PulseRow) → Watches self.now detector.now ps round → result ≡ lately_past detector.now ps detector.now.extend round }
    {
        let until = self
            .last_past_delay
            .saturating_add(u32::from(detector.extend));
        self.is_past(detector, round) || self.last_past_delay > 0 && round <= until
    }

    /// Whether the detector calls its phase in the round.
    pub fn calls(&self, detector: &Detector, round: u32) -> bool
        ensures { (ps : List PulseRow) → Watches self.now detector.now ps round → result ≡ calls detector.now ps round }
    {
        self.failed(detector, round) || self.lately_past(detector, round)
    }

    /// Its edges in the round.
    pub fn edges_now(&self, round: u32) -> u32
        ensures { (d : Detector) (ps : List PulseRow) → Watches self.now d ps round → result ≡ edges_in d ps round }
    {
        self.edges_at(round)
    }

    /// Whether it may call otherwise in the next round, though no limit is reached then.
    fn is_restless(&self, detector: &Detector, round: u32) -> bool
        ensures quiet { result ≡ false → nat_lt 0 detector.now.erratic ≡ true → self.now.most ≤ detector.now.erratic }
        ensures left { result ≡ false → self.now.on ≡ false → self.now.last_on ≢ round }
    {
        let limit = u32::from(detector.erratic);
        limit > 0 && self.most > limit || !self.on && self.last_on == round
    }

    /// The round before which it calls as in this one, where no pulse comes.
    pub fn due(&self, detector: &Detector, round: u32) -> u32
        ensures { (ps : List PulseRow) (i : ℕ) → Watches self.now detector.now ps round → Watches self.now detector.now ps i → round ≤ i → i < result
            → calls detector.now ps i ≡ calls detector.now ps round }
    {
        if self.is_restless(detector, round) {
            return round.saturating_add(1);
        }
        let silent = earlier(
            u32::MAX,
            self.last_pulse,
            u32::from(detector.no_activity),
            round,
        );
        let extend = u32::from(detector.extend) + 1;
        if !self.on {
            return earlier(silent, self.last_past_delay, extend, round);
        }
        let locked = earlier(
            silent,
            self.last_inactive,
            u32::from(detector.max_presence),
            round,
        );
        if self.is_past(detector, round) {
            return locked;
        }
        let extended = earlier(locked, self.last_past_delay, extend, round);
        earlier(
            extended,
            self.last_inactive,
            u32::from(detector.delay) + 1,
            round,
        )
    }
}
