//! The calls of a cabinet: what detectors and push buttons have asked for and no frame has served yet (FHWA Signal
//! Timing Manual, detection and recall; NEMA TS 2, locking and non-lock memory); and where walk begins. Calls are kept
//! as sets of phases, so that an input and a tick examine sixteen phases in one step.
#![tactic(auto)]

ghost use Rattle.std.specs.Prelude.{◌≡◌, ◌<◌, ◌≤◌, ◌&&◌, ◌||◌, ◌==◌, not, nat_le, ℕ, Bool, true, Option};

use pattern_plan::SplitOptions;
use sig_tables::Layout;
use sig_types::{Colour, Field, Frame, Ped, PhaseSet};

mod crossing;
mod served;

pub use crossing::{Crosswalks, Greens, walks};
pub use served::signalling;

/// The locked calls of vehicles and of pedestrians, the detectors that are on, and those that were turned on since the
/// last tick. Phases are 1 to 16, the disabled ones among them.
#[derive(Drop)]
pub struct Calls {
    vehicle: PhaseSet,
    pedestrian: PhaseSet,
    detectors: PhaseSet,
    turned_on: PhaseSet,
}

impl Calls {
    ghost use Rattle.sig_types.specs.declared.frame.Colour.TheVariants.{Red};
    ghost use Rattle.sig_types.specs.Phases.{is_phase, is_in};
    ghost use Rattle.sig_types.specs.PhaseSet.{phases_of};
    ghost use Rattle.sig_types.specs.Colour.{same_colour, colour_of};
    ghost use Rattle.sig_tables.specs.declared.tables.Tables.{Tables};
    ghost use Rattle.sig_tables.specs.Past.{Past, Moment, Input};
    ghost use Rattle.sig_tables.specs.Calls.{is_active, is_called, is_green};
    ghost use Rattle.sig_tables.specs.Decide.{opened, with_event, with_moment};
    ghost use Rattle.sig_tables.specs.Layout.{LaidOut, Has};
    ghost use Rattle.sig_tables.specs.Seen.{frame_seen, vehicle_seen, pedestrian_seen, detectors_seen, demand_with, quiet_with};
    ghost use Rattle.pattern_plan.specs.Options.{AreActivePattern};
    ghost use Rattle.call_store.specs.CallsStand.{CallsStand, NamesPhase, is_active_with, is_walking};

    /// No call, and no detector on.
    pub fn new() -> Calls
        ensures stands { (t : Tables) → CallsStand result (opened t) }
    {
        Calls {
            vehicle: PhaseSet::empty(),
            pedestrian: PhaseSet::empty(),
            detectors: PhaseSet::empty(),
            turned_on: PhaseSet::empty(),
        }
    }

    /// An input from the street, with the layout of the tables in force and the frame that is shown. A detector or a
    /// button is that of a phase 1 to 16; a preempt input calls no phase.
    pub fn input(&mut self, field: Field, layout: &Layout, shown: &Frame)
        requires phase { NamesPhase field }
        ensures stands { (past : Past) → CallsStand self.old past → LaidOut layout.now past.tables
            → shown.now ≡ frame_seen past → CallsStand self.new (with_event (Input field) past) }
    {
        match field {
            Field::Veh { phase, on } => {
                let lone = PhaseSet::empty().with(phase);
                let locks = locks_vehicle(phase, on, layout, shown);
                self.detectors = self.detectors.minus(lone).with_if(phase, on);
                self.turned_on = self.turned_on.with_if(phase, on);
                self.vehicle = self.vehicle.with_if(phase, locks);
            }
            Field::Ped { phase } => {
                let locks = locks_pedestrian(phase, layout, shown);
                self.pedestrian = self.pedestrian.with_if(phase, locks);
            }
            Field::Preempt { .. } => {}
        }
    }

    /// The phases that are active by themselves: enabled, and the detector is on or was turned on since the last tick, or they
    /// have maximum recall.
    fn active_alone(&self, layout: &Layout) -> PhaseSet
        ensures active { (past : Past) → CallsStand self.now past → LaidOut layout.now past.tables
            → Has result (is_active past.tables past.heard (detectors_seen past)) }
    {
        let detected = self.detectors.union(self.turned_on);
        layout.enabled.meet(detected.union(layout.maximum_recall))
    }

    /// The phases that are active at a tick: by themselves, or since the split of the pattern that binds holds them to their
    /// maximum.
    pub fn active(&self, layout: &Layout, options: Option<&SplitOptions>) -> PhaseSet
        ensures active { (pattern : Option ℕ) (past : Past) → CallsStand self.now past → LaidOut layout.now past.tables
            → AreActivePattern options.entry pattern past.tables → Has result (is_active_with pattern past) }
        ensures quiet { (pattern : Option ℕ) (past : Past) → CallsStand self.now past → LaidOut layout.now past.tables
            → AreActivePattern options.entry pattern past.tables → (p : ℕ) → is_phase p ≡ true
            → is_in (quiet_with pattern past) p ≡ (is_green (frame_seen past) p && not (has result p)) }
    {
        let active = self.active_alone(layout);
        match options {
            None => active,
            Some(options) => active.union(options.maximum),
        }
    }

    /// The phases that are called by a vehicle, a detector or a recall of their own, or, where they have a walk, by a
    /// pedestrian.
    fn called(&self, layout: &Layout) -> PhaseSet
        ensures called { (past : Past) → CallsStand self.now past → LaidOut layout.now past.tables
            → Has result (is_called past.tables (vehicle_seen past) (pedestrian_seen past) (detectors_seen past)) }
    {
        let by_vehicles = self.vehicle.union(self.detectors);
        let recalled = by_vehicles
            .union(layout.minimum_recall)
            .union(layout.maximum_recall);
        recalled.union(called_on_foot(layout, self.pedestrian))
    }

    /// The phases that have demand at a tick: enabled, `red` in the last frame, and called; where a pattern binds, also those
    /// that it calls, and none that it omits.
    pub fn demand(&self, layout: &Layout, red: PhaseSet, options: Option<&SplitOptions>) -> PhaseSet
        ensures demand { (pattern : Option ℕ) (past : Past) → CallsStand self.now past → LaidOut layout.now past.tables
            → AreActivePattern options.entry pattern past.tables
            → Has red (λ p. same_colour (colour_of (frame_seen past) p) Red) → phases_of result ≡ demand_with pattern past }
    {
        let waiting = layout.enabled.meet(red);
        let called = self.called(layout);
        match options {
            None => waiting.meet(called),
            Some(options) => {
                let asking = called.union(called_by(layout, options));
                served_by(options, waiting).meet(asking)
            }
        }
    }

    /// The phases with a locked vehicle call.
    pub fn vehicle(&self) -> PhaseSet
        ensures vehicle { (past : Past) → CallsStand self.now past → phases_of result ≡ vehicle_seen past }
        ensures has { (past : Past) → CallsStand self.now past → Has result (is_in (vehicle_seen past)) }
    {
        self.vehicle
    }

    /// The phases with a locked pedestrian call.
    pub fn pedestrian(&self) -> PhaseSet
        ensures pedestrian { (past : Past) → CallsStand self.now past → phases_of result ≡ pedestrian_seen past }
        ensures has { (past : Past) → CallsStand self.now past → Has result (is_in (pedestrian_seen past)) }
    {
        self.pedestrian
    }

    /// The phases whose detector is on.
    pub fn detectors(&self) -> PhaseSet
        ensures detectors { (past : Past) → CallsStand self.now past → phases_of result ≡ detectors_seen past }
        ensures has { (past : Past) → CallsStand self.now past → Has result (is_in (detectors_seen past)) }
    {
        self.detectors
    }

    /// The frame of a tick: it ends the vehicle calls of the phases that it shows green and the pedestrian calls of those
    /// on which it shows walk.
    pub fn step(&mut self, green: PhaseSet, walking: PhaseSet)
        ensures stands { (past : Past) (m : Moment) → CallsStand self.old past → Has green (is_green m.frame)
            → Has walking (is_walking m.frame) → m.vehicle ≡ vehicle_seen past → m.pedestrian ≡ pedestrian_seen past → m.detectors ≡ detectors_seen past
            → CallsStand self.new (with_moment past m) }
    {
        self.vehicle = self.vehicle.minus(green);
        self.pedestrian = self.pedestrian.minus(walking);
        self.turned_on = PhaseSet::empty();
    }
}

ghost use Rattle.sig_types.specs.declared.frame.Field.TheVariants.{Veh, Ped as Button};
ghost use Rattle.sig_types.specs.declared.frame.Ped.TheVariants.{Walk};
ghost use Rattle.sig_types.specs.PhaseSet.{has};
ghost use Rattle.sig_types.specs.Colour.{same_signal, signal_of};
ghost use Rattle.sig_tables.specs.declared.tables.Tables.{Tables};
ghost use Rattle.sig_tables.specs.Calls.{is_green, locks_vehicle, locks_pedestrian};
ghost use Rattle.sig_tables.specs.Tables.{row, has_pedestrian_recall};
ghost use Rattle.sig_tables.specs.Slots.{is_coordinated, is_omitted};
ghost use Rattle.sig_tables.specs.Splits.{split_minimum, split_maximum, split_pedestrian};
ghost use Rattle.sig_tables.specs.SplitCalls.{is_called_by};
ghost use Rattle.sig_tables.specs.Layout.{Has, LaidOut};
ghost use Rattle.pattern_plan.specs.Options.{SplitSays};

/// The phases that have a walk and are called for it, by these calls of pedestrians or by recall.
fn called_on_foot(layout: &Layout, calls: PhaseSet) -> PhaseSet
    ensures { (t : Tables) (asked : ℕ → Bool) → LaidOut layout.now t → Has calls asked
        → Has result (λ p. nat_le 1 (row t p).walk && (asked p || has_pedestrian_recall t p)) }
{
    layout.walks.meet(calls.union(layout.pedestrian_recall))
}

/// The phases that the pattern of these options holds onto the offset, or whose split calls them for their minimum green or
/// to their maximum.
fn recalled_by(options: &SplitOptions) -> PhaseSet
    ensures { (t : Tables) (n : ℕ) → SplitSays options.now t n
        → Has result (λ p. is_coordinated t n p || split_minimum t n p || split_maximum t n p) }
{
    options
        .coordinated
        .union(options.minimum)
        .union(options.maximum)
}

/// The phases that have a walk and are called for it by the split.
fn walks_by(layout: &Layout, options: &SplitOptions) -> PhaseSet
    ensures { (t : Tables) (n : ℕ) → LaidOut layout.now t → SplitSays options.now t n
        → Has result (λ p. nat_le 1 (row t p).walk && split_pedestrian t n p) }
{
    layout.walks.meet(options.pedestrian)
}

/// The phases that the pattern of these options calls.
fn called_by(layout: &Layout, options: &SplitOptions) -> PhaseSet
    ensures { (t : Tables) (n : ℕ) → LaidOut layout.now t → SplitSays options.now t n → Has result (is_called_by t n) }
{
    recalled_by(options).union(walks_by(layout, options))
}

/// Of these phases those that the pattern of these options serves.
fn served_by(options: &SplitOptions, phases: PhaseSet) -> PhaseSet
    ensures { (t : Tables) (n : ℕ) → SplitSays options.now t n → Has result (λ p. has phases p && not (is_omitted t n p)) }
{
    phases.minus(options.omitted)
}

/// Whether a detector's input locks a vehicle call of its phase, 1 to 16: it turns on, the phase is not green, and it
/// keeps the call of a vehicle that leaves.
fn locks_vehicle(phase: u8, on: bool, layout: &Layout, shown: &Frame) -> bool
    requires above { 0 < phase }
    requires within { phase ≤ 16 }
    ensures { (t : Tables) → LaidOut layout.now t
        → result ≡ (not (is_green shown.now phase) && locks_vehicle t (Veh phase on) phase) }
{
    if layout.non_lock.has(phase) {
        false
    } else if on {
        shown.veh[phase as usize - 1] != Colour::Green
    } else {
        false
    }
}

/// Whether a push button locks a pedestrian call of its phase, 1 to 16: the phase has a walk, and does not show it.
fn locks_pedestrian(phase: u8, layout: &Layout, shown: &Frame) -> bool
    requires above { 0 < phase }
    requires within { phase ≤ 16 }
    ensures { (t : Tables) → LaidOut layout.now t
        → result ≡ (not (same_signal (signal_of shown.now phase) Walk) && locks_pedestrian t (Button phase) phase) }
{
    if layout.walks.has(phase) {
        shown.ped[phase as usize - 1] != Ped::Walk
    } else {
        false
    }
}
