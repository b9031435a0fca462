//! What the context says by itself of the next ticks: whether the mode, the tables and the calls leave the last frame
//! as it is, and for how many ticks more the pattern that is kept does. Both engines skip ticks by it.

ghost use Rattle.std.specs.Prelude.{◌≡◌, ◌<◌, ◌≤◌, ◌+◌, ◌-◌, ◌&&◌, ◌==◌, ◌⊎◌, ◌∷◌, [], ℕ, Bool, false, true, not, IsTrue, get_or, List, None};

use crate::active_pattern::is_defined;
use crate::context::TickContext;
use crate::modes::is_coord;
use pattern_plan::SplitOptions;
use sig_types::{Mode, PhaseSet};

/// The command that asks for flash.
const FLASH_COMMAND: u8 = 255;

/// Whether these are on in the rings.
fn are_on(on: [u8; 2], first: u8, second: u8) -> bool
    ensures is { result ≡ (get_or on 0 0 == first && get_or on 1 0 == second) }
    ensures on { IsTrue result → on ≡ first ∷ second ∷ [] }
{
    on[0] == first && on[1] == second
}

impl TickContext {
    ghost use Rattle.sig_types.specs.Phases.{is_phase, is_in, all_phases, some};
    ghost use Rattle.sig_types.specs.declared.frame.Colour.{Colour};
    ghost use Rattle.sig_types.specs.declared.frame.Colour.TheVariants.{Green, Red};
    ghost use Rattle.sig_types.specs.Colour.{same_colour, colour_in, colour_of, on_in};
    ghost use Rattle.sig_tables.specs.Modes.{bound};
    ghost use Rattle.sig_tables.specs.Slots.{cycle_time, window};
    ghost use Rattle.sig_tables.specs.Clock.{target_at};
    ghost use Rattle.sig_tables.specs.Walking.{has_walk};
    ghost use Rattle.sig_tables.specs.Ticking.{on_of};
    ghost use Rattle.sig_tables.specs.Past.{Past};
    ghost use Rattle.sig_tables.specs.Layout.{Has};
    ghost use Rattle.sig_tables.specs.Seen.{frame_seen, moment_seen, pedestrian_seen};
    ghost use Rattle.pattern_plan.specs.Options.{AreActivePattern};
    ghost use Rattle.tick_context.specs.Binds.{ActivePatternIs, IsBound};
    ghost use Rattle.tick_context.specs.Context.{ContextStands};
    ghost use Rattle.tick_context.specs.Shows.{is_signalling};
    ghost use Rattle.tick_context.specs.ComingTicks.{is_bound_in, is_left_free, ticks_to_force, ticks_unforced, ticks_in_cycle};
    ghost use Rattle.tick_context.specs.Lasting.{IsFresh, ComesBefore, StaysFree, StaysUnforced, opposed_with};

    /// Whether the cabinet runs free, or is coordinated in the pattern that is kept.
    pub fn is_bound(&self) -> bool
        ensures is { result ≡ is_bound_in self.now.frame.mode self.now.active_pattern.pattern }
        ensures bound { (past : Past) → ContextStands self.now past → IsTrue result → IsBound self.now.active_pattern past.tables self.now.frame.mode }
    {
        match self.frame.mode {
            Mode::Free => true,
            Mode::Coord(pattern) => {
                if pattern == 0 {
                    false
                } else {
                    pattern == self.active_pattern.pattern
                }
            }
            _ => false,
        }
    }

    /// What the split asks of the pattern in which the last frame is coordinated; none if it isn't coordinated.
    pub fn options_kept(&self) -> Option<&SplitOptions>
        ensures options { (past : Past) → IsBound self.now.active_pattern past.tables self.now.frame.mode
            → AreActivePattern result (bound self.now.frame.mode) past.tables }
    {
        if is_coord(self.frame.mode) {
            Some(&self.active_pattern.options)
        } else {
            None
        }
    }

    /// Whether the last frame, with these in red, has the version of the tables in force, and what is on by their
    /// rings.
    pub fn is_laid_out(&self, red: PhaseSet) -> bool
        ensures is { (past : Past) (veh : List Colour) → ContextStands self.now past → Has red (λ p. same_colour (colour_in veh p) Red)
            → result ≡ (self.now.frame.version == self.now.version
            && (on_in self.now.frame 1 == on_of past.tables veh 1 && on_in self.now.frame 2 == on_of past.tables veh 2)) }
        ensures version { (past : Past) → ContextStands self.now past → IsTrue result → (frame_seen past).version ≡ past.version }
        ensures on { (past : Past) (veh : List Colour) → ContextStands self.now past → Has red (λ p. same_colour (colour_in veh p) Red) → IsTrue result
            → (frame_seen past).on ≡ on_of past.tables veh 1 ∷ on_of past.tables veh 2 ∷ [] }
    {
        if self.frame.version != self.version {
            false
        } else {
            are_on(
                self.frame.on,
                self.on_in_ring(red, 1),
                self.on_in_ring(red, 2),
            )
        }
    }

    /// Whether none of these phases has a walk and is called to it.
    pub fn is_uncalled(&self, phases: PhaseSet) -> bool
        ensures is { (past : Past) (among : ℕ → Bool) → ContextStands self.now past → Has phases among
            → result ≡ not (some (λ p. (has_walk past.tables p && is_in (pedestrian_seen past) p) && among p) all_phases) }
        ensures walks { (past : Past) (among : ℕ → Bool) (p : ℕ) → ContextStands self.now past → Has phases among → IsTrue result → is_phase p ≡ true
            → ((has_walk past.tables p && is_in (pedestrian_seen past) p) && among p) ≡ false }
    {
        let called = self.layout.walks.meet(self.calls.pedestrian());
        called.meet(phases).is_empty()
    }

    /// Whether the command is neither for flash nor for a pattern that is defined, and the last frame has no counter
    /// and no target, as one of free operation that continues.
    pub fn is_left_free(&self) -> bool
        ensures is { result ≡ is_left_free self.now }
        ensures free { (past : Past) → ContextStands self.now past → IsFresh past → IsTrue result
            → ((p : ℕ) → is_phase p ≡ true → ((has_walk past.tables p && is_in (pedestrian_seen past) p)
            && ((same_colour (colour_of (frame_seen past) p) Green && not (is_signalling (frame_seen past) p))
            && not (is_in (opposed_with None past) p))) ≡ false)
            → StaysFree past }
        ensures zero { IsTrue result → self.now.frame.counter ≡ 0 }
    {
        let command = self.unit_commands.command();
        if command == FLASH_COMMAND {
            false
        } else if is_defined(&self.tables, command) {
            false
        } else if self.frame.counter != 0 {
            false
        } else {
            self.frame.target == 0
        }
    }

    /// How many ticks more come before the force point of a phase, 1 to 16, in the pattern that is kept.
    pub fn force_left(&self, phase: u8) -> u32
        requires above { 0 < phase }
        requires within { phase ≤ 16 }
        ensures is { result ≡ ticks_to_force self.now phase }
        ensures left { (past : Past) (n k : ℕ) → ContextStands self.now past → ActivePatternIs self.now.active_pattern past.tables n → 0 < k → k ≤ result
            → ComesBefore n k past phase }
    {
        let force = self.active_pattern.plan.force[phase as usize - 1];
        force.saturating_sub(1).saturating_sub(self.frame.counter)
    }

    /// For how many ticks more no pattern forces a phase, 1 to 16, off.
    pub fn unforced_left(&self, phase: u8) -> u32
        requires above { 0 < phase }
        requires within { phase ≤ 16 }
        ensures is { result ≡ ticks_unforced self.now phase }
        ensures left { (past : Past) (k : ℕ) → ContextStands self.now past → IsBound self.now.active_pattern past.tables self.now.frame.mode → 0 < k → k ≤ result
            → StaysUnforced (bound self.now.frame.mode) k past phase }
    {
        if !is_coord(self.frame.mode) {
            u32::MAX
        } else if self.active_pattern.options.coordinated.has(phase) {
            u32::MAX
        } else {
            self.force_left(phase)
        }
    }

    /// For how many ticks more the counter of the pattern that is kept continues as time does, before the end of its
    /// cycle. While it is to be corrected this says none.
    pub fn counter_left(&self) -> u32
        ensures is { result ≡ ticks_in_cycle self.now }
        ensures cycle { (past : Past) (n k : ℕ) → ActivePatternIs self.now.active_pattern past.tables n → 0 < k → k ≤ result
            → self.now.frame.counter + k < cycle_time past.tables n }
        ensures even { (past : Past) (n : ℕ) → ContextStands self.now past → ActivePatternIs self.now.active_pattern past.tables n → IsFresh past → 0 < result
            → (window past.tables n ≤ self.now.frame.counter)
            ⊎ (target_at past.tables n (moment_seen past).clock ≡ self.now.frame.counter) }
        ensures room { 0 < result → self.now.frame.counter + result ≤ 4294967295 }
    {
        let counter = self.frame.counter;
        let plan = &self.active_pattern.plan;
        let left = (plan.cycle - 1).saturating_sub(counter);
        if plan.window <= counter {
            left
        } else if self.active_pattern.target(self.unit_commands.clock()) == counter {
            left
        } else {
            0
        }
    }
}
