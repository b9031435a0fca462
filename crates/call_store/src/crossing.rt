//! Where walk begins at a tick: with the green of a phase, in free operation also on a phase that rests in green while no
//! incompatible phase is wanted, and in coordination on a coordinated phase that rests in green at a local zero (NEMA TS 2,
//! pedestrian timing; FHWA Signal Timing Manual, pedestrian recall; that a walk begins at local zero is this project's own).

ghost use Rattle.std.specs.Prelude.{◌≡◌, ◌&&◌, ◌||◌, ℕ, Bool, true, List};
ghost use Rattle.sig_types.specs.declared.frame.Colour.{Colour};
ghost use Rattle.sig_types.specs.declared.frame.Colour.TheVariants.{Green, Red};
ghost use Rattle.sig_types.specs.declared.frame.Ped.TheVariants.{Dont};
ghost use Rattle.sig_types.specs.declared.frame.Frame.{Frame};
ghost use Rattle.sig_types.specs.PhaseSet.{has};
ghost use Rattle.sig_types.specs.Phases.{is_phase, is_in};
ghost use Rattle.sig_types.specs.Colour.{colour_in, colour_of, signal_of};
ghost use Rattle.sig_tables.specs.declared.tables.Tables.{Tables};
ghost use Rattle.sig_tables.specs.Tables.{has_pedestrian_recall};
ghost use Rattle.sig_tables.specs.Splits.{split_pedestrian};
ghost use Rattle.sig_tables.specs.Walking.{Crossing, has_walk, walks_at_green, walk_begins};
ghost use Rattle.sig_tables.specs.Layout.{LaidOut, Has};
ghost use Rattle.pattern_plan.specs.Options.{SplitSays};
ghost use Rattle.call_store.specs.Walks.{greens_of, may_walk, ShowsCrossing, SaysInCoord};

use pattern_plan::SplitOptions;
use sig_tables::Layout;
use sig_types::{Mode, PhaseSet};

/// Whose greens begin at a tick.
#[derive(Clone, Copy, PartialEq, Eq)]
pub enum Greens {
    /// None: the rings rest.
    Rest,
    /// Those of start-up, some of which begin with walk.
    StartUp,
    /// Those that the rings begin, by themselves or on the way to a goal.
    Rings,
}

/// What a tick sees of the phases on which walk may begin.
#[derive(Clone, Copy, PartialEq, Eq)]
pub struct Crosswalks {
    /// The mode of the frame; where it picks up a pattern, that of coordination.
    pub mode: Mode,
    /// Whether the frame is a local zero.
    pub is_zero: bool,
    pub greens: Greens,
    /// Red in the last frame, and green in this one.
    pub begins: PhaseSet,
    /// Green in the last frame and in this one, with steady don't walk in the last one.
    pub rests: PhaseSet,
    /// With a locked pedestrian call.
    pub called: PhaseSet,
    /// Those to which an incompatible phase has demand.
    pub opposed: PhaseSet,
}

/// The phases on which walk is to begin with their green by their own options, those without a walk among them.
fn asked_at_green(layout: &Layout, crosswalks: &Crosswalks) -> PhaseSet
    ensures { (crossing : Crossing) → LaidOut layout.now crossing.tables → Has crosswalks.now.called (is_in crossing.pedestrian)
        → crosswalks.now.greens ≡ greens_of crossing.ring_turn
        → Has result (walks_at_green crossing.ring_turn crossing.tables crossing.pedestrian) }
{
    let asked = crosswalks.called.union(layout.pedestrian_recall);
    match crosswalks.greens {
        Greens::Rest => PhaseSet::empty(),
        Greens::StartUp => asked.union(layout.starts_with_walk),
        Greens::Rings => asked,
    }
}

/// Whether walk may begin in a frame of this mode: in free operation, in coordination and on the way to it.
fn may_walk(mode: Mode) -> bool
    ensures { result ≡ may_walk mode }
{
    match mode {
        Mode::Free => true,
        Mode::Seek(_) => true,
        Mode::Coord(_) => true,
        _ => false,
    }
}

/// The phases with a walk on which it begins with their green: in free operation, in coordination and on the way to it.
fn walks_with_green(
    layout: &Layout,
    options: Option<&SplitOptions>,
    crosswalks: &Crosswalks,
) -> PhaseSet
    ensures { (crossing : Crossing) → LaidOut layout.now crossing.tables → Has crosswalks.now.called (is_in crossing.pedestrian)
        → crosswalks.now.greens ≡ greens_of crossing.ring_turn → SaysInCoord options.entry crosswalks.now.mode crossing.tables
        → Has result (λ p. walk_begins crossing crosswalks.now.mode p Red Green Dont) }
{
    if !may_walk(crosswalks.mode) {
        return PhaseSet::empty();
    }
    let asked = asked_at_green(layout, crosswalks);
    match crosswalks.mode {
        Mode::Coord(_) => match options {
            None => PhaseSet::empty(),
            Some(options) => layout.walks.meet(asked.union(options.pedestrian)),
        },
        _ => layout.walks.meet(asked),
    }
}

/// The coordinated phases that have a walk.
fn held_with_walk(layout: &Layout, options: &SplitOptions) -> PhaseSet
    ensures { (t : Tables) (held : ℕ → Bool) → LaidOut layout.now t → Has options.now.coordinated held
        → Has result (λ p. has_walk t p && held p) }
{
    layout.walks.meet(options.coordinated)
}

/// The phases that are asked to walk, by these calls of pedestrians, by their own recall or by that of the split.
fn asked_to_walk(layout: &Layout, options: &SplitOptions, called: PhaseSet) -> PhaseSet
    ensures { (t : Tables) (n : ℕ) (asked : ℕ → Bool) → LaidOut layout.now t → SplitSays options.now t n → Has called asked
        → Has result (λ p. asked p || (has_pedestrian_recall t p || split_pedestrian t n p)) }
{
    called.union(layout.pedestrian_recall.union(options.pedestrian))
}

/// These phases where the frame is a local zero, and else none.
fn at_zero(is_zero: bool, phases: PhaseSet) -> PhaseSet
    ensures { Has result (λ p. is_zero && has phases p) }
{
    if is_zero { phases } else { PhaseSet::empty() }
}

/// The phases with a walk on which it may begin while they rest in green: in free operation where no incompatible phase is
/// wanted, and in coordination at a local zero.
fn walks_at_rest(
    layout: &Layout,
    options: Option<&SplitOptions>,
    crosswalks: &Crosswalks,
) -> PhaseSet
    ensures { (crossing : Crossing) → LaidOut layout.now crossing.tables → Has crosswalks.now.called (is_in crossing.pedestrian)
        → crosswalks.now.is_zero ≡ crossing.is_zero → SaysInCoord options.entry crosswalks.now.mode crossing.tables
        → (p : ℕ) → is_phase p ≡ true → has crosswalks.now.opposed p ≡ is_in crossing.opposed p
        → has result p ≡ walk_begins crossing crosswalks.now.mode p Green Green Dont }
{
    match crosswalks.mode {
        Mode::Free => layout
            .walks
            .meet(crosswalks.called)
            .minus(crosswalks.opposed),
        Mode::Coord(_) => match options {
            None => PhaseSet::empty(),
            Some(options) => {
                let asked = asked_to_walk(layout, options, crosswalks.called);
                let held = held_with_walk(layout, options).meet(asked);
                at_zero(crosswalks.is_zero, held)
            }
        },
        _ => PhaseSet::empty(),
    }
}

/// The phases on which walk begins at this tick, in any mode; never one whose walk is 0. In coordination the options are those
/// of the split of its pattern.
pub fn walks(layout: &Layout, options: Option<&SplitOptions>, crosswalks: &Crosswalks) -> PhaseSet
    ensures walks { (crossing : Crossing) (f : Frame) (veh : List Colour) → LaidOut layout.now crossing.tables
        → SaysInCoord options.entry crosswalks.now.mode crossing.tables → ShowsCrossing crosswalks.now crossing f veh
        → Has result (λ p. walk_begins crossing crosswalks.now.mode p (colour_of f p) (colour_in veh p) (signal_of f p)) }
{
    let beginning = crosswalks
        .begins
        .meet(walks_with_green(layout, options, crosswalks));
    let resting = crosswalks
        .rests
        .meet(walks_at_rest(layout, options, crosswalks));
    beginning.union(resting)
}
