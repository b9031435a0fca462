//! What it means that a trace is safe: the street that its F lines show, at every tick of 0.1 s. The definitions don't
//! use histories or the rules of a tick; the laws say that they hold for every history, and for every history whose
//! tables keep the rules. What may be shown together, in which order and how long follows NEMA TS 2 and the FHWA Signal
//! Timing Manual.
#![tactic(auto)]

mod safe_streets;

ghost use Rattle.std.specs.Prelude.{◌≡◌, ℕ, Bool, List};
ghost use Rattle.sig_types.specs.declared.frame.Frame.{Frame};
ghost use Rattle.sig_tables.specs.Standard.{pair};
ghost use Rattle.sig_tables.specs.Past.{History};
ghost use Rattle.sig_tables.specs.Decide.{frames, past_at, since_opening};
ghost use Rattle.trace_text.specs.declared.lines.Line.{Line};
ghost use Rattle.tick_laws.specs.Lawful.{Lawful};
ghost use Rattle.safety_laws.specs.Safe.{Safe, intersection_of, told};
ghost use Rattle.safety_laws.specs.Written.{TellsChanges, written, tables_of};
ghost use Rattle.safety_laws.specs.Whole.{Whole, downloads};
ghost use Rattle.safety_laws.specs.Rows.{IsRefused, IsRefusedWith, conflict, two_walks, disabled_lit, no_yellow, short_yellow, long_yellow};
ghost use Rattle.safety_laws.specs.Rows.{no_clear, short_clear, long_clear, short_green, short_walk, long_walk, no_flash, short_flash, long_flash, walk_on_red};
ghost use Rattle.safety_laws.specs.Rows.{slow_yellow, newest_yellow, preempted, short_green_on_entry, short_yellow_on_entry, short_walk_on_entry, short_flash_on_entry, cut_flash};

pub use safe_streets::admitted_streets_are_safe;

/// The street of a trace is safe in every mode: for all inputs, commands, preempts, priority requests and downloads of
/// a cabinet's history; for every rule that chooses the frames that have a line, provided that a frame without a line
/// shows what the one before it showed; and with any other lines in between. The opening tables and those of each
/// download must be sound, and each download must keep the layout of the tables before it, unless it arrives while
/// nothing is on.
pub fn trace_is_safe()
    ensures { (h : History) (has_line : Frame → Frame → Bool) (cab : ℕ) (lines : List Line)
        → Lawful h.tables (since_opening h)
        → TellsChanges has_line
        → told cab lines ≡ written has_line (frames h)
        → Safe (intersection_of cab (tables_of h) lines) }
{}

/// The versions of a trace are whole where nothing was downloaded, and no line says that something was.
pub fn undisturbed_is_whole()
    ensures { (h : History) (has_line : Frame → Frame → Bool) (cab : ℕ) (lines : List Line)
        → (past_at h).version ≡ 0
        → told cab lines ≡ written has_line (frames h)
        → downloads cab lines ≡ 0
        → Whole cab lines }
{}

/// What the definition refuses on the table max8: a conflict of colours or of walks; a disabled phase that is lit; a
/// yellow or a red clearance left out, cut short or lengthened; a green cut short; a walk or a pedestrian clearance cut
/// short or lengthened; a pedestrian clearance left out; and walk together with red. A yellow keeps the time of its
/// first tick, even if new tables arrive while it lasts.
pub fn unsafe_traces_are_refused()
    ensures conflict { IsRefused conflict }
    ensures two_walks { IsRefused two_walks }
    ensures disabled_lit { IsRefused disabled_lit }
    ensures no_yellow { IsRefused no_yellow }
    ensures short_yellow { IsRefused short_yellow }
    ensures long_yellow { IsRefused long_yellow }
    ensures no_clear { IsRefused no_clear }
    ensures short_clear { IsRefused short_clear }
    ensures long_clear { IsRefused long_clear }
    ensures short_green { IsRefused short_green }
    ensures short_walk { IsRefused short_walk }
    ensures long_walk { IsRefused long_walk }
    ensures no_flash { IsRefused no_flash }
    ensures short_flash { IsRefused short_flash }
    ensures long_flash { IsRefused long_flash }
    ensures walk_on_red { IsRefused walk_on_red }
    ensures newest_yellow { IsRefusedWith slow_yellow newest_yellow }
{}

/// A preempt may cut short the green, the walk and the pedestrian clearance of a phase that makes way for it, but only
/// to the preempt's own times. Those of a phase that it serves must last in full, and so must every yellow.
pub fn preempts_cut_short()
    ensures allowed { Safe (intersection_of 1 (preempted (pair 4 8)) cut_flash) }
    ensures green { IsRefusedWith (preempted (pair 4 8)) short_green_on_entry }
    ensures yellow { IsRefusedWith (preempted (pair 4 8)) short_yellow_on_entry }
    ensures walk { IsRefusedWith (preempted (pair 4 8)) short_walk_on_entry }
    ensures flash { IsRefusedWith (preempted (pair 4 8)) short_flash_on_entry }
    ensures served { IsRefusedWith (preempted (pair 2 6)) cut_flash }
{}
