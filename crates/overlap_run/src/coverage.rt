//! What holds of an overlap on the street: it is never green, yellow or clearing unless one of its parents is, so it
//! meets no traffic that its parents don't meet (NEMA TS 2, overlaps). This rests only on the safety of the street:
//! clearances last their time. It has no code.
ghost use Rattle.std.specs.Prelude.{ℕ, ◌≡◌, ◌+◌, Bool, List, Ok, length};
ghost use Rattle.sig_types.specs.declared.frame.Frame.{Frame};
ghost use Rattle.sig_tables.specs.declared.tables.Tables.{Tables};
ghost use Rattle.sig_tables.specs.Past.{History};
ghost use Rattle.sig_tables.specs.Decide.{frames, past_at};
ghost use Rattle.trace_text.specs.declared.lines.Line.{Line};
ghost use Rattle.safety_laws.specs.Safe.{Intersection, intersection_of, told};
ghost use Rattle.safety_laws.specs.Whole.{downloads};
ghost use Rattle.safety_laws.specs.Written.{written};
ghost use Rattle.safety_laws.specs.CabinetTold.{told_in, history_told};
ghost use Rattle.overlap_run.specs.declared.overlap.Timing.{Timing};
ghost use Rattle.overlap_run.specs.Overlap.{timed};
ghost use Rattle.overlap_run.specs.Text.{overlap_text};
ghost use Rattle.overlap_run.specs.Parents.{green_at, AreFrames};
ghost use Rattle.overlap_run.specs.Rules.{verdict};
ghost use Rattle.overlap_run.specs.Trace.{frames_told, frames_written, IsToldOf, text_of};
ghost use Rattle.overlap_run.specs.Street.{CanOverlap, IsCovered, IsApart};

/// At every tick at which an overlap isn't Red, some parent shows Green, Yellow or Clear; and so no phase that is incompatible with every
/// parent is on then. The street is safe, and trail, yellow change and red clearance of the overlap are together no longer than the least
/// yellow change of each parent and its least red clearance.
pub fn overlaps_are_covered()
    ensures covered { (t : Timing) (parents : List ℕ) (s : Intersection) (last : ℕ) → CanOverlap t parents s last
        → (tick : ℕ) → IsCovered t parents s tick }
    ensures apart { (t : Timing) (parents : List ℕ) (s : Intersection) (last : ℕ) → CanOverlap t parents s last
        → (tick : ℕ) → IsApart t parents s tick }
{}

/// An overlap that breaks no rule at a cabinet of a trace is over in time: so it is covered by its parents there at every tick.
pub fn unbroken_overlaps_are_covered()
    ensures can { (cab : ℕ) (tables : ℕ → Tables) (lines : List Line) (by_version : List Tables) (parents : List ℕ) (trail yellow red : ℕ)
        → IsToldOf cab tables lines by_version → verdict by_version parents trail yellow red ≡ Ok tt
        → CanOverlap (timed trail yellow red) parents (intersection_of cab tables lines) (downloads cab lines) }
    ensures covered { (cab : ℕ) (tables : ℕ → Tables) (lines : List Line) (by_version : List Tables) (parents : List ℕ) (trail yellow red : ℕ)
        → IsToldOf cab tables lines by_version → verdict by_version parents trail yellow red ≡ Ok tt
        → (tick : ℕ) → IsCovered (timed trail yellow red) parents (intersection_of cab tables lines) tick }
    ensures apart { (cab : ℕ) (tables : ℕ → Tables) (lines : List Line) (by_version : List Tables) (parents : List ℕ) (trail yellow red : ℕ)
        → IsToldOf cab tables lines by_version → verdict by_version parents trail yellow red ≡ Ok tt
        → (tick : ℕ) → IsApart (timed trail yellow red) parents (intersection_of cab tables lines) tick }
{}

/// The text of an overlap by the frames of a cabinet is that by its frame lines, where these give the frames.
pub fn frames_give_the_text()
    ensures { (t : Timing) (parents : List ℕ) (cab ticks : ℕ) (tables : ℕ → Tables) (lines : List Line) (frames : List (ℕ × Frame))
        → told cab lines ≡ frames_told frames → AreFrames frames ticks
        → overlap_text t (green_at parents frames) ticks ≡ text_of t parents cab tables lines ticks }
{}

/// The frames of a history that have a line are such frames: their ticks rise from 0 to its last tick at most, and its
/// lines give them. And these name as many accepted downloads as the history has versions, in addition to the opening
/// one.
pub fn histories_give_frames()
    ensures frames { (h : History) (has_line : Frame → Frame → Bool) (ticks : ℕ) → ticks + 1 ≡ length (frames h)
        → AreFrames (frames_written has_line (frames h)) ticks }
    ensures told { (h : History) (has_line : Frame → Frame → Bool) → frames_told (frames_written has_line (frames h)) ≡ written has_line (frames h) }
    ensures versions { (h : History) (has_line : Frame → Frame → Bool) (cab : ℕ) (lines : List Line) → told_in cab lines ≡ history_told has_line h
        → downloads cab lines ≡ (past_at h).version }
{}
