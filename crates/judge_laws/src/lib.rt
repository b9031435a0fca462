//! The breaches of a safe street that a log of indications shows, one after another, each at the line that shows it.
//! The law: a log shows no breach exactly if the street of each cabinet is safe. The definitions use the frame lines
//! and the tables, and no rule of a tick, so they apply to the indications of any controller.
#![tactic(auto)]

ghost use Rattle.std.specs.Prelude.{◌≡◌, ◌↔◌, ◌≤◌, ℕ, Bool, false, true, List, [], ◌∷◌, ◌++◌, reverse};
ghost use Rattle.sig_types.specs.declared.frame.Frame.{Frame};
ghost use Rattle.sig_tables.specs.declared.tables.Tables.{Tables};
ghost use Rattle.sig_tables.specs.Standard.{max8};
ghost use Rattle.sig_tables.specs.Past.{History};
ghost use Rattle.sig_tables.specs.Decide.{frames};
ghost use Rattle.trace_text.specs.declared.lines.Line.{Line};
ghost use Rattle.safety_laws.specs.Safe.{Indications, Safe, intersection_of, told};
ghost use Rattle.safety_laws.specs.Written.{written};
ghost use Rattle.safety_laws.specs.Rows.{conflict, short_yellow, long_walk, walk_on_red, no_yellow, newest_yellow, slow_yellow};
ghost use Rattle.judge_laws.specs.Breaches.{exact, within, joined_within, breaches, line_breaches, Rising, breach_at};
ghost use Rattle.judge_laws.specs.Sublist.{IsSublist};

/// How a log is judged.
#[derive(Clone, Copy, PartialEq, Eq)]
pub struct Terms {
    /// By how many ticks of 0.1 s the length of an interval may differ from the required one.
    pub tolerance: u8,
    /// Whether the log begins in the middle. Otherwise each cabinet is dark before its first line, from tick 0 on.
    pub joined: bool,
}

/// What a line breaks.
#[derive(Clone, Copy, PartialEq, Eq)]
pub enum Clause {
    /// Two incompatible phases, or their pedestrian signals, are on together; or a disabled phase is lit.
    Apart,
    /// A colour or a pedestrian signal is followed by one that doesn't come next.
    Order,
    /// A yellow or a red clearance was shorter or longer than its time.
    Clearance,
    /// A green was too short.
    ShortGreen,
    /// A walk or a pedestrian clearance was too short or too long.
    Pedestrian,
    /// A walk or a pedestrian clearance is shown without green.
    OnGreen,
}

/// One breach: the cabinet, the tick of the line that shows it, what is broken, the phase, and the other phase of two that are
/// on together, else 0.
#[derive(Clone, Copy, PartialEq, Eq)]
pub struct Breach {
    pub cab: u32,
    pub tick: u32,
    pub clause: Clause,
    pub phase: u8,
    pub other: u8,
}

/// A colour or a pedestrian signal whose time has an upper limit.
#[derive(Clone, Copy, PartialEq, Eq)]
pub enum Light {
    Yellow,
    Clear,
    Walk,
    Flash,
}

/// An interval that has run over its time and has not ended when the log ends: it began at tick `since`.
#[derive(Clone, Copy, PartialEq, Eq)]
pub struct Overrun {
    pub cab: u32,
    pub phase: u8,
    pub light: Light,
    pub since: u32,
}

/// A log shows no breach, to the tick, exactly if the street of each cabinet is safe. The ticks of each cabinet's lines must rise.
pub fn no_breaches_is_safe()
    ensures { (tables : ℕ → ℕ → Tables) (lines : List Line) → ((cab : ℕ) → Rising cab lines)
        → breaches exact tables lines ≡ [] ↔ ((cab : ℕ) → Safe (intersection_of cab (tables cab) lines)) }
{}

/// A further line adds the breaches that it shows, and changes none of those before it.
pub fn a_line_at_a_time()
    ensures { (terms : Terms) (tables : ℕ → ℕ → Tables) (lines : List Line) (line : Line)
        → breaches terms tables (lines ++ line ∷ []) ≡ breaches terms tables lines ++ line_breaches terms tables (reverse lines) line }
{}

/// A greater tolerance leaves breaches out, and adds none.
pub fn tolerance_leaves_out()
    ensures { (tables : ℕ → ℕ → Tables) (lines : List Line) (less more : ℕ) (joined : Bool) → less ≤ more
        → IsSublist (breaches (within more joined) tables lines) (breaches (within less joined) tables lines) }
{}

/// A log that begins in the middle of another, judged as such, shows only breaches that the whole log shows too.
pub fn joining_adds_none()
    ensures { (tables : ℕ → ℕ → Tables) (before lines : List Line) (tolerance : ℕ)
        → IsSublist (breaches (joined_within tolerance) tables lines) (breaches (within tolerance false) tables (before ++ lines)) }
{}

/// The ticks rise in the lines of a history.
pub fn ticks_of_a_history_rise()
    ensures { (h : History) (has_line : Frame → Frame → Bool) (cab : ℕ) (lines : List Line)
        → told cab lines ≡ written has_line (frames h) → Rising cab lines }
{}

/// What single faults show on the table max8.
pub fn faulty_rows()
    ensures short { breaches exact (λ cab version. max8) short_yellow ≡ breach_at 1 39 Clause.Clearance 2 0 ∷ [] }
    ensures together { breaches exact (λ cab version. max8) conflict ≡ breach_at 1 0 Clause.Apart 1 2 ∷ [] }
    ensures left_out { breaches exact (λ cab version. max8) no_yellow ≡ breach_at 1 100 Clause.Order 2 0 ∷ [] }
    ensures long { breaches exact (λ cab version. max8) long_walk ≡ breach_at 1 71 Clause.Pedestrian 2 0 ∷ [] }
    ensures on_red { breaches exact (λ cab version. max8) walk_on_red ≡ breach_at 1 0 Clause.OnGreen 2 0 ∷ [] }
    ensures newest { breaches exact (λ cab. slow_yellow) newest_yellow ≡ breach_at 1 50 Clause.Clearance 2 0 ∷ [] }
    ensures tolerated { breaches (within 1 false) (λ cab version. max8) short_yellow ≡ [] }
    ensures conflicts_stay { breaches (within 20 true) (λ cab version. max8) conflict ≡ breach_at 1 0 Clause.Apart 1 2 ∷ [] }
    ensures joined { breaches (joined_within 0) (λ cab version. max8) short_yellow ≡ [] }
{}

/// A safe street rests on the tables of those versions only that are shown.
pub fn only_shown_versions_count()
    ensures { (tables other : ℕ → Tables) (shown : ℕ → Indications) → ((tick : ℕ) → tables (shown tick).version ≡ other (shown tick).version)
        → Safe (record { tables = tables; shown = shown }) → Safe (record { tables = other; shown = shown }) }
{}
