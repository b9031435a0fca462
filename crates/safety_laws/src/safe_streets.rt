//! Safe streets in every mode: if every table passed the rules, then what the lines of a cabinet show is safe and its
//! versions are whole, for all commands, calls and downloads. The function has no body: its contract is the law. What
//! may be shown together, in which order and how long follows NEMA TS 2 and the FHWA Signal Timing Manual.
ghost use Rattle.std.specs.Prelude.{ℕ, Bool, List, ◌≡◌};
ghost use Rattle.sig_types.specs.declared.frame.Frame.{Frame};
ghost use Rattle.sig_tables.specs.Past.{History};
ghost use Rattle.sig_tables.specs.Decide.{since_opening};
ghost use Rattle.trace_text.specs.declared.lines.Line.{Line};
ghost use Rattle.rule_facts.specs.Admitted.{Admitted};
ghost use Rattle.safety_laws.specs.Safe.{Safe, intersection_of};
ghost use Rattle.safety_laws.specs.Whole.{Whole};
ghost use Rattle.safety_laws.specs.Written.{TellsChanges, tables_of};
ghost use Rattle.safety_laws.specs.CabinetTold.{told_in, history_told};

/// If the opening tables are consistent, and each download broke no rule with respect to the tables that it replaced (a
/// cabinet that flashes may take tables of another layout), then what the lines of a cabinet show is safe at every
/// tick, in every mode, by the tables of each version, and its versions are whole. This holds for all inputs, commands,
/// clocks, preempts and priority requests; for every rule that chooses the frames that have a line, provided that a
/// frame without a line shows what the one before it showed; and with any lines of other cabinets or other kinds in
/// between.
pub fn admitted_streets_are_safe()
    ensures safe { (h : History) (has_line : Frame → Frame → Bool) (cab : ℕ) (lines : List Line)
        → Admitted h.tables (since_opening h)
        → TellsChanges has_line
        → told_in cab lines ≡ history_told has_line h
        → Safe (intersection_of cab (tables_of h) lines) }
    ensures whole { (h : History) (has_line : Frame → Frame → Bool) (cab : ℕ) (lines : List Line)
        → told_in cab lines ≡ history_told has_line h
        → Whole cab lines }
{}
