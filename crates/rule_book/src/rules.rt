//! The consistency rules of a cabinet's tables, by what each asks. A rule has a number only where the program prints one.

ghost use Rattle.std.specs.Prelude.{◌≡◌};
ghost use Rattle.rule_book.specs.Named.{
  number_of,
  phase_number,
  sequence_number,
  pattern_number,
  all_rules,
};

/// A rule on each enabled phase (NTCIP 1202 section 2.2.2, the phase table).
#[derive(Clone, Copy, PartialEq, Eq)]
pub enum PhaseRule {
    /// Rule 1: the phase is in ring 1 or 2 (NTCIP 1202 section 2.2.2.22).
    Ring,
    /// Rule 2: its concurrency list has only numbers of other phases (NTCIP 1202 section 2.2.2.23).
    OtherPhases,
    /// Rule 3: each enabled phase in its concurrency list has it in its own list (NTCIP 1202 section 2.2.2.23).
    NamedBack,
    /// Rule 4: each enabled phase in its concurrency list is of the other ring (NTCIP 1202 section 2.2.2.23).
    OtherRing,
    /// Rule 5: its concurrency list has an enabled phase (NTCIP 1202 section 2.2.2.23).
    ConcurrentPhase,
    /// Rule 6: phases of its ring that share a concurrent phase with it have the same list (NTCIP 1202 section 2.2.2.23).
    SharedList,
    /// Rule 10: its yellow change is at least 3 seconds (NTCIP 1202 section 2.2.2.8).
    YellowChange,
    /// Rule 11: its red revert is at most the minimum service and clearance of each other phase (NTCIP 1202 section
    /// 2.2.2.10).
    RedRevert,
    /// Rule 12: where it is green at start-up, each other phase that is so is concurrent with it (NTCIP 1202 section 2.2.2.20).
    StartUp,
    /// Rule 22: it has a pedestrian clearance only where it has a walk (NTCIP 1202 sections 2.2.2.2 and 2.2.2.3).
    Walk,
}

/// A rule on each sequence in use (NTCIP 1202 section 2.8.3, the sequence table).
#[derive(Clone, Copy, PartialEq, Eq)]
pub enum SequenceRule {
    /// Rule 8: each ring's order has each enabled phase of the ring once, and nothing else (NTCIP 1202 section 2.8.3.3).
    EachPhaseOnce,
    /// Rule 9: the phases of a side of the barrier are together, and the sides have one order in both rings (NTCIP 1202
    /// section 2.8.3.3).
    SideOrder,
}

/// A rule on each defined pattern (NTCIP 1202 sections 2.5.7 and 2.5.9, the pattern and split tables).
#[derive(Clone, Copy, PartialEq, Eq)]
pub enum PatternRule {
    /// Rule 14: it has a split, and a sequence with phases (NTCIP 1202 sections 2.5.7.4 and 2.5.7.5).
    SplitAndSequence,
    /// Rule 15: its offset is below its cycle (NTCIP 1202 section 2.5.7.3).
    Offset,
    /// Rule 16: it coordinates one phase of each ring; the two are concurrent, and neither is omitted
    /// (NTCIP 1202 section 2.5.9.5).
    CoordinatedPair,
    /// Rule 17: the splits of each ring fill the cycle, and those of each side are as long in both rings
    /// (NTCIP 1202 section 2.5.9.3).
    SplitSum,
    /// Rule 18: each phase that is neither coordinated nor omitted has its minimum service before its force-off (NTCIP
    /// 1202 section 2.5.9.3).
    LeastService,
    /// Rule 19: the coordinated phases have room for what the correction of the offset may take from one cycle
    /// (NTCIP 1202 section 2.5.2).
    CorrectionWindow,
}

/// A consistency rule. Its number is what the program prints, and what its answers hold.
#[derive(Clone, Copy, PartialEq, Eq)]
pub enum Rule {
    /// A rule on each enabled phase: the row is the phase.
    OnPhase(PhaseRule),
    /// A rule on each sequence in use: the row is the sequence.
    OnSequence(SequenceRule),
    /// A rule on each defined pattern: the row is the pattern.
    OnPattern(PatternRule),
    /// Rule 7: the barrier has at least two sides (NTCIP 1202 section 2.2.2.23). The row is 0.
    TwoSides,
    /// Rule 13: the correction mode is dwell, shortway or add only, and its limits are at least one tick
    /// (NTCIP 1202 section 2.5.2). The row is 0.
    Correction,
    /// Rule 20: the phases of each set of a preempt may be on together (NTCIP 1202 section 2.7.2). The row is the preempt.
    PreemptPhases,
    /// Rule 21: a phase is enabled as in the tables in force, with the same ring and list, unless the cabinet flashes
    /// (NTCIP 1202 sections 2.2.2.21 to 2.2.2.23). The row is the phase.
    LayoutInForce,
}

impl PhaseRule {
    /// The number of the rule.
    fn number(self) -> u8
        ensures { result ≡ phase_number self }
    {
        match self {
            PhaseRule::Ring => 1,
            PhaseRule::OtherPhases => 2,
            PhaseRule::NamedBack => 3,
            PhaseRule::OtherRing => 4,
            PhaseRule::ConcurrentPhase => 5,
            PhaseRule::SharedList => 6,
            PhaseRule::YellowChange => 10,
            PhaseRule::RedRevert => 11,
            PhaseRule::StartUp => 12,
            PhaseRule::Walk => 22,
        }
    }
}

impl SequenceRule {
    /// The number of the rule.
    fn number(self) -> u8
        ensures { result ≡ sequence_number self }
    {
        match self {
            SequenceRule::EachPhaseOnce => 8,
            SequenceRule::SideOrder => 9,
        }
    }
}

impl PatternRule {
    /// The number of the rule.
    fn number(self) -> u8
        ensures { result ≡ pattern_number self }
    {
        match self {
            PatternRule::SplitAndSequence => 14,
            PatternRule::Offset => 15,
            PatternRule::CoordinatedPair => 16,
            PatternRule::SplitSum => 17,
            PatternRule::LeastService => 18,
            PatternRule::CorrectionWindow => 19,
        }
    }
}

impl Rule {
    /// The number of the rule, 1 to 22, as the program prints it.
    pub fn number(self) -> u8
        ensures { result ≡ number_of self }
    {
        match self {
            Rule::OnPhase(rule) => rule.number(),
            Rule::OnSequence(rule) => rule.number(),
            Rule::OnPattern(rule) => rule.number(),
            Rule::TwoSides => 7,
            Rule::Correction => 13,
            Rule::PreemptPhases => 20,
            Rule::LayoutInForce => 21,
        }
    }

    /// All rules, by rising number.
    pub fn all() -> [Rule; 22]
        ensures { result ≡ all_rules }
    {
        [
            Rule::OnPhase(PhaseRule::Ring),
            Rule::OnPhase(PhaseRule::OtherPhases),
            Rule::OnPhase(PhaseRule::NamedBack),
            Rule::OnPhase(PhaseRule::OtherRing),
            Rule::OnPhase(PhaseRule::ConcurrentPhase),
            Rule::OnPhase(PhaseRule::SharedList),
            Rule::TwoSides,
            Rule::OnSequence(SequenceRule::EachPhaseOnce),
            Rule::OnSequence(SequenceRule::SideOrder),
            Rule::OnPhase(PhaseRule::YellowChange),
            Rule::OnPhase(PhaseRule::RedRevert),
            Rule::OnPhase(PhaseRule::StartUp),
            Rule::Correction,
            Rule::OnPattern(PatternRule::SplitAndSequence),
            Rule::OnPattern(PatternRule::Offset),
            Rule::OnPattern(PatternRule::CoordinatedPair),
            Rule::OnPattern(PatternRule::SplitSum),
            Rule::OnPattern(PatternRule::LeastService),
            Rule::OnPattern(PatternRule::CorrectionWindow),
            Rule::PreemptPhases,
            Rule::LayoutInForce,
            Rule::OnPhase(PhaseRule::Walk),
        ]
    }
}
