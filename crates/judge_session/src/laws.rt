//! Laws of the definitions of a log and its report.

ghost use Rattle.std.specs.Prelude.{◌≡◌, ◌↔◌, ◌≤◌, ℕ, List, [], length};
ghost use Rattle.trace_text.specs.declared.lines.Line.{Line};
ghost use Rattle.scenario_data.specs.Content.{ScenarioContent};
ghost use Rattle.judge_laws.specs.Breaches.{exact};
ghost use Rattle.judge_session.specs.Log.{IsLog, IsRead, IsJudged};
ghost use Rattle.judge_session.specs.Report.{log_found};
ghost use Rattle.judge_session.specs.Streets.{AllKnown, AllSafe, SafeSoFar};

/// A log from tick 0 on whose tables are all known shows no breach, to the tick, exactly if the street of each cabinet is safe.
pub fn a_log_without_breaches_is_safe()
    ensures { (s : ScenarioContent) (bytes : List (List ℕ)) (before : List Line) → IsLog s bytes before → AllKnown s before
        → log_found s exact before ≡ [] ↔ AllSafe s before }
{}

/// A log from tick 0 on shows no breach, to the tick, exactly if the street of each cabinet is safe as far as its tables are known.
pub fn a_log_without_breaches_is_safe_so_far()
    ensures { (s : ScenarioContent) (bytes : List (List ℕ)) (before : List Line) → IsLog s bytes before
        → log_found s exact before ≡ [] ↔ SafeSoFar s before }
{}

/// A line that is judged has at most 4,096 bytes, so no line that is ignored for its length is judged.
pub fn judged_lines_are_short()
    ensures { (bytes : List ℕ) (line : Line) → IsRead bytes line → IsJudged line → length bytes ≤ 4096 }
{}
