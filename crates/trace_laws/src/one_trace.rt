//! A text has one list of lines: so what the lines of a run show, its text shows, to every reader. It has no code.
ghost use Rattle.std.specs.Prelude.{◌≡◌, ℕ, List};
ghost use Rattle.trace_text.specs.declared.lines.Line.{Line};
ghost use Rattle.trace_text.specs.IsLine.{IsLine};
ghost use Rattle.trace_text.specs.Line.{line_text};
ghost use Rattle.safety_laws.specs.TraceText.{AreLines, lines_text};
ghost use Rattle.scenario_data.specs.Content.{ScenarioContent};
ghost use Rattle.runnable.specs.Runnable.{Runnable};
ghost use Rattle.run_definition.specs.Lines.{run_text};
ghost use Rattle.run_definition.specs.Orders.{AreJournals};
ghost use Rattle.run_definition.specs.Safe.{AllKept};
ghost use Rattle.trace_laws.specs.Text.{TellsAllKept};

use crate::lines_are_proper;
use run_definition::any_order_is_safe;

/// Two lines of a trace with one text are the same line.
pub fn lines_differ()
    ensures { (a b : Line) → IsLine a → IsLine b → line_text a ≡ line_text b → a ≡ b }
{}

/// A text is that of one list of lines at most.
pub fn texts_have_one_list()
    ensures { (a b : List Line) → AreLines a → AreLines b → lines_text a ≡ lines_text b → a ≡ b }
{}

/// For every order in which the items of a run arrive at its cabinets, its text has lines, and no others; and by them
/// the street of each cabinet is safe at every tick of 0.1 s with the tables of each version, its versions are whole,
/// and coordination is met. So whatever proper lines have the text of a run, by them all this holds.
pub fn run_texts_are_safe()
    ensures tells { (s : ScenarioContent) → Runnable s → (journals : List (List (List ℕ))) → AreJournals s journals
        → TellsAllKept s journals (run_text s journals) }
    ensures any { (s : ScenarioContent) → Runnable s → (journals : List (List (List ℕ))) → AreJournals s journals → (lines : List Line)
        → AreLines lines → lines_text lines ≡ run_text s journals → AllKept s journals lines }
{
    lines_are_proper();
    any_order_is_safe();
}
