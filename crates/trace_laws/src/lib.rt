//! Which texts are traces, and which line of another text is the first at fault; the laws of both. A trace is the text
//! of a run, for any journals; all runs of a scenario are one tree (`Script`), on which the laws are built.
//!
//! What may be seen of a cabinet in a trace: its frames, its tables by version and its ticks; that only octets go over
//! the link, that each line of a run is one that a trace may have, and that a text has one list of lines. It has no
//! code.
//! The module `bands` has the law that bands are green.
#![tactic(auto)]

mod bands;
mod frame_octets;
mod one_trace;
mod proper_lines;
mod seen;

ghost use Rattle.std.specs.Prelude.{ℕ, List, [], ◌∷◌, ◌++◌, codes};
ghost use Rattle.run_definition.specs.Smallest.{smallest};
ghost use Rattle.trace_laws.specs.Traces.{IsTrace};
ghost use Rattle.trace_laws.specs.Faults.{FaultOf};
ghost use Rattle.trace_laws.specs.Laws.{DueIsDetermined, RoundsAreFronts, NothingFollows, JournalsAreTold, FaultsAreDetermined, TracesHaveNoFault, NothingElse, TellsOfRun, FrontsAreProper, LinesTell};
ghost use Rattle.trace_laws.specs.Small.{ended, dark, small_lines, IsBehindFirst};

pub use bands::bands_are_green;
pub use frame_octets::{messages_are_of_octets, only_octets_go_over_the_line, replies_are_frames};
pub use one_trace::{lines_differ, run_texts_are_safe, texts_have_one_list};
pub use proper_lines::lines_are_proper;
use run_definition::journals_are_told;
use scenario_checked::scenarios_run;
use scenario_read::bytes_have_one_answer;
pub use seen::Seen;

/// After the first lines of a run one line may follow, except the journal of a cabinet, of which the line's kind and
/// cabinet are determined.
pub fn due_is_determined()
    ensures { DueIsDetermined }
{}

/// Whatever journals the first rounds have, where they take what came in any order, a run begins with them.
pub fn rounds_are_fronts()
    ensures { RoundsAreFronts }
{}

/// After a whole run nothing follows.
pub fn nothing_follows()
    ensures { NothingFollows }
{}

/// The text of a line gives the line, and where it ends.
pub fn lines_tell()
    ensures { LinesTell }
{}

/// The lines with which a run begins are lines that a trace may have.
pub fn fronts_are_proper()
    ensures { FrontsAreProper }
{
    lines_are_proper();
}

/// The text of a trace gives its scenario and its journals: no other scenario and no other journals write the same.
pub fn traces_tell_journals()
    ensures { JournalsAreTold }
{
    scenarios_run();
    bytes_have_one_answer();
    lines_are_proper();
    texts_have_one_list();
    journals_are_told();
}

/// A text has one first fault at most: one line and one rule.
pub fn faults_are_determined()
    ensures { FaultsAreDetermined }
{
    scenarios_run();
    bytes_have_one_answer();
    lines_are_proper();
}

/// A trace that is not too long has no fault.
pub fn traces_have_no_fault()
    ensures { TracesHaveNoFault }
{
    scenarios_run();
    bytes_have_one_answer();
    lines_are_proper();
}

/// There is nothing between: every text is a trace or has a first fault.
pub fn nothing_is_between()
    ensures { NothingElse }
{}

/// A trace is the text of a run of a scenario that can be run; and by its lines the street of each cabinet is safe at every tick of
/// 0.1 s, its versions are whole, and coordination is met (FHWA Signal Timing Manual: offset, transition).
pub fn traces_are_safe()
    ensures { (text : List ℕ) → IsTrace text → TellsOfRun text }
{
    scenarios_run();
    bytes_have_one_answer();
    lines_are_proper();
    run_texts_are_safe();
}

/// What the smallest run writes after its first line, and the faults of texts that depart from it: the number of lines
/// before the fault, and the rule.
pub fn small_faults()
    ensures whole { IsBehindFirst smallest (ended (small_lines ++ codes "Z 1" ∷ [])) }
    ensures nothing { FaultOf smallest [] 0 10 }
    ensures colour { FaultOf smallest (ended (codes "F 1 0 GRRRRRRRRRRRRRRR DDDDDDDDDDDDDDDD S 0 0 0" ∷ [])) 0 6 }
    ensures kind { FaultOf smallest (ended (codes "R 1" ∷ [])) 0 4 }
    ensures round { FaultOf smallest (ended (dark ∷ codes "R 2" ∷ [])) 1 4 }
    ensures too_many { FaultOf smallest (ended (dark ∷ codes "R 1" ∷ codes "J 1 4*2" ∷ [])) 2 5 }
    ensures no_such_pass { FaultOf smallest (ended (dark ∷ codes "R 1" ∷ codes "J 1 5*1" ∷ [])) 2 5 }
    ensures other_cabinet { FaultOf smallest (ended (dark ∷ codes "R 1" ∷ codes "J 2 4*1" ∷ [])) 2 4 }
    ensures cut_off { FaultOf smallest (ended small_lines ++ codes "Z 1") 3 2 }
    ensures short { FaultOf smallest (ended small_lines) 3 10 }
    ensures other_end { FaultOf smallest (ended (small_lines ++ codes "Z 2" ∷ [])) 3 4 }
    ensures behind { FaultOf smallest (ended (small_lines ++ codes "Z 1" ∷ codes "Z 1" ∷ [])) 4 11 }
{}
