//! Master and link as one: the master, and the link with its faults. A round begins with what the master notes and with
//! the streams that reach each cabinet, and ends with what the cabinets have answered.
#![tactic(auto)]

mod master_rounds;
mod rounds;

ghost use Rattle.std.specs.Prelude.{ℕ, List};
ghost use Rattle.scenario_data.specs.declared.scenario.Fault.{Fault};
ghost use Rattle.scenario_data.specs.Content.{ScenarioContent, CabinetContent};
ghost use Rattle.sig_types.specs.Replies.{Reply};
ghost use Rattle.link_sim.specs.declared.Line.{Line};
ghost use Rattle.master_rounds.specs.Bounds.{CarriesFew, RoundIsShort};

pub use master_rounds::{Begun, MasterRounds};
pub use rounds::rounds_close;

/// A law: what the link carries in a round is bounded by what is sent in it and by the faults, however many rounds were
/// before; so a cabinet can take the streams of a round, whatever it has answered.
pub fn rounds_are_short()
    ensures carried { (faults : List Fault) (line : Line) (texts : List (List ℕ)) (before : List (List (List ℕ))) → CarriesFew faults line texts before }
    ensures streams { (s : ScenarioContent) (cab : ℕ) (c : CabinetContent) (answered : List (List Reply)) → RoundIsShort s cab c answered }
{}
