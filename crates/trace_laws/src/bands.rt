//! Progression bands are green: along the street of a trace a vehicle inside a band meets green at each cabinet that is
//! on offset as it passes (FHWA Signal Timing Manual: bandwidth). The function has no body: its contract is the law.

ghost use Rattle.std.specs.Prelude.{ℕ, List};
ghost use Rattle.trace_laws.specs.Laws.{TellsOfRun};
ghost use Rattle.trace_laws.specs.BandDriving.{OpenIsGreen, BandIsGreen};

use crate::lines_are_proper;

/// A vehicle that passes the first cabinet at an open time, and so one inside a band, meets green at every cabinet of the section by the lines
/// of the trace: at each one whose frame at that tick is one of the pattern under its opening tables, with the counter on its target and the
/// clock, round the cycle, where the vehicle's time is. (That coordination brings counters onto their targets is kept by each trace.)
pub fn bands_are_green()
    ensures times { (text : List ℕ) (run : TellsOfRun text) → OpenIsGreen text run }
    ensures bands { (text : List ℕ) (run : TellsOfRun text) → BandIsGreen text run }
{
    lines_are_proper();
}
