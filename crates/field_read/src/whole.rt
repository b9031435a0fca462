//! The whole of a field file, from its parts.

ghost use Rattle.std.specs.Prelude.{◌≡◌, ◌&&◌, true, nat_le, IfSome, IsTrue};
ghost use Rattle.std.specs.List.{list_all};
ghost use Rattle.serde_json.specs.Data.{Members, object};
ghost use Rattle.field_read.specs.Parts.{PartsStand};
ghost use Rattle.field_read.specs.Right.{SaysNames};

use crate::Field;
use crate::parts::Parts;
use detector_bank::{Detector, Pulse};
use scenario_file::{ScenarioText, Source};

/// A field file, and the parts of its scenario's text.
#[derive(Drop)]
pub struct Listed<'a> {
    pub field: Field,
    pub text: ScenarioText<'a>,
}

/// Whether each detector is of one of that many cabinets.
fn bank_within(bank: &Vec<Detector>, cabinets: usize) -> bool
    ensures { result ≡ list_all (λ d. nat_le d.cabinet cabinets) bank.now.items }
{
    bank.iter().all(|d| d.cabinet as usize <= cabinets)
}

/// Whether each pulse is of one of this number of rounds and cabinets.
fn pulses_within(pulses: &Vec<Pulse>, rounds: u32, cabinets: usize) -> bool
    ensures { result ≡ list_all (λ p. nat_le p.round rounds && nat_le p.cabinet cabinets) pulses.now.items }
{
    pulses
        .iter()
        .all(|p| p.round <= rounds && p.cabinet as usize <= cabinets)
}

/// Whether all detectors and pulses are of rounds and cabinets that there are.
fn lie_within(bank: &Vec<Detector>, pulses: &Vec<Pulse>, rounds: u32, cabinets: usize) -> bool
    ensures bank { IsTrue result → list_all (λ d. nat_le d.cabinet cabinets) bank.now.items ≡ true }
    ensures pulses { IsTrue result → list_all (λ p. nat_le p.round rounds && nat_le p.cabinet cabinets) pulses.now.items ≡ true }
{
    bank_within(bank, cabinets) && pulses_within(pulses, rounds, cabinets)
}

/// The whole of these parts, where there is a scenario, and it has the rounds and cabinets that detectors and pulses name.
pub(crate) fn whole_of<'a>(parts: Parts<'a>) -> Option<Listed<'a>>
    ensures { IfSome result (λ listed. (ms : Members) → PartsStand parts.entry ms → SaysNames listed (object ms)) }
{
    let Parts {
        scenario,
        bank,
        pulses,
        respond,
    } = parts;
    let Some(source) = scenario else {
        return None;
    };
    let Source { scenario, text } = source;
    let cabinets = scenario.cabinets.len();
    if !lie_within(&bank, &pulses, scenario.rounds, cabinets) {
        return None;
    }
    let field = Field {
        scenario,
        bank,
        pulses,
        respond,
    };
    Some(Listed { field, text })
}
