//! Progression bands of a section: the widest span of the cycle in which a vehicle meets green at each cabinet, both
//! ways along the street (FHWA Signal Timing Manual: bandwidth); the question as a JSON object (RFC 8259), and the two
//! lines of the answer. Bands are computed from the windows of the cabinets, each an arc of the cycle, without trying
//! each time of the cycle.
#![tactic(auto)]

mod arcs;
mod asked;
mod band;
mod by_parts;
mod file_laws;
mod first;
mod legs;
mod misfit;
mod numbers;
mod parts;
mod signals;
mod told;

ghost use Rattle.std.specs.Prelude.{◌<◌, ◌↔◌, ℕ, IsTrue};
ghost use Rattle.sig_tables.specs.declared.tables.Tables.{Tables};
ghost use Rattle.sig_tables.specs.Slots.{cycle_time};
ghost use Rattle.band_report.specs.Bands.{in_window, InWindow};

pub use band::{Band, greatest};
pub use file_laws::{bytes_have_one_answer, limits_have_names};
pub use misfit::{Misfit, misfit_of};
pub use told::report;

/// A law: a window is the set of times that lie fewer ticks than its force point after the offset less the shift, round
/// the cycle.
pub fn windows_are_times()
    ensures { (t : Tables) (n r time : ℕ) → 0 < cycle_time t n → IsTrue (in_window t n r time) ↔ InWindow t n r time }
{}
