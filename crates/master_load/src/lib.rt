//! The downloads that the master sends to a cabinet: begin, parts of 24 cells, verify, finish (after NTCIP 1201), each again in
//! every round until it is answered. Nothing here takes memory.
#![tactic(auto)]

mod download;
mod loader;

ghost use Rattle.std.specs.Prelude.{◌≤◌, ℕ, List, length};
ghost use Rattle.scenario_data.specs.Content.{LoadContent};
ghost use Rattle.master_load.specs.declared.download.LoadFrame.{LoadFrame};
ghost use Rattle.master_load.specs.Downloads.{AreLoads, frame_text};

pub use download::{LoadFrame, Step};
pub use loader::{Loader, Outcome};

/// A law: each frame of a download fits into the 1,472 octets of the link.
pub fn frames_fit()
    ensures { (community : List ℕ) (loads : List LoadContent) (frame : LoadFrame) → length community ≤ 32 → AreLoads loads → length (frame_text community loads frame) ≤ 1472 }
{}
