//! Walks and pedestrian clearances that last in full, or are cut short for a preempt.

ghost use Rattle.std.specs.Prelude.{◌≡◌};
ghost use Rattle.look_back.specs.Cuts.{lesser_of, is_walk_over, is_clearance_over, after_walk};

use sig_types::Ped;

/// The ticks to which walk and pedestrian clearance are cut short.
#[derive(Clone, Copy)]
pub struct Cut {
    pub walk: u32,
    pub clear: u32,
}

/// Whether a walk of `time` ticks is over after `frames` frames; one that is cut short has been reached or passed.
pub fn is_walk_over(cut: Option<Cut>, time: u32, frames: u32) -> bool
    ensures { result ≡ is_walk_over (lesser_of cut) time frames }
{
    match cut {
        None => frames == time,
        Some(cut) => frames >= time.min(cut.walk).max(1),
    }
}

/// Whether a pedestrian clearance of `time` ticks is over after `frames` frames.
pub fn is_clearance_over(cut: Option<Cut>, time: u32, frames: u32) -> bool
    ensures { result ≡ is_clearance_over (lesser_of cut) time frames }
{
    match cut {
        None => frames == time,
        Some(cut) => frames >= time.min(cut.clear),
    }
}

/// What follows walk if the pedestrian clearance has `time` ticks.
pub fn after_walk(cut: Option<Cut>, time: u32) -> Ped
    ensures { result ≡ after_walk (lesser_of cut) time }
{
    let left = match cut {
        None => time,
        Some(cut) => time.min(cut.clear),
    };
    if left == 0 { Ped::Dont } else { Ped::Flash }
}
