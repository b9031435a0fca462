//! The changes of an overlap over the ticks of a cabinet, by the cabinet's frames that have a line: written line by line, as they come.

ghost use Rattle.std.specs.Prelude.{◌≡◌, ◌<◌, ◌≤◌, ◌+◌, ◌++◌, ℕ, IfOk, OnOk};
ghost use Rattle.trace_text.specs.Texts.{colour_letter};
ghost use Rattle.overlap_run.specs.declared.overlap.Timing.{Timing};
ghost use Rattle.overlap_run.specs.Overlap.{timed, overlap_at};
ghost use Rattle.overlap_run.specs.OverlapStands.{IsOpened};
ghost use Rattle.overlap_run.specs.Text.{change_line, line_where, end_line, changes_to, overlap_text};
ghost use Rattle.overlap_run.specs.Parents.{parents_of, shows_green, green_at, AreFrames, IsSeen};

use crate::overlap::Overlap;
use sig_types::{Colour, Frame, NoMemory, PhaseSet, showing};
use std::alloc::{AllocError, Global};
use trace_text::{number, word};

/// The letter of a colour.
fn letter(shown: Colour) -> u8
    ensures { result ≡ colour_letter shown }
{
    match shown {
        Colour::Green => b'G',
        Colour::Yellow => b'Y',
        Colour::Clear => b'C',
        Colour::Red => b'R',
    }
}

/// The line of a change.
#[tactic(auto, unfolding(crate::specs::Text::change_line))]
fn add_change(out: &mut Vec<u8>, tick: u32, shown: Colour) -> Result<(), AllocError>
    ensures { OnOk result (out.new.items ≡ out.old.items ++ change_line tick shown) }
{
    out.push(b'O')?;
    number(out, tick)?;
    word(out, &[letter(shown)])?;
    out.push(b'\n')?;
    Ok(())
}

/// The line of a tick, where something changes.
fn add_where(out: &mut Vec<u8>, before: Colour, tick: u32, shown: Colour) -> Result<(), AllocError>
    ensures { OnOk result (out.new.items ≡ out.old.items ++ line_where before tick shown) }
{
    if before == shown {
        return Ok(());
    }
    add_change(out, tick, shown)
}

/// The last line.
#[tactic(auto, unfolding(crate::specs::Text::end_line))]
fn add_end(out: &mut Vec<u8>, ticks: u32) -> Result<(), AllocError>
    ensures { OnOk result (out.new.items ≡ out.old.items ++ end_line ticks) }
{
    out.push(b'Z')?;
    number(out, ticks)?;
    out.push(b'\n')?;
    Ok(())
}

/// Whether one of the parents is Green.
fn is_green(parents: PhaseSet, veh: &[Colour; 16]) -> bool
    ensures { result ≡ shows_green (parents_of parents) veh.now }
{
    !parents.meet(showing(veh, Colour::Green)).is_empty()
}

/// Whether a parent is Green at the tick after that many, and how many of the frames are at or before it; where at the
/// tick before it the answers were these.
fn look_on(
    frames: &Vec<(u32, Frame)>,
    parents: PhaseSet,
    done: u32,
    before: (bool, usize),
) -> (bool, usize)
    requires few { done < 4294967295 }
    ensures { (end : ℕ) → done + 1 < end → IsSeen (parents_of parents) frames.now.items end done before.0 before.1
        → IsSeen (parents_of parents) frames.now.items end (done + 1) result.0 result.1 }
{
    let (_, next) = before;
    if next < frames.len() && frames[next].0 == done + 1 {
        (is_green(parents, &frames[next].1.veh), next + 1)
    } else {
        before
    }
}

/// The lines of all changes.
fn add_changes(
    out: &mut Vec<u8>,
    frames: &Vec<(u32, Frame)>,
    ticks: u32,
    parents: PhaseSet,
    start: Overlap,
) -> Result<(), AllocError>
    requires frames { AreFrames frames.now.items ticks }
    ensures { OnOk result ((t : Timing) → IsOpened start t
        → out.new.items ≡ out.old.items ++ changes_to (overlap_at t (green_at (parents_of parents) frames.now.items)) ticks) }
{
    let mut overlap = start;
    let mut seen = (is_green(parents, &frames[0].1.veh), 1);
    add_change(out, 0, overlap.shown())?;
    for done in 0..ticks {
        seen = look_on(frames, parents, done, seen);
        let before = overlap.shown();
        let shown = overlap.step(seen.0);
        add_where(out, before, done + 1, shown)?;
    }
    Ok(())
}

/// The text of an overlap over N ticks of a cabinet: what it shows at tick 0, each later change with its tick, and the
/// number of ticks. The frames are those of the cabinet that have a line, with the numbers of their ticks; times are in
/// ticks of 0.1 s.
pub fn text(
    alloc: Global,
    frames: &Vec<(u32, Frame)>,
    ticks: u32,
    parents: PhaseSet,
    trail: u32,
    yellow: u32,
    red: u32,
) -> Result<Vec<u8>, NoMemory>
    requires frames { AreFrames frames.now.items ticks }
    requires trail { trail ≤ 255 }
    requires some { 0 < yellow }
    requires yellow { yellow ≤ 255 }
    requires red { red ≤ 255 }
    ensures { IfOk result (λ text. text.items ≡ overlap_text (timed trail yellow red) (green_at (parents_of parents) frames.now.items) ticks) }
{
    let mut out = Vec::new(alloc);
    let overlap = Overlap::open(trail, yellow, red);
    if add_changes(&mut out, frames, ticks, parents, overlap).is_err() {
        return Err(NoMemory);
    }
    match add_end(&mut out, ticks) {
        Ok(()) => Ok(out),
        Err(_) => Err(NoMemory),
    }
}
