//! What the link makes of one frame.

ghost use Rattle.std.specs.Prelude.{◌≡◌, ◌++◌, take, OnOk};
ghost use Rattle.sig_types.specs.Items.{texts_of};
ghost use Rattle.link_sim.specs.Faults.{flipped, arriving};

use scenario_data::{Fault, FaultKind};
use sig_types::Octets;
use std::alloc::AllocError;

/// The first octets of a frame, at most that many.
fn cut(octets: &Octets, most: u32) -> Octets
    ensures { result.items ≡ take most octets.now.items }
{
    let mut copy = Octets::new();
    let count = octets.len().min(most as usize);
    let _ = copy.try_extend_from_slice(&octets.as_slice()[..count]);
    copy
}

/// The same octets.
pub(crate) fn copied(octets: &Octets) -> Octets
    ensures { result.items ≡ octets.now.items }
{
    let mut copy = Octets::new();
    let _ = copy.try_extend_from_slice(octets.as_slice());
    copy
}

/// The octets with the one at a place turned; unchanged where there is no such place.
fn flipped(octets: &Octets, place: u32, octet: u8) -> Octets
    ensures { result.items ≡ flipped octets.now.items place octet }
{
    let mut copy = copied(octets);
    if (place as usize) < copy.len() {
        copy.as_mut_slice()[place as usize] ^= octet;
    }
    copy
}

/// Appends what arrives at once of a frame that meets a fault or none. Where memory is refused, a part of it may be appended.
pub(crate) fn arrive(
    out: &mut Vec<Octets>,
    fault: Option<Fault>,
    octets: &Octets,
) -> Result<(), AllocError>
    ensures { OnOk result (texts_of out.new.items ≡ texts_of out.old.items ++ arriving fault octets.now.items) }
{
    let Some(fault) = fault else {
        out.push(copied(octets))?;
        return Ok(());
    };
    match fault.kind {
        FaultKind::Lose => {}
        FaultKind::Repeat => {
            out.push(copied(octets))?;
            out.push(copied(octets))?;
        }
        FaultKind::Late => {
            out.push(copied(octets))?;
            if fault.by == 0 {
                out.push(copied(octets))?;
            }
        }
        FaultKind::Flip => out.push(flipped(octets, fault.by, fault.octet))?,
        FaultKind::Cut => out.push(cut(octets, fault.by))?,
    }
    Ok(())
}
