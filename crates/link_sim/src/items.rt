//! What the link takes from the scenario's lists of inputs and frames.

ghost use Rattle.std.specs.Prelude.{ℕ, ◌≡◌, ◌++◌, List, map, slice_get, OnOk, IfOk};
ghost use Rattle.sig_types.specs.Items.{texts_of};
ghost use Rattle.scenario_data.specs.Content.{frame_content};
ghost use Rattle.link_sim.specs.Agenda.{listed, made, made_at};
ghost use Rattle.link_sim.specs.Faults.{same_way};
ghost use Rattle.link_sim.specs.Made.{field_made, frame_made};

use crate::Due;
use scenario_data::{FrameItem, Input, PriorityItem};
use sig_types::{Field, Octets, Way};
use std::alloc::{AllocError, Global};

/// The inputs with their rounds and cabinets.
pub(crate) fn input_dues(alloc: Global, inputs: &[Input]) -> Result<Vec<Due>, AllocError>
    ensures { IfOk result (λ dues. dues.items ≡ listed (λ i. i.round) (λ i. i.cabinet) 0 inputs.now) }
{
    let mut dues = Vec::new(alloc);
    let mut place = 0;
    for input in inputs {
        dues.push(Due {
            round: input.round,
            cabinet: input.cabinet,
            place,
        })?;
        place += 1;
    }
    Ok(dues)
}

/// The frames with their rounds and cabinets.
pub(crate) fn frame_dues(alloc: Global, frames: &[FrameItem]) -> Result<Vec<Due>, AllocError>
    ensures { IfOk result (λ dues. dues.items ≡ listed (λ f. f.round) (λ f. f.cabinet) 0 (map frame_content frames.now)) }
{
    let mut dues = Vec::new(alloc);
    let mut place = 0;
    for frame in frames {
        dues.push(Due {
            round: frame.round,
            cabinet: frame.cabinet,
            place,
        })?;
        place += 1;
    }
    Ok(dues)
}

/// The priority requests with their rounds and cabinets.
pub(crate) fn request_dues(alloc: Global, items: &[PriorityItem]) -> Result<Vec<Due>, AllocError>
    ensures { IfOk result (λ dues. dues.items ≡ listed (λ p. p.round) (λ p. p.cabinet) 0 items.now) }
{
    let mut dues = Vec::new(alloc);
    let mut place = 0;
    for item in items {
        dues.push(Due {
            round: item.round,
            cabinet: item.cabinet,
            place,
        })?;
        place += 1;
    }
    Ok(dues)
}

/// Appends what happens at the street by the input at a place.
fn push_field(out: &mut Vec<Field>, inputs: &[Input], place: usize) -> Result<(), AllocError>
    ensures { OnOk result (out.new.items ≡ out.old.items ++ made_at field_made place (slice_get inputs.now place)) }
{
    if inputs.len() <= place {
        return Ok(());
    }
    out.push(inputs[place].field)?;
    Ok(())
}

/// Appends what happens at the street by these inputs of the list.
pub(crate) fn push_fields(
    out: &mut Vec<Field>,
    inputs: &[Input],
    dues: &[Due],
) -> Result<(), AllocError>
    ensures { OnOk result (out.new.items ≡ out.old.items ++ made field_made inputs.now dues.now) }
{
    for due in dues {
        push_field(out, inputs, due.place)?;
    }
    Ok(())
}

/// The two streams are one.
fn is_same_way(one: Way, other: Way) -> bool
    ensures { result ≡ same_way one other }
{
    one == other
}

/// The octets of a frame of the scenario.
fn frame_octets(frame: &FrameItem) -> Octets
    ensures { result.items ≡ (frame_content frame.now).hex }
{
    let mut octets = Octets::new();
    let _ = octets.try_extend_from_slice(frame.hex.as_slice());
    octets
}

/// Appends the octets of the frame at a place, where it is on a stream.
fn push_frame(
    out: &mut Vec<Octets>,
    frames: &[FrameItem],
    place: usize,
    way: Way,
) -> Result<(), AllocError>
    ensures { OnOk result (texts_of out.new.items ≡ texts_of out.old.items ++ made_at (frame_made way) place (slice_get (map frame_content frames.now) place)) }
{
    if frames.len() <= place {
        return Ok(());
    }
    let frame = &frames[place];
    if !is_same_way(frame.stream, way) {
        return Ok(());
    }
    out.push(frame_octets(frame))?;
    Ok(())
}

/// Appends the octets of those of these frames of the list that are on a stream.
pub(crate) fn push_frames(
    out: &mut Vec<Octets>,
    frames: &[FrameItem],
    dues: &[Due],
    way: Way,
) -> Result<(), AllocError>
    ensures { OnOk result (texts_of out.new.items ≡ texts_of out.old.items ++ made (frame_made way) (map frame_content frames.now) dues.now) }
{
    for due in dues {
        push_frame(out, frames, due.place, way)?;
    }
    Ok(())
}
