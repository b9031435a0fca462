//! The first fault of a field file, if it is that of a name or of its value: the scenario, the bank, the pulses or the
//! rules that follow traffic. It is found in little memory; what concerns several lists is not checked here.

ghost use Rattle.std.specs.Prelude.{IfErr};
ghost use Rattle.scenario_read.specs.Answers.{OnRefusal};
ghost use Rattle.field_read.specs.Answers.{IsFirstFieldFault};

use crate::bank::bank_at;
use crate::judged::judge_pulses;
use crate::members::known_names;
use crate::place::Place;
use crate::respond::respond_at;
use scenario_checked::inner_fail;
use scenario_cut::{Form, inner_fault, kept_of_few};
use scenario_data::ReadFail;
use std::alloc::Global;

/// The first fault of the bytes: that they aren't JSON, of a name, of the scenario, whose lists are judged item by
/// item, of the bank, of the pulses, which are judged likewise, or of the rules that follow traffic. Out of memory also
/// means that this way finds nothing. Ok says that none of these was found; what concerns several lists isn't checked.
/// It keeps no value of the whole, and is asked if `listed` gave up, before anything is read again.
pub fn first_fault(alloc: Global, bytes: &[u8]) -> Result<(), ReadFail>
    ensures { IfErr result (λ fail. OnRefusal fail (IsFirstFieldFault bytes.now)) }
{
    let frame = match kept_of_few(alloc, bytes, Form::Outer) {
        Ok(frame) => frame,
        Err(fail) => return Err(fail),
    };
    match known_names(
        alloc,
        &frame,
        Place::Top,
        &["scenario", "bank", "pulses", "respond"],
    ) {
        Ok(()) => {}
        Err(fail) => return Err(fail),
    }
    let extent = match inner_fault(alloc, bytes, &frame) {
        Ok(extent) => extent,
        Err(fail) => return Err(inner_fail(alloc, fail)),
    };
    match bank_at(alloc, &frame, extent.cabinets) {
        Ok(_) => {}
        Err(fail) => return Err(fail),
    }
    match judge_pulses(alloc, bytes, extent) {
        Ok(()) => {}
        Err(fail) => return Err(fail),
    }
    match respond_at(alloc, &frame) {
        Ok(_) => Ok(()),
        Err(fail) => Err(fail),
    }
}
