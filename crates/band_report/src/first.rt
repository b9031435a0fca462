//! The first fault of an object that asks of bands, where it is that of a name or of the scenario: found in little memory.

ghost use Rattle.std.specs.Prelude.{IfErr};
ghost use Rattle.scenario_read.specs.Answers.{OnRefusal};
ghost use Rattle.band_report.specs.BandAnswer.{IsFirstBandFault};

use crate::asked::names_known;
use scenario_checked::inner_fail;
use scenario_cut::{Form, inner_fault, kept_of_few};
use scenario_data::ReadFail;
use std::alloc::Global;

/// The first fault of the bytes: that they are not JSON, of a name, or of the scenario, whose lists are judged item by
/// item. Lack of memory is also the answer for what this way does not say.
pub(crate) fn first_fault(alloc: Global, bytes: &[u8]) -> Result<(), ReadFail>
    ensures { IfErr result (λ fail. OnRefusal fail (IsFirstBandFault bytes.now)) }
{
    let frame = match kept_of_few(alloc, bytes, Form::Outer) {
        Ok(frame) => frame,
        Err(fail) => return Err(fail),
    };
    match names_known(alloc, &frame) {
        Ok(()) => {}
        Err(fail) => return Err(fail),
    }
    match inner_fault(alloc, bytes, &frame) {
        Ok(_) => Ok(()),
        Err(fail) => Err(inner_fail(alloc, fail)),
    }
}
