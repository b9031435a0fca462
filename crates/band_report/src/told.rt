//! The two lines that answer an object.

ghost use Rattle.std.specs.Prelude.{◌≡◌, ◌≤◌, length, None, IfOk, IfErr, string_bytes};
ghost use Rattle.serde_json.specs.Data.{Data};
ghost use Rattle.serde_json.specs.View.{view};
ghost use Rattle.scenario_data.specs.Content.{scenario_content};
ghost use Rattle.scenario_read.specs.Answers.{OnRefusal};
ghost use Rattle.scenario_read.specs.Readers.{Answers};
ghost use Rattle.band_report.specs.Street.{misfit_of};
ghost use Rattle.band_report.specs.Asked.{band_faults};
ghost use Rattle.band_report.specs.BandAnswer.{band_text, two_lines, Says, TellsOf, TellsBands, IsFirstBandFault};

use crate::asked::{Asked, asked_in};
use crate::by_parts::asked_by_parts;
use crate::first::first_fault;
use crate::{Band, greatest};
use scenario_cut::{Form, kept_of};
use scenario_data::ReadFail;
use scenario_file::FileLeft;
use serde_json::Value;
use sig_types::NoMemory;
use std::alloc::{AllocError, Global};

/// The names of an object that asks of bands.
const NAMES: [&str; 4] = ["scenario", "section", "pattern", "travel"];

/// A band as its four numbers: start and width in ticks, and the cabinets that are in its way before and after it.
fn band_text(alloc: Global, report: Option<Band>) -> Result<String, AllocError>
    ensures { IfOk result (λ text. string_bytes text ≡ band_text report) }
{
    match report {
        None => String::from_str(alloc, "none"),
        Some(band) => {
            let Band {
                start,
                width,
                before,
                after,
            } = band;
            format!(in alloc; "{start} {width} {before} {after}")
        }
    }
}

/// The lines of both ways.
fn two_lines(
    alloc: Global,
    outbound: Option<Band>,
    inbound: Option<Band>,
) -> Result<Vec<u8>, AllocError>
    ensures { IfOk result (λ text. text.items ≡ two_lines outbound inbound) }
{
    let outbound = band_text(alloc, outbound)?;
    let inbound = band_text(alloc, inbound)?;
    let text = format!(in alloc; "outbound {outbound}\ninbound {inbound}\n")?;
    Ok(text.into_bytes())
}

/// The two lines that answer what is asked.
fn lines_of(alloc: Global, asked: &Asked) -> Result<Vec<u8>, NoMemory>
    requires few { length asked.now.scenario.cabinets.items ≤ 64 }
    requires fits { misfit_of (scenario_content asked.now.scenario).cabinets asked.now.section asked.now.pattern (length asked.now.travel.items) ≡ None }
    ensures { IfOk result (λ text. (d : Data) → Says asked.now d → TellsOf d text.items) }
{
    let (section, pattern) = (asked.section, asked.pattern);
    let outbound = greatest(
        alloc,
        &asked.scenario,
        section,
        pattern,
        &asked.travel,
        false,
    )?;
    let inbound = greatest(
        alloc,
        &asked.scenario,
        section,
        pattern,
        &asked.travel,
        true,
    )?;
    match two_lines(alloc, outbound, inbound) {
        Ok(text) => Ok(text),
        Err(_) => Err(NoMemory),
    }
}

/// The answer to bytes whose parts are read in little memory, where their names appear this often: the two lines, or
/// their first fault. Lack of memory is also the answer for what this way does not say.
fn report_by_parts(alloc: Global, bytes: &[u8], left: FileLeft) -> Result<Vec<u8>, ReadFail>
    ensures told { IfOk result (λ text. TellsBands bytes.now text.items) }
    ensures refused { IfErr result (λ fail. OnRefusal fail (IsFirstBandFault bytes.now)) }
{
    let asked = match asked_by_parts(alloc, bytes, left) {
        Ok(asked) => asked,
        Err(fail) => return Err(fail),
    };
    match lines_of(alloc, &asked) {
        Ok(text) => Ok(text),
        Err(NoMemory) => Err(ReadFail::NoMemory),
    }
}

/// The same for bytes in which no fault was found: of equal names only the last is read, also of the scenario's and of
/// its master's.
fn report_by_last(alloc: Global, bytes: &[u8]) -> Result<Vec<u8>, ReadFail>
    ensures told { IfOk result (λ text. TellsBands bytes.now text.items) }
    ensures refused { IfErr result (λ fail. OnRefusal fail (IsFirstBandFault bytes.now)) }
{
    match FileLeft::counted(alloc, bytes, &NAMES) {
        Some(left) => report_by_parts(alloc, bytes, left),
        None => Err(ReadFail::NoMemory),
    }
}

/// The two lines that answer an object, refused at its first fault.
fn report_of(alloc: Global, value: &Value) -> Result<Vec<u8>, ReadFail>
    ensures { Answers result (band_faults (view value.now)) (λ text. TellsOf (view value.now) text.items) }
{
    let asked = asked_in(alloc, value)?;
    match lines_of(alloc, &asked) {
        Ok(text) => Ok(text),
        Err(NoMemory) => Err(ReadFail::NoMemory),
    }
}

/// The answer to bytes by what is kept of their object: that on which its first fault may hang.
fn report_by_kept(alloc: Global, bytes: &[u8]) -> Result<Vec<u8>, ReadFail>
    ensures told { IfOk result (λ text. TellsBands bytes.now text.items) }
    ensures refused { IfErr result (λ fail. OnRefusal fail (IsFirstBandFault bytes.now)) }
{
    let kept = match kept_of(alloc, bytes, Form::Street) {
        Ok(kept) => kept,
        Err(fail) => return Err(fail),
    };
    match report_of(alloc, &kept) {
        Ok(text) => Ok(text),
        Err(fail) => Err(fail),
    }
}

/// The widest bands, outbound and inbound, that the bytes of one JSON object ask for: two lines, `outbound START WIDTH
/// A B` and `inbound START WIDTH A B`, or `none` after the word if no time is open. The refusal is the first fault in
/// the order of the checks: the JSON reading, the four names and their values, those of the scenario with their paths
/// after `scenario.`, and then the reasons against any band. If the scenario is valid, little is kept of the object;
/// otherwise a fault of it is looked for with its lists judged item by item. If none is found and memory is enough, a
/// valid object has repeated names: then the object is read again without the values of the earlier of equal names, and
/// only if that gives no answer the part is kept on which a fault may hang.
pub fn report(alloc: Global, bytes: &[u8]) -> Result<Vec<u8>, ReadFail>
    ensures told { IfOk result (λ text. TellsBands bytes.now text.items) }
    ensures refused { IfErr result (λ fail. OnRefusal fail (IsFirstBandFault bytes.now)) }
{
    match report_by_parts(alloc, bytes, FileLeft::none(alloc)) {
        Err(ReadFail::NoMemory) => {}
        told => return told,
    }
    match first_fault(alloc, bytes) {
        Err(ReadFail::Refused(refusal)) => return Err(ReadFail::Refused(refusal)),
        _ => {}
    }
    match report_by_last(alloc, bytes) {
        Err(ReadFail::NoMemory) => {}
        told => return told,
    }
    report_by_kept(alloc, bytes)
}
