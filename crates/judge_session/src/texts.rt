//! The lines of a report, each appended to one text. If memory runs out, a part of a line may be there: the text is then of no more use.

ghost use Rattle.std.specs.Prelude.{◌≡◌, ◌++◌, ◌∷◌, [], OnOk, codes, decimal};
ghost use Rattle.trace_text.specs.Words.{unended};
ghost use Rattle.judge_session.specs.Report.{breach_text, unknown_text, overrun_text, total_text, clause_number, light_letter};

use judge_laws::{Breach, Clause, Light, Overrun};
use sig_types::NoMemory;
use std::alloc::AllocError;
use trace_text::{number, word};

/// The number of a clause.
fn clause_number(clause: Clause) -> u8
    ensures { result ≡ clause_number clause }
{
    match clause {
        Clause::Apart => 1,
        Clause::Order => 2,
        Clause::Clearance => 3,
        Clause::ShortGreen => 4,
        Clause::Pedestrian => 5,
        Clause::OnGreen => 6,
    }
}

/// The letter of a colour or a pedestrian signal, as in a frame line.
fn light_letter(light: Light) -> &'static [u8]
    ensures { result.now ≡ light_letter light }
{
    match light {
        Light::Yellow => b"Y",
        Light::Clear => b"C",
        Light::Walk => b"W",
        Light::Flash => b"F",
    }
}

/// A kind's letter, and a cabinet, or how many.
fn numbered(out: &mut Vec<u8>, kind: u8, n: u32) -> Result<(), AllocError>
    ensures { OnOk result (out.new.items ≡ out.old.items ++ unended ((kind ∷ []) ∷ decimal n ∷ [])) }
{
    out.push(kind)?;
    number(out, n)
}

#[tactic(auto, using(trace_text::proofs::Endings::endings), unfolding(crate::specs::Report::breach_text))]
fn breach_line(out: &mut Vec<u8>, breach: &Breach) -> Result<(), AllocError>
    ensures { OnOk result (out.new.items ≡ out.old.items ++ breach_text breach.now) }
{
    numbered(out, b'B', breach.cab)?;
    number(out, breach.tick)?;
    number(out, clause_number(breach.clause))?;
    number(out, breach.phase)?;
    number(out, breach.other)?;
    out.push(b'\n')?;
    Ok(())
}

#[tactic(auto, using(trace_text::proofs::Endings::endings), unfolding(crate::specs::Report::unknown_text))]
fn unknown_line(out: &mut Vec<u8>, cab: u32, id: u32) -> Result<(), AllocError>
    ensures { OnOk result (out.new.items ≡ out.old.items ++ unknown_text cab id) }
{
    numbered(out, b'U', cab)?;
    number(out, id)?;
    out.push(b'\n')?;
    Ok(())
}

#[tactic(auto, using(trace_text::proofs::Endings::endings), unfolding(crate::specs::Report::overrun_text))]
fn overrun_line(out: &mut Vec<u8>, overrun: &Overrun) -> Result<(), AllocError>
    ensures { OnOk result (out.new.items ≡ out.old.items ++ overrun_text overrun.now) }
{
    numbered(out, b'W', overrun.cab)?;
    number(out, overrun.phase)?;
    word(out, light_letter(overrun.light))?;
    number(out, overrun.since)?;
    out.push(b'\n')?;
    Ok(())
}

#[tactic(auto, using(trace_text::proofs::Endings::endings), unfolding(crate::specs::Report::total_text))]
fn total_line(out: &mut Vec<u8>, cabinets: u32, breaches: u64) -> Result<(), AllocError>
    ensures { OnOk result (out.new.items ≡ out.old.items ++ total_text cabinets breaches) }
{
    numbered(out, b'Z', cabinets)?;
    number(out, breaches)?;
    out.push(b'\n')?;
    Ok(())
}

/// Appends the line of a breach.
pub fn put_breach(out: &mut Vec<u8>, breach: &Breach) -> Result<(), NoMemory>
    ensures { OnOk result (out.new.items ≡ out.old.items ++ breach_text breach.now) }
{
    match breach_line(out, breach) {
        Ok(()) => Ok(()),
        Err(_) => Err(NoMemory),
    }
}

/// Appends the line of a cabinet whose tables are unknown after a load.
pub fn put_unknown(out: &mut Vec<u8>, cab: u32, id: u32) -> Result<(), NoMemory>
    ensures { OnOk result (out.new.items ≡ out.old.items ++ unknown_text cab id) }
{
    match unknown_line(out, cab, id) {
        Ok(()) => Ok(()),
        Err(_) => Err(NoMemory),
    }
}

/// Appends the line of an interval that has run over its time.
pub fn put_overrun(out: &mut Vec<u8>, overrun: &Overrun) -> Result<(), NoMemory>
    ensures { OnOk result (out.new.items ≡ out.old.items ++ overrun_text overrun.now) }
{
    match overrun_line(out, overrun) {
        Ok(()) => Ok(()),
        Err(_) => Err(NoMemory),
    }
}

/// Appends the last line.
pub fn put_total(out: &mut Vec<u8>, cabinets: u32, breaches: u64) -> Result<(), NoMemory>
    ensures { OnOk result (out.new.items ≡ out.old.items ++ total_text cabinets breaches) }
{
    match total_line(out, cabinets, breaches) {
        Ok(()) => Ok(()),
        Err(_) => Err(NoMemory),
    }
}
