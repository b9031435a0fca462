//! The lines of what is found of the phases: breaches, which are counted, and intervals that have run over their time.

ghost use Rattle.std.specs.Prelude.{◌≡◌, ◌≤◌, ◌<◌, ◌&&◌, ◌++◌, nat_lt, ℕ, [], IsTrue, IfOk, OnOk};
ghost use Rattle.sig_types.specs.Phases.{all_phases};
ghost use Rattle.sig_types.specs.PhaseSet.{has};
ghost use Rattle.judge_laws.specs.declared.Clause.{Clause as ClauseOf};
ghost use Rattle.judge_laws.specs.Breaches.{found, breach_at, each};
ghost use Rattle.judge.specs.Cabinet.{listed_breaches, found_breaches, listed_overrun, listed_by, listed_overruns};
ghost use Rattle.judge_session.specs.Report.{overruns_text};
ghost use Rattle.judge_session.specs.Standing.{Adds};

use crate::texts::{put_breach, put_overrun};
use judge::{CourseFound, PhaseFound, PhaseOverruns};
use judge_laws::{Breach, Clause, Light, Overrun};
use sig_types::{NoMemory, PhaseSet};

/// Appends the line of a breach if it is found. Gives how many were found by then; they are at most 18,446,744,073,709,551,615.
fn put_if(
    out: &mut Vec<u8>,
    count: u64,
    is_found: bool,
    cab: u32,
    tick: u32,
    clause: Clause,
    phase: u8,
    other: u8,
) -> Result<u64, NoMemory>
    ensures { IfOk result (λ now. Adds out.old.items out.new.items count now (found is_found (breach_at cab tick clause phase other))) }
{
    if !is_found {
        return Ok(count);
    }
    let breach = Breach {
        cab,
        tick,
        clause,
        phase,
        other,
    };
    match count.checked_add(1) {
        Some(now) => match put_breach(out, &breach) {
            Ok(()) => Ok(now),
            Err(NoMemory) => Err(NoMemory),
        },
        None => Err(NoMemory),
    }
}

/// Whether another phase, 1 to 16, is a higher one that is on together with a phase.
fn is_pair(together: PhaseSet, phase: u8, other: u8) -> bool
    requires above { 0 < other }
    requires within { other ≤ 16 }
    ensures { result ≡ (nat_lt phase other && has together other) }
{
    phase < other && together.has(other)
}

/// Appends the lines of the phases that are on together with a phase and may not be: a pair is reported at the lower phase.
fn put_pairs(
    out: &mut Vec<u8>,
    count: u64,
    cab: u32,
    tick: u32,
    phase: u8,
    together: PhaseSet,
) -> Result<u64, NoMemory>
    ensures { IfOk result (λ now. Adds out.old.items out.new.items count now
        (each (λ q. found (nat_lt phase q && has together q) (breach_at cab tick ClauseOf.Apart phase q)) all_phases)) }
{
    let mut now = count;
    for other in 1..17u8 {
        let is_found = is_pair(together, phase, other);
        now = put_if(out, now, is_found, cab, tick, Clause::Apart, phase, other)?;
    }
    Ok(now)
}

/// Whether nothing is found of a phase.
fn is_clean(found: PhaseFound) -> bool
    ensures { IsTrue result → (cab tick p : ℕ) → listed_breaches cab tick p found ≡ [] }
{
    let nothing = PhaseFound {
        together: PhaseSet::empty(),
        lit: false,
        course: CourseFound {
            order: false,
            clearance: false,
            green: false,
            pedestrian: false,
            on_green: false,
        },
    };
    found == nothing
}

/// Appends the lines of what is found of a phase, by clause.
fn put_phase(
    out: &mut Vec<u8>,
    count: u64,
    cab: u32,
    tick: u32,
    phase: u8,
    found: PhaseFound,
) -> Result<u64, NoMemory>
    ensures { IfOk result (λ now. Adds out.old.items out.new.items count now (listed_breaches cab tick phase found)) }
{
    if is_clean(found) {
        return Ok(count);
    }
    let course = found.course;
    let pairs = put_pairs(out, count, cab, tick, phase, found.together)?;
    let lit = put_if(out, pairs, found.lit, cab, tick, Clause::Apart, phase, 0)?;
    let order = put_if(out, lit, course.order, cab, tick, Clause::Order, phase, 0)?;
    let clear = put_if(
        out,
        order,
        course.clearance,
        cab,
        tick,
        Clause::Clearance,
        phase,
        0,
    )?;
    let green = put_if(
        out,
        clear,
        course.green,
        cab,
        tick,
        Clause::ShortGreen,
        phase,
        0,
    )?;
    let walk = put_if(
        out,
        green,
        course.pedestrian,
        cab,
        tick,
        Clause::Pedestrian,
        phase,
        0,
    )?;
    put_if(
        out,
        walk,
        course.on_green,
        cab,
        tick,
        Clause::OnGreen,
        phase,
        0,
    )
}

/// Appends the lines of what is found of all phases. Gives how many breaches were found by then.
pub fn put_found(
    out: &mut Vec<u8>,
    count: u64,
    cab: u32,
    tick: u32,
    found: &[PhaseFound; 16],
) -> Result<u64, NoMemory>
    ensures { IfOk result (λ now. Adds out.old.items out.new.items count now (found_breaches cab tick found.now)) }
{
    let mut now = count;
    for p in 0..16 {
        now = put_phase(out, now, cab, tick, p as u8 + 1, found[p])?;
    }
    Ok(now)
}

/// Appends the line of an interval if it has run over its time.
fn put_since(
    out: &mut Vec<u8>,
    cab: u32,
    phase: u8,
    light: Light,
    since: Option<u32>,
) -> Result<(), NoMemory>
    ensures { OnOk result (out.new.items ≡ out.old.items ++ overruns_text (listed_overrun cab phase light since)) }
{
    match since {
        Some(since) => {
            let overrun = Overrun {
                cab,
                phase,
                light,
                since,
            };
            put_overrun(out, &overrun)
        }
        None => Ok(()),
    }
}

/// Appends the lines of the intervals of a phase.
fn put_overruns_of(
    out: &mut Vec<u8>,
    cab: u32,
    phase: u8,
    overruns: PhaseOverruns,
) -> Result<(), NoMemory>
    ensures { OnOk result (out.new.items ≡ out.old.items ++ overruns_text (listed_by cab phase overruns)) }
{
    put_since(out, cab, phase, Light::Yellow, overruns.yellow)?;
    put_since(out, cab, phase, Light::Clear, overruns.clear)?;
    put_since(out, cab, phase, Light::Walk, overruns.walk)?;
    put_since(out, cab, phase, Light::Flash, overruns.flash)
}

/// Appends the lines of the intervals of all phases.
pub fn put_overruns(
    out: &mut Vec<u8>,
    cab: u32,
    overruns: &[PhaseOverruns; 16],
) -> Result<(), NoMemory>
    ensures { OnOk result (out.new.items ≡ out.old.items ++ overruns_text (listed_overruns cab overruns.now)) }
{
    for p in 0..16 {
        put_overruns_of(out, cab, p as u8 + 1, overruns[p])?;
    }
    Ok(())
}
