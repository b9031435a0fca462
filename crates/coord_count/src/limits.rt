//! How far one cycle may bring the counter nearer to the offset, and in how many cycles it gets there (FHWA Signal Timing
//! Manual, offset transition; the modes are those of NTCIP 1202, the limits of a cycle are this project's own).

ghost use Rattle.std.specs.Prelude.{◌≡◌, ◌<◌, ◌≤◌, ◌-◌, ◌%◌, ℕ};

use sig_tables::{Plan, Tables};

/// The mode of correction that dwells at local zero.
pub(crate) const DWELL: u8 = 2;
/// The mode of correction that adds or subtracts, whichever takes fewer cycles.
pub(crate) const SHORTWAY: u8 = 3;
/// The mode of correction that only adds.
pub(crate) const ADD_ONLY: u8 = 4;

/// The mode of correction (2 dwell, 3 shortway, 4 add only; by any other nothing is corrected), and the most ticks that one
/// cycle dwells, adds and subtracts.
#[derive(Clone, Copy, PartialEq, Eq)]
pub struct Limits {
    pub mode: u8,
    pub dwell: u32,
    pub add: u32,
    pub subtract: u32,
}

impl Limits {
    ghost use Rattle.sig_tables.specs.declared.tables.Tables.{Tables};
    ghost use Rattle.sig_tables.specs.Plan.{plan_of};
    ghost use Rattle.sig_tables.specs.Counters.{correction_of};
    ghost use Rattle.sig_tables.specs.Counting.{adds_sooner};
    ghost use Rattle.coord_count.specs.Limits.{limits_of, correction_in};

    /// The limits that the unit's table sets.
    pub fn of(t: &Tables) -> Limits
        ensures limits { result ≡ limits_of t.now }
        ensures corrects { (n : ℕ) → correction_in (plan_of t.now n) result ≡ correction_of t.now n }
    {
        let unit = t.unit();
        Limits {
            mode: unit.mode,
            dwell: u32::from(unit.dwell),
            add: u32::from(unit.add),
            subtract: u32::from(unit.subtract),
        }
    }

    /// Whether adding takes no more cycles than subtracting, for an error of that many ticks that is at most the plan's
    /// cycle.
    pub(crate) fn adds_sooner(self, plan: &Plan, error: u32) -> bool
        requires add { 0 < self.add }
        requires subtract { 0 < self.subtract }
        requires within { error ≤ plan.now.cycle }
        ensures { result ≡ adds_sooner (correction_in plan.now self) error }
    {
        steps_for(plan.cycle - error, self.add) <= steps_for(error, self.subtract)
    }
}

ghost use Rattle.sig_tables.specs.Counting.{needed, steps_for};
ghost use Rattle.coord_count.specs.Limits.{correction_by};

/// In how many cycles the counter comes to equal the target by this mode (2 dwell, 3 shortway, 4 add only) within these
/// limits, from a local zero at which the target is this one; all but the mode is in ticks. The limits' own mode is not
/// looked at, so that one mode can be compared with another. (Any other mode is read as shortway here; it corrects nothing.)
pub fn needed(mode: u8, limits: Limits, cycle: u32, target: u32) -> u32
    requires dwell { 0 < limits.dwell }
    requires add { 0 < limits.add }
    requires subtract { 0 < limits.subtract }
    requires target { target < cycle }
    ensures needed { (window : ℕ) → result ≡ needed (correction_by mode limits cycle window) target }
{
    let to_add = short_of(cycle, target);
    match mode {
        DWELL => steps_for(to_add, limits.dwell),
        ADD_ONLY => steps_for(to_add, limits.add),
        _ => steps_for(to_add, limits.add).min(steps_for(target, limits.subtract)),
    }
}

/// How many ticks a moment of the cycle is short of the next local zero; none at local zero.
fn short_of(cycle: u32, moment: u32) -> u32
    requires { moment < cycle }
    ensures { result ≡ (cycle - moment) % cycle }
{
    if moment == 0 { 0 } else { cycle - moment }
}

/// How many steps of at most `most` ticks make up an error of that many ticks.
fn steps_for(error: u32, most: u32) -> u32
    requires { 0 < most }
    ensures { result ≡ steps_for error most }
{
    if error == 0 {
        0
    } else {
        (error - 1) / most + 1
    }
}
