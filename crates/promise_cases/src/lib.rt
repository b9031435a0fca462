//! Lines and moments that are wrong in one way each and break a promise about traces: so if a definition of a promise
//! loses a line, a proof here fails. The cases for a safe street are in `safety_laws`. The functions have no bodies.
#![tactic(auto)]

ghost use Rattle.std.specs.Prelude.{◌≡◌, true};
ghost use Rattle.safety_laws.specs.Whole.{Whole};
ghost use Rattle.plan_facts.specs.Disturbances.{no_drift};
ghost use Rattle.plan_facts.specs.Meets.{MeetsEach, zero_in_time};
ghost use Rattle.promise_cases.specs.Lines.{early_version, old_version, skipped_version, version_of_another};
ghost use Rattle.promise_cases.specs.Moments.{red_zero, without_zero, off_target, MeetsAsked};

/// Versions of a trace are not whole if a frame line has the version of a download before its line, or the one before it after its line;
/// if the first accepted download is the second version; or if a download of another cabinet is counted.
pub fn lines_that_are_not_whole()
    ensures early { ¬ Whole 1 early_version }
    ensures old { ¬ Whole 1 old_version }
    ensures skipped { ¬ Whole 1 skipped_version }
    ensures other { ¬ Whole 1 version_of_another }
{}

/// Coordination is not met if a coordinated phase is Red at a local zero; if none comes for 1,001 ticks, where 1,000 are the bound of the
/// standard pattern; or if the counter is off its target for 1,000 ticks after a local zero on the offset. Of no local zero for 999 ticks
/// nothing is said. What a history has to meet is asked of each of its moments.
pub fn moments_that_do_not_meet()
    ensures green { ¬ MeetsEach no_drift red_zero }
    ensures zero { ¬ MeetsEach no_drift (without_zero 1001) }
    ensures in_time { zero_in_time no_drift (without_zero 999) ≡ true }
    ensures offset { ¬ MeetsEach no_drift (off_target 1000) }
    ensures asked { MeetsAsked }
{}
