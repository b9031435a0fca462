//! Whether a preempt is called: by its input, of which it is kept for how long it has been on, and by the frames of its
//! stages.

ghost use Rattle.std.specs.Prelude.{◌≡◌, ◌<◌, ◌≤◌, ◌+◌, ◌*◌, ◌==◌, ◌&&◌, ◌||◌, not, ℕ, List};
ghost use Rattle.sig_types.specs.Phases.{is_in, has_some};
ghost use Rattle.sig_tables.specs.declared.tables.Tables.{Tables};
ghost use Rattle.sig_tables.specs.Tables.{listed};
ghost use Rattle.sig_tables.specs.Past.{Moment};
ghost use Rattle.sig_types.specs.PhaseSet.{has};
ghost use Rattle.sig_tables.specs.Preempts.{is_preempt_called, preempt_called};

use crate::long_counts::LongCounts;
use sig_tables::{Preempt, Tables};
use sig_types::PhaseSet;

/// Whether a preempt has phases in which it dwells.
fn is_configured(row: &Preempt) -> bool
    ensures { result ≡ has_some (listed row.now.dwell_phases) }
{
    !row.dwell_phases.phases().is_empty()
}

/// For how many ticks an input has to be on until its preempt is called.
fn delay_time(row: &Preempt) -> u32
    ensures { result ≡ 10 * row.now.delay + 1 }
{
    u32::from(row.delay) * 10 + 1
}

/// For how many ticks an input has to be on until its preempt is no longer called.
fn presence_time(row: &Preempt) -> u32
    ensures { result ≡ 10 * (row.now.delay + row.now.maximum_presence) + 1 }
{
    (u32::from(row.delay) + u32::from(row.maximum_presence)) * 10 + 1
}

/// Whether a preempt calls whose input is on and past its delay, and with a greatest presence not past that.
fn calls(on: bool, is_configured: bool, is_delayed: bool, presence: u16, is_past: bool) -> bool
    ensures { result ≡ (on && is_configured && is_delayed && (presence == 0 || not is_past)) }
{
    on && is_configured && is_delayed && (presence == 0 || !is_past)
}

impl LongCounts {
    ghost use Rattle.look_back.specs.LongCounts.{LongCountsStands};

    /// Whether a preempt, 1 to 8, whose input is on at this tick or not, is called.
    pub fn is_called(&self, t: &Tables, number: u8, on: bool) -> bool
        requires above { 0 < number }
        requires below { number ≤ 8 }
        ensures { (inputs : List ℕ) (past : List Moment) → LongCountsStands self.now past → on ≡ is_in inputs number
            → result ≡ is_preempt_called t.now inputs past number }
    {
        let row = t.preempt(number);
        let delayed = self.has_been_on(delay_time(row), number, on);
        let past = self.has_been_on(presence_time(row), number, on);
        calls(on, is_configured(row), delayed, row.maximum_presence, past)
    }

    /// The least preempt that is called, or 0, where the inputs of these, 1 to 8 in a set as phases are, are on at this tick.
    pub fn called(&self, t: &Tables, on: PhaseSet) -> u8
        ensures { (inputs : List ℕ) (past : List Moment) → LongCountsStands self.now past
            → ((i : ℕ) → 0 < i → i ≤ 8 → has on i ≡ is_in inputs i) → result ≡ preempt_called t.now inputs past }
    {
        if on.is_empty() {
            return 0;
        }
        for number in 1..9u8 {
            if self.is_called(t, number, on.has(number)) {
                return number;
            }
        }
        0
    }
}
