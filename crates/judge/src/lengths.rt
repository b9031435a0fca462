//! How long an interval must last: all of its time, or what a preempt leaves of it; and whether it lasted that long.

ghost use Rattle.std.specs.Prelude.{◌≡◌, ◌+◌, nat_le, Option};
ghost use Rattle.sig_tables.specs.declared.tables.Preempt.{Preempt as PreemptOf};
ghost use Rattle.safety_laws.specs.Safe.{green_due, walk_due, clearance_due};
ghost use Rattle.judge.specs.Lesser.{lesser_of};

use crate::lesser::LesserTimes;

/// How long a green must last whose least time is this.
pub fn green_due(left: Option<LesserTimes>, time: u16) -> u16
    ensures { (way : Option PreemptOf) → lesser_of way ≡ left → result ≡ green_due way time }
{
    match left {
        None => time,
        Some(left) => time.min(u16::from(left.green) * 10).max(1),
    }
}

/// How long a walk must last at least whose time is this.
pub fn walk_due(left: Option<LesserTimes>, time: u16) -> u16
    ensures { (way : Option PreemptOf) → lesser_of way ≡ left → result ≡ walk_due way time }
{
    match left {
        None => time,
        Some(left) => time.min(u16::from(left.walk) * 10).max(1),
    }
}

/// How long a pedestrian clearance must last at least whose time is this.
pub fn clearance_due(left: Option<LesserTimes>, time: u16) -> u16
    ensures { (way : Option PreemptOf) → lesser_of way ≡ left → result ≡ clearance_due way time }
{
    match left {
        None => time,
        Some(left) => time.min(u16::from(left.clearance) * 10),
    }
}

/// What all phases are judged by at a line.
#[derive(Clone, Copy)]
pub struct Step {
    /// The tick of the line.
    pub tick: u32,
    /// Whether the log shows what the cabinet showed last before the line.
    pub known: bool,
    /// By how many ticks the length of an interval may differ from the required one.
    pub tolerance: u8,
}

impl Step {
    /// Whether an interval that began at tick `since`, and that this line ends, lasted at least that long.
    pub fn is_past(self, since: u32, time: u16) -> bool
        ensures { result ≡ nat_le (since + time) (self.tick + self.tolerance) }
    {
        u64::from(since) + u64::from(time) <= u64::from(self.tick) + u64::from(self.tolerance)
    }

    /// Whether it lasted at most that long.
    pub fn is_within(self, since: u32, time: u16) -> bool
        ensures { result ≡ nat_le self.tick (since + time + self.tolerance) }
    {
        u64::from(self.tick) <= u64::from(since) + u64::from(time) + u64::from(self.tolerance)
    }
}
