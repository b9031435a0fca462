//! The times of the tables that are looked back for, in ticks. None is above 2,550, so that the
//! reach of the window decides each.

ghost use Rattle.std.specs.Prelude.{◌≡◌, ◌<◌, ◌≤◌, ◌*◌, max};
ghost use Rattle.sig_tables.specs.Tables.{gap_time, maximum_time, pedestrian_clear_time, red_revert_time};

use sig_tables::Tables;

/// How long a phase, 1 to 16, must see no vehicle before its green may end by gap.
pub fn gap_time(t: &Tables, phase: u8) -> u32
    requires above { 0 < phase }
    requires below { phase ≤ 16 }
    ensures time { result ≡ gap_time t.now phase }
    ensures within { result ≤ 2550 }
{
    u32::from(t.phase(phase).passage).max(1)
}

/// How long a phase, 1 to 16, may stay green while an incompatible phase has demand.
pub fn maximum_time(t: &Tables, phase: u8) -> u32
    requires above { 0 < phase }
    requires below { phase ≤ 16 }
    ensures time { result ≡ maximum_time t.now phase }
    ensures within { result ≤ 2550 }
{
    u32::from(t.phase(phase).maximum) * 10
}

/// How long a phase, 1 to 16, stays red before it may begin again.
pub fn red_revert_time(t: &Tables, phase: u8) -> u32
    requires above { 0 < phase }
    requires below { phase ≤ 16 }
    ensures time { result ≡ red_revert_time t.now phase }
    ensures within { result ≤ 2550 }
{
    u32::from(t.phase(phase).red_revert).max(1)
}

/// How long pedestrian clearance lasts on a phase, 1 to 16.
pub fn pedestrian_clear_time(t: &Tables, phase: u8) -> u32
    requires above { 0 < phase }
    requires below { phase ≤ 16 }
    ensures time { result ≡ pedestrian_clear_time t.now phase }
    ensures within { result ≤ 2550 }
{
    u32::from(t.phase(phase).pedestrian_clear) * 10
}

/// N seconds of a preempt in ticks, one at least.
pub fn stage_time(seconds: u8) -> u32
    ensures time { result ≡ max 1 (10 * seconds) }
    ensures within { result ≤ 2550 }
{
    (u32::from(seconds) * 10).max(1)
}
