//! Walks over the phases of a set, from the least: each member is looked at once, and no other phase is.

ghost use Rattle.std.specs.Prelude.{◌≡◌, ◌<◌, ◌≤◌, ◌&&◌, ◌+◌, ◌-◌, ◌^◌, nat_le, get_or, ℕ};
ghost use Rattle.sig_types.specs.PhaseSet.{has};
ghost use Rattle.sig_tables.specs.Layout.{Has};

use sig_types::PhaseSet;

/// Whether the moment of a phase, 1 to 16, has come at this counter.
fn has_come(moments: &[u32; 16], counter: u32, phase: u8) -> bool
    requires above { 0 < phase }
    requires within { phase ≤ 16 }
    ensures { result ≡ nat_le (get_or moments.now (phase - 1) 0) counter }
{
    moments[phase as usize - 1] <= counter
}

/// Whether a service of a phase, 1 to 16, that begins at this moment ends by its force point.
fn ends_in_time(force: &[u32; 16], services: &[u32; 16], moment: u64, phase: u8) -> bool
    requires above { 0 < phase }
    requires within { phase ≤ 16 }
    requires moment { moment < 2 ^ 33 }
    ensures { result ≡ nat_le (moment + get_or services.now (phase - 1) 0) (get_or force.now (phase - 1) 0) }
{
    let place = phase as usize - 1;
    moment + u64::from(services[place]) <= u64::from(force[place])
}

/// The phases of a set whose moments have come at this counter. Phase p's moment is at place p - 1.
pub fn reached(moments: &[u32; 16], counter: u32, among: PhaseSet) -> PhaseSet
    ensures { Has result (λ p. has among p && nat_le (get_or moments.now (p - 1) 0) counter) }
{
    let mut passed = PhaseSet::empty();
    let mut left = among;
    'members: while !left.is_empty() {
        let phase = left.least();
        passed = passed.with_if(phase, has_come(moments, counter, phase));
        left = left.without(phase);
    }
    passed
}

/// The phases of a set that can be served from a moment on before their force points, each for as long as its service.
/// Phase p is at place p - 1.
pub fn in_time(force: &[u32; 16], services: &[u32; 16], moment: u64, among: PhaseSet) -> PhaseSet
    requires moment { moment < 2 ^ 33 }
    ensures { Has result (λ p. has among p && nat_le (moment + get_or services.now (p - 1) 0) (get_or force.now (p - 1) 0)) }
{
    let mut passed = PhaseSet::empty();
    let mut left = among;
    'members: while !left.is_empty() {
        let phase = left.least();
        passed = passed.with_if(phase, ends_in_time(force, services, moment, phase));
        left = left.without(phase);
    }
    passed
}
