//! What a cabinet keeps of the pattern that it seeks or is coordinated in: the pattern laid out over its cycle, what
//! its split asks, and the phases in the order of its sequence (FHWA Signal Timing Manual, coordination). It is read
//! once where the pattern comes into force, and not at each tick.

ghost use Rattle.std.specs.Prelude.{◌≡◌, ◌<◌, ◌&&◌, ◌==◌, ℕ, true, Some};

use coord_gate::Gate;
use pattern_plan::{SplitOptions, plan};
use sig_tables::{Layout, Plan, Tables};
use sig_types::{Mode, PhaseSet};

/// The pattern, 0 for none, and all that is kept of it. Phase p is at place p - 1.
#[derive(Clone, Copy)]
pub struct ActivePattern {
    pub pattern: u8,
    pub plan: Plan,
    pub options: SplitOptions,
    /// The minimum service of each phase, in ticks.
    pub services: [u32; 16],
    /// What the tables say of all phases, with the sequence of the pattern.
    pub layout: Layout,
    ghost some_cycle: { 0 < plan.cycle },
}

ghost use Rattle.sig_types.specs.PhaseSet.{has};
ghost use Rattle.sig_tables.specs.declared.tables.Tables.{Tables};
ghost use Rattle.sig_tables.specs.Slots.{is_defined, least_service};
ghost use Rattle.sig_tables.specs.Coordinating.{has_room, is_forced_off};
ghost use Rattle.sig_tables.specs.Clock.{target_at};
ghost use Rattle.sig_tables.specs.Layout.{Has};
ghost use Rattle.sig_tables.specs.Laying.{EachIs};
ghost use Rattle.sig_tables.specs.Splits.{coordinated_phases};
ghost use Rattle.sig_types.specs.Phases.{is_in};
ghost use Rattle.coord_gate.specs.GateStands.{GateStands};

/// A plan of no pattern.
fn no_plan() -> Plan
    ensures { result.cycle ≡ 1 }
{
    Plan {
        cycle: 1,
        offset: 0,
        sequence: 1,
        coordinated: [0; 2],
        force: [0; 16],
        permissive: [0; 16],
        window: 0,
        float: [0; 16],
        floating: false,
        shift: 0,
    }
}

/// The minimum service of each phase, in ticks.
fn services(tables: &Tables) -> [u32; 16]
    ensures { EachIs result (least_service tables.now) }
{
    let mut services = [0; 16];
    for phase in 1..17 {
        services[phase as usize - 1] = tables.least_service(phase);
    }
    services
}

/// Whether the tables define a pattern: it is 1 to 48 and has a cycle.
pub fn is_defined(tables: &Tables, pattern: u8) -> bool
    ensures { result ≡ is_defined tables.now pattern }
{
    1 <= pattern && pattern <= 48 && 1 <= tables.pattern(pattern).cycle
}

impl ActivePattern {
    ghost use Rattle.tick_context.specs.Binds.{ActivePatternIs, ActivePatternStands, IsBound, Names};
    ghost use Rattle.tick_context.specs.Passed.{planned_target};

    /// No pattern.
    pub fn none(tables: &Tables, layout: Layout) -> ActivePattern
        ensures stands { (t : Tables) → ActivePatternStands result t }
    {
        ActivePattern {
            pattern: 0,
            plan: no_plan(),
            options: SplitOptions::of(tables, 0),
            services: [0; 16],
            layout,
        }
    }

    /// A pattern that is defined.
    fn of(tables: &Tables, pattern: u8) -> ActivePattern
        requires defined { is_defined tables.now pattern ≡ true }
        ensures is { ActivePatternIs result tables.now pattern }
        ensures pattern { result.pattern ≡ pattern }
    {
        let plan = plan(tables, pattern);
        ActivePattern {
            pattern,
            options: SplitOptions::of(tables, pattern),
            services: services(tables),
            layout: Layout::of(tables, plan.sequence),
            plan,
        }
    }

    /// Keeps the pattern that this mode seeks or is coordinated in. Where it is kept already, nothing is done.
    pub fn follow(&mut self, tables: &Tables, mode: Mode)
        ensures stands { ActivePatternStands self.old tables.now → ActivePatternStands self.new tables.now }
        ensures bound { ActivePatternStands self.old tables.now → Names tables.now mode → IsBound self.new tables.now mode }
    {
        match mode {
            Mode::Seek(pattern) => self.keep(tables, pattern),
            Mode::Coord(pattern) => self.keep(tables, pattern),
            _ => {}
        }
    }

    /// Keeps a pattern, where it is defined.
    fn keep(&mut self, tables: &Tables, pattern: u8)
        ensures stands { ActivePatternStands self.old tables.now → ActivePatternStands self.new tables.now }
        ensures is { ActivePatternStands self.old tables.now → is_defined tables.now pattern ≡ true → ActivePatternIs self.new tables.now pattern }
    {
        if self.pattern == pattern {
            return;
        }
        if is_defined(tables, pattern) {
            *self = ActivePattern::of(tables, pattern);
        }
    }

    /// The plan of the pattern as a gate.
    fn gate(&self) -> Gate<'_>
        ensures gate { (t : Tables) (n : ℕ) → ActivePatternIs self.now t n → GateStands result t n }
    {
        Gate {
            plan: &self.plan,
            coordinated: self.options.coordinated,
            services: &self.services,
        }
    }

    /// The coordinated phase of each ring, as a set.
    pub fn coordinated_pair(&self) -> PhaseSet
        ensures pair { (t : Tables) (n : ℕ) → ActivePatternIs self.now t n → Has result (is_in (coordinated_phases t n)) }
    {
        let coordinated = self.plan.coordinated;
        PhaseSet::of(coordinated[0]).union(PhaseSet::of(coordinated[1]))
    }

    /// The target of the pattern's counter at this time of the day.
    pub fn target(&self, clock: u32) -> u32
        requires of_day { clock < 864000 }
        ensures planned { result ≡ planned_target self.now.plan clock }
        ensures target { (t : Tables) (n : ℕ) → ActivePatternIs self.now t n → result ≡ target_at t n clock }
        ensures below { result < self.now.plan.cycle }
    {
        let plan = &self.plan;
        let offset = plan.offset % plan.cycle;
        ((u64::from(clock) + u64::from(plan.shift) + u64::from(plan.cycle - offset))
            % u64::from(plan.cycle)) as u32
    }

    /// Those of the phases that have room where they begin N ticks after this counter.
    pub fn with_room(&self, counter: u32, after: u32, among: PhaseSet) -> PhaseSet
        ensures room { (t : Tables) (n : ℕ) → ActivePatternIs self.now t n
            → Has result (λ p. has among p && has_room (Some n) t counter after p) }
    {
        self.gate().with_room(counter, after, among)
    }

    /// Those of the phases that the pattern forces off at this counter.
    pub fn forced(&self, counter: u32, among: PhaseSet) -> PhaseSet
        ensures forced { (t : Tables) (n : ℕ) → ActivePatternIs self.now t n
            → Has result (λ p. has among p && is_forced_off (Some n) t counter p) }
    {
        self.gate().forced(counter, among)
    }
}
