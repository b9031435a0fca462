//! The last commands of a cabinet: the commanded pattern, the clock and its drift. No step looks further back than
//! these: of the pattern the time is kept since it was commanded, after which the backup time ends it.

ghost use Rattle.std.specs.Prelude.{◌≡◌, ◌<◌, ◌≤◌, ◌+◌};

use sig_tables::Tables;

/// The ticks of a day.
const DAY: u32 = 864_000;

/// The pattern in command, 0 for none; for how many ticks it has been that; the clock, in ticks of the day; how many ticks
/// there were; and after how many ticks each time the clock gains one more, or loses one, 0 for never.
#[derive(Clone, Copy)]
pub struct UnitCommands {
    command: u8,
    since: u32,
    clock: u32,
    ticks: u32,
    gain: u32,
    lose: u32,
    ghost of_day: { clock < 864000 },
}

/// 1 where the number of a tick is a multiple of this, which is above 0; else 0.
fn one_each(many: u32, number: u32) -> u32
    ensures each { result ≡ one_each many number }
    ensures few { result ≤ 1 }
{
    if many != 0 && number % many == 0 {
        1
    } else {
        0
    }
}

ghost use Rattle.sig_tables.specs.Clock.{one_each};

impl UnitCommands {
    ghost use Rattle.sig_tables.specs.declared.tables.Tables.{Tables};
    ghost use Rattle.sig_tables.specs.Past.{Past, Moment, SetPattern, SetClock, SetDrift};
    ghost use Rattle.sig_tables.specs.Command.{is_commanded, is_backed_up, command_now};
    ghost use Rattle.sig_tables.specs.Clock.{clock_now};
    ghost use Rattle.sig_tables.specs.Showing.{command_shown, clock_shown};
    ghost use Rattle.sig_tables.specs.Decide.{past_of, opening_commands, with_event, with_moment};
    ghost use Rattle.tick_context.specs.UnitCommands.{UnitCommandsStand, SawUnitCommands, counted_ticks};
    ghost use Rattle.tick_context.specs.Even.{IsEven, UnitCommandsPassed, even_ticks};

    /// The unit commands that a cabinet is opened with.
    pub fn of(command: u8, clock: u32) -> UnitCommands
        requires of_day { clock < 864000 }
        ensures stands { (t : Tables) → UnitCommandsStand result (past_of t (opening_commands command clock)) }
        ensures ticks { counted_ticks result ≡ 0 }
    {
        UnitCommands {
            command,
            since: 0,
            clock,
            ticks: 0,
            gain: 0,
            lose: 0,
        }
    }

    /// Commands a pattern.
    pub fn pattern(&mut self, command: u8)
        ensures stands { (past : Past) → UnitCommandsStand self.old past → UnitCommandsStand self.new (with_event (SetPattern command) past) }
        ensures ticks { counted_ticks self.new ≡ counted_ticks self.old }
    {
        self.command = command;
        self.since = 0;
    }

    /// Sets the clock.
    pub fn set_clock(&mut self, clock: u32)
        requires of_day { clock < 864000 }
        ensures stands { (past : Past) → UnitCommandsStand self.old past → UnitCommandsStand self.new (with_event (SetClock clock) past) }
        ensures ticks { counted_ticks self.new ≡ counted_ticks self.old }
    {
        self.clock = clock;
    }

    /// Sets the drift of the clock.
    pub fn drift(&mut self, gain: u32, lose: u32)
        ensures stands { (past : Past) → UnitCommandsStand self.old past → UnitCommandsStand self.new (with_event (SetDrift gain lose) past) }
        ensures ticks { counted_ticks self.new ≡ counted_ticks self.old }
    {
        self.gain = gain;
        self.lose = lose;
    }

    /// The pattern commanded.
    pub fn command(&self) -> u8
        ensures command { (past : Past) → UnitCommandsStand self.now past → result ≡ command_shown past }
        ensures kept { result ≡ self.now.command }
    {
        self.command
    }

    /// The clock, in ticks of the day.
    pub fn clock(&self) -> u32
        ensures clock { (past : Past) → UnitCommandsStand self.now past → result ≡ clock_shown past }
        ensures kept { result ≡ self.now.clock }
        ensures of_day { result < 864000 }
    {
        self.clock
    }

    /// How many ticks there were.
    pub fn ticks(&self) -> u32
        ensures ticks { result ≡ counted_ticks self.now }
    {
        self.ticks
    }

    /// Whether the backup time of these tables, 0 for none, has passed since the pattern was commanded.
    fn is_backed_up(&self, tables: &Tables) -> bool
        ensures backed_up { (past : Past) → UnitCommandsStand self.now past → tables.now ≡ past.tables
            → result ≡ is_backed_up past.tables (is_commanded past.commanded) past.moments }
    {
        let backup = tables.unit().backup;
        backup != 0 && self.since >= 10 * u32::from(backup) - 1
    }

    /// The pattern in command at this tick.
    pub fn command_now(&self, tables: &Tables) -> u8
        ensures command { (past : Past) → UnitCommandsStand self.now past → tables.now ≡ past.tables → result ≡ command_now past }
    {
        if self.is_backed_up(tables) {
            0
        } else {
            self.command
        }
    }

    /// The clock at this tick.
    pub fn clock_now(&self) -> u32
        requires few { counted_ticks self.now < 4294967295 }
        ensures clock { (past : Past) → UnitCommandsStand self.now past → result ≡ clock_now past }
        ensures of_day { result < 864000 }
    {
        let number = self.ticks + 1;
        let clock = self.clock + 1 + one_each(self.gain, number) - one_each(self.lose, number);
        if clock < DAY { clock } else { clock - DAY }
    }

    /// One tick, at which this pattern was in command and the clock was so.
    pub fn step(&mut self, commanded: u8, clock: u32)
        requires few { counted_ticks self.old < 4294967295 }
        requires of_day { clock < 864000 }
        ensures stands { (past : Past) (m : Moment) → UnitCommandsStand self.old past → SawUnitCommands past m → commanded ≡ m.command → clock ≡ m.clock
            → UnitCommandsStand self.new (with_moment past m) }
        ensures ticks { counted_ticks self.new ≡ counted_ticks self.old + 1 }
    {
        self.command = commanded;
        self.clock = clock;
        self.since = self.since.saturating_add(1);
        self.ticks += 1;
    }

    /// For how many of the next ticks, at most N, the same pattern stays commanded and the clock rises by one at each
    /// within the day; 0 if the clock drifts.
    pub fn even(&self, tables: &Tables, most: u32) -> u32
        ensures is { result ≡ even_ticks self.now tables.now most }
        ensures within { result ≤ most }
        ensures even { 0 < result → IsEven self.now tables.now result }
    {
        if self.gain != 0 || self.lose != 0 {
            return 0;
        }
        let in_day = most.min(DAY - 1 - self.clock);
        let backup = u32::from(tables.unit().backup);
        if self.command == 0 || backup == 0 {
            in_day
        } else {
            in_day.min((10 * backup - 1).saturating_sub(self.since))
        }
    }

    /// Skips N such ticks.
    pub fn pass(&mut self, ticks: u32, tables: &Tables)
        requires few { counted_ticks self.old + ticks ≤ 4294967295 }
        requires even { IsEven self.old tables.now ticks }
        ensures passed { UnitCommandsPassed ticks self.old self.new }
    {
        self.since = self.since.saturating_add(ticks);
        self.clock += ticks;
        self.ticks += ticks;
    }
}
