//! The mode of a tick before its colours are known, and the pattern that is kept for it.

ghost use Rattle.std.specs.Prelude.{◌≡◌, ◌<◌};

use crate::{Engine, Memory};
use flash_mode::{Choice, sought};
use sig_types::Mode;

impl<M: Memory> Engine<M> {
    ghost use Rattle.sig_tables.specs.Past.{Past};
    ghost use Rattle.sig_tables.specs.Command.{command_now};
    ghost use Rattle.sig_tables.specs.Seen.{mode_seen};
    ghost use Rattle.tick_context.specs.Binds.{IsBound};
    ghost use Rattle.engine.specs.EngineStands.{EngineKeeps, tick_count, install_count};

    /// The mode of this tick before its colours are known, with this pattern in command.
    pub(crate) fn mode(&self, command: u8) -> Mode
        requires few { tick_count M.frames self.now < 4294967295 }
        ensures mode { (past : Past) → EngineKeeps M.remembers self.now past → command ≡ command_now past → result ≡ mode_seen past }
    {
        let choice = Choice {
            tables: &self.context.tables,
            version: self.context.version,
            command,
            shown: &self.context.frame,
            start_run: self.memory.start_run(),
        };
        sought(&choice, self.memory.stage(&self.context))
    }

    /// Keeps the pattern that this mode, which is that of this tick, seeks or is coordinated in.
    pub(crate) fn follow(&mut self, mode: Mode)
        ensures keeps { (past : Past) → EngineKeeps M.remembers self.old past → EngineKeeps M.remembers self.new past }
        ensures bound { (past : Past) → EngineKeeps M.remembers self.old past → mode ≡ mode_seen past
            → IsBound self.new.context.active_pattern past.tables mode }
        ensures ticks { tick_count M.frames self.new ≡ tick_count M.frames self.old }
        ensures installs { install_count self.new ≡ install_count self.old }
    {
        self.context.follow(mode);
    }
}
