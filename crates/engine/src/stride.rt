//! Strides: the ticks up to the next frame that has a line in a trace are taken in one call. Those at which nothing
//! that is shown can change are skipped at once.

ghost use Rattle.std.specs.Prelude.{◌≡◌, ◌<◌, ◌≤◌, ◌+◌, ℕ, suc, false};

use crate::{Engine, Memory};
use tick_context::has_line;

impl<M: Memory> Engine<M> {
    ghost use Rattle.sig_tables.specs.Past.{History};
    ghost use Rattle.sig_tables.specs.Decide.{ticked};
    ghost use Rattle.tick_context.specs.Strides.{IsStride, is_told, ticks_more};
    ghost use Rattle.engine.specs.EngineStands.{EngineStands, tick_count, install_count};

    /// Takes ticks until one gives a frame that has a line in a trace, but at most n, and returns how many: the lowest
    /// number from 1 to n whose frame has a line, or n if all frames are plain. A frame has a line if its colours or
    /// signals, mode or version differ from those of the frame before, or if it is a local zero.
    pub fn stride(&mut self, n: u32) -> u32
        requires some { 1 ≤ n }
        requires few { tick_count M.frames self.old + n ≤ 4294967295 }
        ensures least { (h : History) → EngineStands M.remembers self.old h → IsStride h n result }
        ensures stands { (h : History) → EngineStands M.remembers self.old h → EngineStands M.remembers self.new (ticks_more result h) }
        ensures some { 1 ≤ result }
        ensures within { result ≤ n }
        ensures counted { tick_count M.frames self.new ≡ tick_count M.frames self.old + result }
        ensures installs { install_count self.new ≡ install_count self.old }
    {
        let (ticks, _) = self.stride_told(n);
        ticks
    }

    /// The same, and whether the frame of the last of these ticks has a line.
    pub fn stride_told(&mut self, n: u32) -> (u32, bool)
        requires some { 1 ≤ n }
        requires few { tick_count M.frames self.old + n ≤ 4294967295 }
        ensures least { (h : History) → EngineStands M.remembers self.old h → IsStride h n result.0 }
        ensures told { (h : History) → EngineStands M.remembers self.old h → result.1 ≡ is_told h result.0 }
        ensures stands { (h : History) → EngineStands M.remembers self.old h → EngineStands M.remembers self.new (ticks_more result.0 h) }
        ensures some { 1 ≤ result.0 }
        ensures within { result.0 ≤ n }
        ensures counted { tick_count M.frames self.new ≡ tick_count M.frames self.old + result.0 }
        ensures installs { install_count self.new ≡ install_count self.old }
    {
        let mut done = 0;
        while done < n {
            let last = self.context.frame;
            let next = self.tick();
            done += 1;
            if has_line(&last, &next) {
                return (done, true);
            }
            done += self.pass_on(n - done);
        }
        (done, false)
    }
}
