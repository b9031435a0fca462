//! Where the program's bytes come from and go to, with their faults counted, and the gate that workers pass.
//! Everything above is generic over these three traits, so that contracts can name the bytes.
#![tactic(auto)]

ghost use Rattle.std.specs.Prelude.{◌≡◌, ◌<◌, ◌≤◌, ℕ, Bool, List, Option, take, length, IfOk, OnOk, OnErr, false};
ghost use Rattle.io_edge.specs.Edge.{Rises, Stays, Reads, Appends};

mod memory;
mod standard;

pub use memory::{MemSink, MemSource, OpenGate};
pub use standard::{StdSink, StdSource, SteadyRead, SteadyWrite};

/// A read or a write failed.
#[derive(Clone, Copy, PartialEq, Eq)]
pub struct Failed;

/// Where bytes come from.
pub trait Source {
    /// The bytes that are left, if it reports them.
    ghost left: { Self → Option (List ℕ) };

    /// How many faults there were.
    ghost faults: { Self → ℕ };

    /// Whether the count is exact: then no call that succeeds raises it.
    ghost counts_exactly: { Bool } = { false };

    /// Puts the next bytes at the front of a buffer that isn't empty, and says how many; 0 is the end of input.
    /// It fails only where the count of faults rises.
    fn read(&mut self, buf: &mut [u8]) -> Result<usize, Failed>
        requires { 0 < length buf.old }
        ensures count { IfOk result (λ n. n ≤ length buf.new) }
        ensures ok { IfOk result (λ n. Reads (left self.old) (left self.new) (take n buf.new)) }
        ensures fault { OnErr result (Rises (faults self.old) (faults self.new)) }
        ensures exact { OnOk result (Stays counts_exactly (faults self.old) (faults self.new)) }
        ensures kept { faults self.old ≤ faults self.new };
}

/// Where bytes go to.
pub trait Sink {
    /// The bytes that were written, if it reports them.
    ghost written: { Self → Option (List ℕ) };

    /// How many faults there were.
    ghost faults: { Self → ℕ };

    /// Whether the count is exact: then no call that succeeds raises it.
    ghost counts_exactly: { Bool } = { false };

    /// Appends the first bytes of the piece, and says how many: at least one, unless the piece is empty.
    /// It fails only where the count of faults rises, and then appends nothing.
    fn write(&mut self, piece: &[u8]) -> Result<usize, Failed>
        ensures count { IfOk result (λ n. n ≤ length piece.now) }
        ensures some { IfOk result (λ n. 0 < length piece.now → 0 < n) }
        ensures ok { IfOk result (λ n. Appends (written self.old) (written self.new) (take n piece.now)) }
        ensures err { OnErr result (written self.new ≡ written self.old) }
        ensures fault { OnErr result (Rises (faults self.old) (faults self.new)) }
        ensures exact { OnOk result (Stays counts_exactly (faults self.old) (faults self.new)) }
        ensures kept { faults self.old ≤ faults self.new };
}

/// What a worker passes before each act on a cabinet. It says nothing, and changes nothing that a contract names.
pub trait Gate {
    fn at(&self, pass: u32, cab: u32);
}
