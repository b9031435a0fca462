//! What takes the lines of a trace.

ghost use Rattle.std.specs.Prelude.{◌≡◌, List, [], ◌∷◌};
ghost use Rattle.trace_text.specs.declared.lines.Line.{Line as LineRow};
ghost use Rattle.trace_text.specs.declared.lines.Line.TheVariants.{J as JRow, A as ARow};
ghost use Rattle.trace_tell.specs.Telling.{TellsLines, TellerLaws};

use sig_types::Octets;
use trace_text::Line;

/// Takes the lines of a trace one after another, and may stop with an error.
pub trait Teller {
    /// Why it stopped.
    type Fail;

    /// From the first state to the second it took all of these lines.
    ghost told: { Self → Self → List LineRow → Type 0 };

    /// From the first state to the second it took some of these lines at most, and stopped with this error.
    ghost stopped: { Self → Self → Self.Fail → List LineRow → Type 0 };

    /// The error if memory was refused.
    ghost out_of_memory: { Self.Fail };

    /// Takes one line.
    fn tell(&mut self, line: &Line) -> Result<(), Self::Fail>
        ensures { TellsLines told stopped result self.old self.new (line.now ∷ []) };

    /// Takes the J line of a cabinet with these runs, which are copied only if the teller needs a copy.
    fn tell_journal(&mut self, cab: u32, runs: &[(u32, u32)]) -> Result<(), Self::Fail>
        ensures { TellsLines told stopped result self.old self.new (JRow cab runs.now ∷ []) };

    /// Takes the A line of a cabinet: the octets of a reply, or silence. They are copied only if the teller needs a copy.
    fn tell_answer(
        &mut self,
        cab: u32,
        pass: u32,
        octets: &Option<Octets>,
    ) -> Result<(), Self::Fail>
        ensures { TellsLines told stopped result self.old self.new (ARow cab pass octets.now ∷ []) };

    /// The error for a run that ends early because memory was refused.
    fn no_memory() -> Self::Fail
        ensures { result ≡ out_of_memory };

    /// Lines that are taken one after another are taken all together; a teller that stops in the first lines stops in all of them.
    ghost laws: { TellerLaws told stopped out_of_memory };
}
