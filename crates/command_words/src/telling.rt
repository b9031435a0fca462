//! The commands, distinguished.

ghost use Rattle.std.specs.Prelude.{◌≡◌, ◌≤◌, ◌*◌, ◌∷◌, ◌↔◌, ℕ, List, [], IsTrue, codes, decimal, map, string_bytes};
ghost use Rattle.gen_arterial.specs.Written.{CanMake};
ghost use Rattle.command_words.specs.Words.{IsRun, seeding_words, CanSeed, AskFor};
ghost use Rattle.command_words.specs.declared.command.Seeding.{Seeding as SeedingRow};
ghost use Rattle.command_words.specs.declared.command.Command.{Command as CommandRow};

use crate::command::{Command, Seeding};
use crate::judges::terms_of;
use crate::numbers::{behind, option_number, optional_number};
use crate::overlaps::overlap_of;

/// Whether there is one word, and it is this one.
fn is_lone(words: &[String], name: &str) -> bool
    ensures { IsTrue result ↔ (map string_bytes words.now ≡ name.now ∷ []) }
{
    match behind(words, name) {
        Some(rest) => rest.is_empty(),
        None => false,
    }
}

/// By how many workers the words want a scenario run; with no number by none.
fn run_workers(words: &[String]) -> Option<u32>
    ensures { (n : ℕ) → (result ≡ Some n) ↔ IsRun (map string_bytes words.now) n }
{
    match behind(words, "run") {
        Some(rest) => optional_number(rest, "--workers", 8),
        None => None,
    }
}

/// Whether a scenario of this number of cabinets and rounds is generated.
fn can_make(cabinets: u32, rounds: u32) -> bool
    ensures { IsTrue result ↔ CanMake cabinets rounds }
{
    1 <= cabinets
        && cabinets <= 64
        && 1 <= rounds
        && rounds <= 86_400
        && u64::from(cabinets) * u64::from(rounds) <= 100_000
}

/// What the words after the name of a command say that a scenario is generated from.
fn given_seeding(words: &[String]) -> Option<Seeding>
    ensures { (from : SeedingRow) → (result ≡ Some from) ↔ ((map string_bytes words.now ≡ seeding_words from) × CanSeed from) }
{
    let (seed, behind_seed) = match option_number(words, "--seed") {
        Some(found) => found,
        None => return None,
    };
    let (cabinets, behind_cabinets) = match option_number(behind_seed, "--cabinets") {
        Some(found) => found,
        None => return None,
    };
    let (rounds, rest) = match option_number(behind_cabinets, "--rounds") {
        Some(found) => found,
        None => return None,
    };
    if !rest.is_empty() {
        return None;
    }
    if can_make(cabinets, rounds) {
        Some(Seeding {
            seed,
            cabinets,
            rounds,
        })
    } else {
        None
    }
}

/// What the words say that a scenario is generated from, where the first is the name of this command.
fn seeding_of(words: &[String], name: &str) -> Option<Seeding>
    ensures { (from : SeedingRow) → (result ≡ Some from) ↔ ((map string_bytes words.now ≡ name.now ∷ seeding_words from) × CanSeed from) }
{
    match behind(words, name) {
        Some(rest) => given_seeding(rest),
        None => None,
    }
}

/// Which command the words are.
pub fn command_of(words: &Vec<String>) -> Option<Command>
    ensures { (command : CommandRow) → (result ≡ Some command) ↔ AskFor (map string_bytes words.now.items) command }
{
    let words = words.as_slice();
    if let Some(workers) = run_workers(words) {
        return Some(Command::Run(workers));
    }
    if let Some(from) = seeding_of(words, "generate") {
        return Some(Command::Generate(from));
    }
    if let Some(from) = seeding_of(words, "survey") {
        return Some(Command::Survey(from));
    }
    if let Some(overlap) = overlap_of(words) {
        return Some(Command::Overlaps(overlap));
    }
    if let Some(terms) = terms_of(words) {
        return Some(Command::Judge(terms));
    }
    if is_lone(words, "check") {
        Some(Command::Check)
    } else if is_lone(words, "band") {
        Some(Command::Band)
    } else if is_lone(words, "respond") {
        Some(Command::Respond)
    } else if is_lone(words, "live") {
        Some(Command::Live)
    } else if is_lone(words, "--help") {
        Some(Command::Help)
    } else if is_lone(words, "--version") {
        Some(Command::Version)
    } else {
        None
    }
}
