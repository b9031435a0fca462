//! How a round follows from the rounds before it: what the master sends to a cabinet rests on what has arrived of the
//! cabinet's replies, and what reaches the cabinet on what was sent. The definitions are in specs/Rounds.antt; they are
//! apart since the master and the link know nothing of each other.
ghost use Rattle.std.specs.Prelude.{ℕ, ◌≡◌, ◌+◌, List, length};
ghost use Rattle.scenario_data.specs.Content.{ScenarioContent, CabinetContent};
ghost use Rattle.sig_types.specs.Replies.{Reply};
ghost use Rattle.master_rounds.specs.Rounds.{AreDelivered, arrivals, polls_sent, loads_sent};

/// A law: the master has one turn in each round so far and one in the round to come, and what the link delivers of what it sends
/// are the streams of the round to come.
pub fn rounds_close()
    ensures turns { (s : ScenarioContent) (cab : ℕ) (answered : List (List Reply)) → length (arrivals s cab answered) ≡ length answered + 1 }
    ensures polls { (s : ScenarioContent) (cab : ℕ) (c : CabinetContent) (answered : List (List Reply)) → length (polls_sent s cab c answered) ≡ length answered + 1 }
    ensures loads { (s : ScenarioContent) (cab : ℕ) (c : CabinetContent) (answered : List (List Reply)) → length (loads_sent s cab c answered) ≡ length answered + 1 }
    ensures delivered { (s : ScenarioContent) (cab : ℕ) (c : CabinetContent) (answered : List (List Reply)) → AreDelivered s cab c answered }
{}
