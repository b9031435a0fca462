//! The items of a list of the scenario by the rounds and cabinets to which they belong: sorted once, and found by halving.

ghost use Rattle.std.specs.Prelude.{ℕ, ◌≡◌, ◌≤◌, ◌<◌, List, length, get_or, true, false, IfOk};
ghost use Rattle.std.specs.List.{filter};
ghost use Rattle.std.specs.List.Sorted.{IsSorted};
ghost use Rattle.std.specs.Ordering.{is_lt};
ghost use Rattle.link_sim.specs.Agenda.{is_of, by_round};

use sig_types::NoMemory;

/// An item of a list: its round, its cabinet, and its place in the list, counted from 0.
#[derive(Clone, Copy, PartialEq, Eq)]
pub struct Due {
    pub round: u32,
    pub cabinet: u32,
    pub place: usize,
}

/// The items of a list by round and cabinet; those of one round and cabinet in the order of the list.
#[derive(Drop)]
pub struct Agenda {
    sorted: Vec<Due>,
    ghost in_order: { IsSorted by_round sorted.items },
}

/// Whether an item comes before those of a round and a cabinet.
fn precedes(due: &Due, round: u32, cab: u32) -> bool
    ensures { result ≡ is_lt (by_round due.now (record { round = round; cabinet = cab; place = 0 })) }
{
    (due.round, due.cabinet).cmp(&(round, cab)).is_lt()
}

/// The place of the first of sorted items that isn't before those of a round and a cabinet.
fn first_of(sorted: &[Due], round: u32, cab: u32) -> usize
    requires in_order { IsSorted by_round sorted.now }
    ensures within { result ≤ length sorted.now }
    ensures before { (k : ℕ) → (d : Due) → k < result → is_of round cab (get_or sorted.now k d) ≡ false }
    ensures behind { (k : ℕ) → (d : Due) → result ≤ k → k < length sorted.now → is_lt (by_round (get_or sorted.now k d) (record { round = round; cabinet = cab; place = 0 })) ≡ false }
{
    sorted.partition_point(
        |due: &Due| -> bool
            ensures { result ≡ is_lt (by_round due.now (record { round = round; cabinet = cab; place = 0 })) }
        { precedes(due, round, cab) },
    )
}

/// The place from this one on up to which the items are of a round and a cabinet.
fn end_of(sorted: &[Due], from: usize, round: u32, cab: u32) -> usize
    requires { from ≤ length sorted.now }
    ensures front { from ≤ result }
    ensures within { result ≤ length sorted.now }
    ensures own { (k : ℕ) → (d : Due) → from ≤ k → k < result → is_of round cab (get_or sorted.now k d) ≡ true }
    ensures stop { (d : Due) → result < length sorted.now → is_of round cab (get_or sorted.now result d) ≡ false }
{
    let mut end = from;
    while end < sorted.len() && is_of(&sorted[end], round, cab) {
        end += 1;
    }
    end
}

/// The item is of this round and cabinet.
fn is_of(due: &Due, round: u32, cab: u32) -> bool
    ensures { result ≡ is_of round cab due.now }
{
    due.round == round && due.cabinet == cab
}

/// Those of sorted items that are of a round and a cabinet.
fn span(sorted: &[Due], round: u32, cab: u32) -> &[Due]
    requires in_order { IsSorted by_round sorted.now }
    ensures { result.now ≡ filter (is_of round cab) sorted.now }
{
    let from = first_of(sorted, round, cab);
    let end = end_of(sorted, from, round, cab);
    &sorted[from..end]
}

impl Agenda {
    ghost use Rattle.link_sim.specs.Sorted.{dues_in};

    /// The items in their order.
    pub fn new(dues: Vec<Due>) -> Result<Agenda, NoMemory>
        ensures { IfOk result (λ agenda. (round cab : ℕ) → filter (is_of round cab) (dues_in agenda) ≡ filter (is_of round cab) dues.items) }
    {
        let mut sorted = dues;
        match sorted.sort_by_key(|due| (due.round, due.cabinet)) {
            Ok(()) => Ok(Agenda { sorted }),
            Err(_) => Err(NoMemory),
        }
    }

    /// Those of a round and a cabinet, in the order of the list.
    pub fn of(&self, round: u32, cab: u32) -> &[Due]
        ensures { result.now ≡ filter (is_of round cab) (dues_in self.now) }
    {
        span(&self.sorted, round, cab)
    }
}
