//! What a row asks of a book: a journal of the passes that brought its items, and how many items each has left. Nothing else of a
//! book matters here, so that a row serves any value that keeps a journal.
ghost use Rattle.std.specs.Prelude.{◌≡◌, ◌≢◌, ℕ, ◌+◌, ◌<◌, ◌≤◌, List, [], ◌∷◌, ◌++◌, replicate};

/// A value that passes change item by item, and that keeps a journal of them.
pub trait Logged {
    // The passes that brought the items applied so far, in order.
    ghost journal: { Self → List ℕ };
    // How many items each pass has left.
    ghost left_of: { Self → ℕ → ℕ };
    // The second value is what the first one comes to by the second one's journal.
    ghost replays: { Self → Self → Type 0 };

    /// How many items the pass has left.
    fn left(&self, pass: u32) -> u32
        ensures { result ≡ left_of self.now pass };

    /// Applies the pass's next item. It takes no memory.
    fn apply(&mut self, pass: u32)
        requires { 0 < left_of self.old pass }
        ensures journal { journal self.new ≡ journal self.old ++ pass ∷ [] }
        ensures own { left_of self.new pass + 1 ≡ left_of self.old pass }
        ensures others { (p : ℕ) → p ≢ pass → left_of self.new p ≡ left_of self.old p }
        ensures replays { (first : Self) → replays first self.old → replays first self.new };

    /// Applies the next items of the pass, at least one and at most that many: how many these are. It takes no memory.
    /// A value that says nothing of it applies one.
    fn apply_some(&mut self, pass: u32, most: u32) -> u32
        requires some { 1 ≤ most }
        requires within { most ≤ left_of self.old pass }
        ensures journal { journal self.new ≡ journal self.old ++ replicate result pass }
        ensures own { left_of self.new pass + result ≡ left_of self.old pass }
        ensures others { (p : ℕ) → p ≢ pass → left_of self.new p ≡ left_of self.old p }
        ensures replays { (first : Self) → replays first self.old → replays first self.new }
        ensures some { 1 ≤ result }
        ensures most { result ≤ most }
    {
        let _ = most;
        self.apply(pass);
        1
    }

    // A value with an empty journal is its own replay.
    ghost fresh: { (x : Self) → journal x ≡ [] → replays x x };
}
