//! What a pass knows of its own doings. Each step on a row's words is written into it, so that contracts can describe
//! what a pass saw and did; it exists only in proofs.
ghost use Rattle.std.specs.Prelude.{ℕ, List, Option};
ghost use Rattle.std.specs.Borrow.{ftrue};
ghost use Rattle.std.specs.Coded.{coded_option};
ghost use base.Stored.{Gv, coded_list, coded_ℕ, coded×};
ghost use Rattle.atomic_table.specs.Seated.{itself};

use std::marker::Model;

// What a seat knows. No value of it is made. Cabinets are counted from 0 here.
pub struct View {
    // The codes of the books that the row was opened with, and the number of its passes.
    pub ghost opening: { List Gv } by { coded_list itself },
    pub ghost passes: { ℕ },
    // How many pass numbers were given, at the seat that gives them; else 0.
    pub ghost given: { ℕ },
    // Its pass number, and the pass numbers whose counts it has.
    pub ghost number: { ℕ },
    pub ghost numbers: { List ℕ },
    // The pass and the cabinet of each item applied.
    pub ghost done: { List (ℕ × ℕ) } by { coded_list (coded× coded_ℕ coded_ℕ) },
    // The cabinet that it holds, if any, and the journal of the book that it took there.
    pub ghost holds: { Option ℕ } by { coded_option coded_ℕ },
    pub ghost taken: { List ℕ },
    // The number of its looks at words; the cabinet and the word found of the last, and of the one before.
    pub ghost looks: { ℕ },
    pub ghost last: { ℕ × ℕ } by { coded× coded_ℕ coded_ℕ },
    pub ghost before: { ℕ × ℕ } by { coded× coded_ℕ coded_ℕ },
}

impl Model for View {
    ghost also_owns = { λ _. ftrue };
}
