//! The rule of a row's table, and what each step on it says. These types have no values that are used: they name facts
//! for the proofs.
ghost use Rattle.std.specs.Prelude.{map};
ghost use Rattle.cab_row.specs.Views.{first_view, giver, newcomer, joined, spent};
ghost use Rattle.cab_row.specs.Rule.{RowKeeps};
ghost use Rattle.cab_row.specs.Plays.{looks, takes_book, finishes};

use crate::logged::Logged;
use crate::view::View;
use atomic_table::{Join, Play, Split, TableRule};
use std::snapshot::Snapshot;

/// What a row was opened with.
#[derive(Drop)]
pub struct Opening<B> {
    pub books: Snapshot<Vec<B>>,
    pub passes: u32,
}

/// The rule of a row.
pub struct RowRule;

impl<B: Logged> TableRule<B, View, Opening<B>> for RowRule {
    ghost holds = { λ key. RowKeeps B.row.coded.code B.journal B.left_of B.replays key.books.value.items key.passes };

    ghost first = { λ key. first_view (map B.row.coded.code key.books.value.items) key.passes };
}

/// A pass looks at the word of a cabinet.
pub struct Look;

impl<B> Play<B, View> for Look {
    ghost then = { looks };
}

/// A pass takes the book of a cabinet, if the word is still the one that it saw.
pub struct Take;

impl<B: Logged> Play<B, View> for Take {
    ghost then = { takes_book B.row.coded.code B.journal B.left_of B.replays };
}

/// A pass gives the book back, with the items that it applied.
pub struct Finish;

impl<B> Play<B, View> for Finish {
    ghost then = { finishes };
}

/// A further pass is given its number.
pub struct Deal;

impl Split<View> for Deal {
    ghost left = { giver };

    ghost right = { newcomer };
}

/// One seat takes over what another has counted.
pub struct Gather;

impl Join<View> for Gather {
    ghost both = { joined };

    ghost spent = { spent };
}
