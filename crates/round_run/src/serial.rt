//! The serial order of a round: cabinet after cabinet, stream after stream, all that is left to come.
//! Ticks are brought in strides.

ghost use Rattle.std.specs.Prelude.{ℕ, ◌≡◌, ◌≢◌, ◌<◌, ◌≤◌, ◌+◌, ◌++◌, List, [], length, replicate, take, get_or, vec_capacity};
ghost use Rattle.sig_types.specs.Passes.{number_of};
ghost use Rattle.scenario_data.specs.Content.{ScenarioContent};
ghost use Rattle.cabinet_history.specs.CabinetHistory.{CabinetHistory};
ghost use Rattle.cabinet_history.specs.Journals.{serial};
ghost use Rattle.cab_book.specs.declared.book.Book.{Book as BookRow};
ghost use Rattle.cab_book.specs.Books.{BookStands, streams_in, journal_of, left_of, ticks_by_end};
ghost use Rattle.run_definition.specs.CabinetState.{CabinetState, coming_streams};
ghost use Rattle.run_definition.specs.Orders.{serial_round as serial_journals};
ghost use Rattle.round_run.specs.CabinetStates.{HasRun, HaveRun, no_journals, TicksWithin};
ghost use Rattle.round_run.specs.Joined.{BringsSome, Finishes};

use cab_book::Book;
use sig_types::Stream;

/// Brings the next item of a stream, or of ticks the next ones up to the first whose frame has a line: how many these are.
fn bring_some(book: &mut Book, stream: Stream) -> u32
    requires { 0 < left_of book.old (number_of stream) }
    ensures brings { BringsSome book.old book.new stream result }
    ensures some { 1 ≤ result }
{
    let pass = stream.number();
    if stream == Stream::Ticks {
        let left = book.left(pass);
        return book.stride(pass, left);
    }
    book.apply(pass);
    1
}

/// Brings all that is left of a stream.
fn bring_all(book: &mut Book, stream: Stream)
    ensures stands { (cabinet_history : CabinetHistory) → BookStands book.old cabinet_history → BookStands book.new cabinet_history }
    ensures streams { streams_in book.new ≡ streams_in book.old }
    ensures journal { journal_of book.new ≡ journal_of book.old ++ replicate (left_of book.old (number_of stream)) (number_of stream) }
    ensures own { left_of book.new (number_of stream) ≡ 0 }
    ensures others { (p : ℕ) → p ≢ number_of stream → left_of book.new p ≡ left_of book.old p }
    ensures ticks { ticks_by_end book.new ≡ ticks_by_end book.old }
{
    while book.left(stream.number()) > 0 {
        bring_some(book, stream);
    }
}

/// What a round brings to a cabinet before any tick: all inputs, and then the frames of each of the three streams. It takes no memory.
pub fn bring_beginning(book: &mut Book)
    ensures run { (s : ScenarioContent) (cab : ℕ) (t : CabinetState) → HasRun s cab t [] book.old
        → HasRun s cab t (serial (take 4 (coming_streams s cab t))) book.new }
    ensures streams { streams_in book.new ≡ streams_in book.old }
    ensures none { (pass : ℕ) → pass < 4 → left_of book.new pass ≡ 0 }
    ensures others { (pass : ℕ) → 4 ≤ pass → left_of book.new pass ≡ left_of book.old pass }
    ensures ticks { ticks_by_end book.new ≡ ticks_by_end book.old }
{
    for pass in 0..4 {
        bring_all(book, Stream::of_pass(pass));
    }
}

/// Brings all that is left to arrive at a cabinet in a round, stream after stream; the ticks are made those of one pass
/// first.
fn bring_round(book: &mut Book)
    ensures run { (s : ScenarioContent) (cab : ℕ) (t : CabinetState) → HasRun s cab t [] book.old
        → HasRun s cab t (serial (coming_streams s cab t)) book.new }
    ensures finishes { Finishes book.old book.new }
    ensures ticks { ticks_by_end book.new ≡ ticks_by_end book.old }
{
    book.join_ticks();
    for pass in 0..5 {
        bring_all(book, Stream::of_pass(pass));
    }
}

/// All that is left for the cabinets in a round is brought, one cabinet after another: the inputs from the street, the
/// frames of the three streams of messages, and the ticks. It takes no memory.
pub fn serial_round(books: &mut Vec<Book>)
    ensures many { length books.new.items ≡ length books.old.items }
    ensures run { (s : ScenarioContent) (ts : List CabinetState) → HaveRun s ts (no_journals ts) books.old.items
        → HaveRun s ts (serial_journals s 1 ts) books.new.items }
    ensures finishes { (k : ℕ) (b : BookRow) → k < length books.old.items → Finishes (get_or books.old.items k b) (get_or books.new.items k b) }
    ensures ticks { (most : ℕ) → TicksWithin most books.old.items → TicksWithin most books.new.items }
    ensures room { vec_capacity books.new ≡ vec_capacity books.old }
{
    for k in 0..books.len() {
        bring_round(&mut books[k]);
    }
}
