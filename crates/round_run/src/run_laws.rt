//! What the books of a round mean for a run. The function has nothing to do.

ghost use Rattle.std.specs.Prelude.{ℕ, ◌≡◌, ◌∷◌, ◌++◌, List, [], length};
ghost use Rattle.sig_types.specs.Items.{Item};
ghost use Rattle.sig_types.specs.Passes.{number_of};
ghost use Rattle.sig_types.specs.declared.streams.Stream.{Stream};
ghost use Rattle.scenario_data.specs.Content.{ScenarioContent};
ghost use Rattle.cabinet_history.specs.CabinetHistory.{CabinetHistory, after};
ghost use Rattle.cabinet_history.specs.Journals.{Act, items_in};
ghost use Rattle.cabinet_history.specs.CabinetAnswers.{acts_replies};
ghost use Rattle.run_definition.specs.CabinetState.{CabinetState, answers_in, next_cabinet_state, each_cabinet_state, round_acts};
ghost use Rattle.run_definition.specs.Lines.{acts_lines, cabinet_lines};
ghost use Rattle.cab_book.specs.declared.book.Book.{Book as BookRow};
ghost use Rattle.cab_book.specs.Books.{BookStands, IsBroughtAtEnd, journal_of, written_in, answered_in};
ghost use Rattle.cab_book.specs.Happenings.{AreInOrder};
ghost use Rattle.round_run.specs.CabinetStates.{IsAt, AreAt, AreTicks, HasCome, HasRun, HaveEnded, HaveNoTicks, HaveRun, state_by_acts};
ghost use Rattle.round_run.specs.Replied.{replied_in};
ghost use Rattle.round_run.specs.Lines.{book_lines, new_frame_lines, new_reply_lines};

/// A book to which nothing was brought is at what its cabinet history says. After a round a book is at what the cabinet
/// has reached by the round's journal, and what it replied is what the round adds to the answers. The lines of the
/// cabinet's round are those that are written of its book, in whose replies no two are out of order.
pub fn books_follow_runs()
    ensures new { (b : BookRow) (t : CabinetState) → BookStands b t.cabinet_history → journal_of b ≡ [] → IsAt b t }
    ensures next { (s : ScenarioContent) (cab : ℕ) (t : CabinetState) (journal : List ℕ) (b : BookRow)
        → HasRun s cab t journal b → IsAt b (next_cabinet_state s cab t journal) }
    ensures all { (s : ScenarioContent) (ts : List CabinetState) (journals : List (List ℕ)) (books : List BookRow)
        → HaveRun s ts journals books → AreAt books (each_cabinet_state s 1 ts journals) }
    ensures ended { (s : ScenarioContent) (ts : List CabinetState) (journals : List (List ℕ)) (books : List BookRow)
        → HaveRun s ts journals books → HaveEnded ts (each_cabinet_state s 1 ts journals) books }
    ensures replied { (s : ScenarioContent) (cab : ℕ) (t : CabinetState) (journal : List ℕ) (b : BookRow)
        → HasRun s cab t journal b → (next_cabinet_state s cab t journal).answered ≡ replied_in b ∷ t.answered }
    ensures lines { (s : ScenarioContent) (cab : ℕ) (t : CabinetState) (journal : List ℕ) (b : BookRow)
        → HasRun s cab t journal b → cabinet_lines s cab t journal ≡ book_lines cab b }
    ensures order { (s : ScenarioContent) (cab : ℕ) (t : CabinetState) (journal : List ℕ) (b : BookRow)
        → HasRun s cab t journal b → AreInOrder 0 (answered_in b) (length (written_in b)) }
{}

/// A book that has run a journal is in the state that the journal brings. A book to which acts were applied is in the
/// state to which they bring the cabinet, and its replies are theirs. An item that is brought after all others of its
/// stream is an act more. Of acts that follow others, only ticks have the lines of the frames that are new in the book,
/// and acts without a tick those of the new replies.
pub fn books_follow_acts()
    ensures run { (s : ScenarioContent) (cab : ℕ) (t : CabinetState) (journal : List ℕ) (b : BookRow)
        → HasRun s cab t journal b → HasCome t (round_acts s cab t journal) b }
    ensures at { (t : CabinetState) (acts : List Act) (b : BookRow) → HasCome t acts b → IsAt b (state_by_acts t acts) }
    ensures replied { (t : CabinetState) (acts : List Act) (b : BookRow) → HasCome t acts b
        → replied_in b ≡ answers_in (acts_replies t.cabinet_history acts) }
    ensures brought { (t : CabinetState) (acts : List Act) (old new : BookRow) (stream : Stream) (item : Item) → HasCome t acts old
        → IsBroughtAtEnd old new stream item → HasCome t (acts ++ record { pass = number_of stream; item = item } ∷ []) new }
    ensures ticks { (cab : ℕ) (t : CabinetState) (acts more : List Act) (old new : BookRow) → HasCome t acts old → HasCome t (acts ++ more) new
        → AreTicks more → acts_lines cab (after t.cabinet_history (items_in acts)) more ≡ new_frame_lines cab old new }
    ensures others { (cab : ℕ) (t : CabinetState) (acts more : List Act) (old new : BookRow) → HasCome t acts old → HasCome t (acts ++ more) new
        → HaveNoTicks more → acts_lines cab (after t.cabinet_history (items_in acts)) more ≡ new_reply_lines cab old new }
{}
