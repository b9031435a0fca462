//! The books of the cabinets of a scenario, to which nothing has come.

ghost use Rattle.std.specs.Prelude.{◌≡◌, [], IfOk, map};
ghost use Rattle.scenario_data.specs.Content.{ScenarioContent, cabinet_content};
ghost use Rattle.runnable.specs.Runnable.{CanOpen, AllOpen};
ghost use Rattle.runnable.specs.Cabinets.{opening_history};
ghost use Rattle.cab_book.specs.Controls.{ControlStands, engine_of as control_engine};
ghost use Rattle.cabinet_history.specs.CabinetHistory.{opened};
ghost use Rattle.cab_book.specs.Books.{BookStands, engine_of, journal_of, ticks_by_end};
ghost use Rattle.run_definition.specs.CabinetState.{opened_cabinet_states};
ghost use Rattle.round_run.specs.CabinetStates.{AreAt, AreGivenBy, TicksWithin};

use crate::books_follow_runs;
use arrayvec::ArrayVec;
use cab_book::{Book, Cabinet, Control, Engine};
use scenario_data::{Cabinet as Setup, opening_tables, opening_tables_in_range};
use sig_types::NoMemory;
use std::alloc::Global;

/// The community of those who may ask, once more.
fn same_community(community: &ArrayVec<u8, 32>) -> ArrayVec<u8, 32>
    ensures { result.items ≡ community.now.items }
{
    let mut same = ArrayVec::new();
    // There is room for it, as there was for that one.
    let _ = same.try_extend_from_slice(community.as_slice());
    same
}

/// The control of a cabinet to which nothing has happened, but that its clock may drift.
fn control_of(alloc: Global, engine: Engine, setup: &Setup) -> Result<Control, NoMemory>
    requires { CanOpen (cabinet_content setup.now) }
    ensures stands { IfOk result (λ control. ControlStands control (opening_history (cabinet_content setup.now))) }
    ensures engine { IfOk result (λ control. control_engine control ≡ engine) }
{
    let opened = Control::open(
        alloc,
        engine,
        opening_tables(setup),
        setup.pattern,
        setup.clock,
    );
    match opened {
        Ok(mut control) => {
            control.drift(setup.gain, setup.lose);
            Ok(control)
        }
        Err(NoMemory) => Err(NoMemory),
    }
}

/// The book of this cabinet, to which nothing has come.
fn book_by(
    alloc: Global,
    control: Control,
    setup: &Setup,
    community: &ArrayVec<u8, 32>,
) -> Result<Book, NoMemory>
    requires can { CanOpen (cabinet_content setup.now) }
    requires control { ControlStands control (opening_history (cabinet_content setup.now)) }
    ensures stands { IfOk result (λ book. BookStands book (opened community.now.items (opening_history (cabinet_content setup.now)))) }
    ensures journal { IfOk result (λ book. journal_of book ≡ []) }
    ensures ticks { IfOk result (λ book. ticks_by_end book ≡ 0) }
    ensures engine { IfOk result (λ book. engine_of book ≡ control_engine control) }
{
    opening_tables_in_range();
    let cabinet = Cabinet::new(control, same_community(community));
    match Book::new(alloc, cabinet) {
        Ok(book) => Ok(book),
        Err(NoMemory) => Err(NoMemory),
    }
}

/// A cabinet to which nothing has come, in its book.
fn book_of(
    alloc: Global,
    engine: Engine,
    setup: &Setup,
    community: &ArrayVec<u8, 32>,
) -> Result<Book, NoMemory>
    requires { CanOpen (cabinet_content setup.now) }
    ensures stands { IfOk result (λ book. BookStands book (opened community.now.items (opening_history (cabinet_content setup.now)))) }
    ensures journal { IfOk result (λ book. journal_of book ≡ []) }
    ensures ticks { IfOk result (λ book. ticks_by_end book ≡ 0) }
    ensures engine { IfOk result (λ book. engine_of book ≡ engine) }
{
    match control_of(alloc, engine, setup) {
        Ok(control) => match book_by(alloc, control, setup, community) {
            Ok(book) => Ok(book),
            Err(NoMemory) => Err(NoMemory),
        },
        Err(NoMemory) => Err(NoMemory),
    }
}

/// The books of all cabinets, to which nothing has come, whose frames this engine gives.
pub fn open_books(
    alloc: Global,
    engine: Engine,
    setups: &[Setup],
    community: &ArrayVec<u8, 32>,
) -> Result<Vec<Book>, NoMemory>
    requires { AllOpen (map cabinet_content setups.now) }
    ensures at { IfOk result (λ books. (s : ScenarioContent) → s.community ≡ community.now.items
        → AreAt books.items (opened_cabinet_states s (map cabinet_content setups.now))) }
    ensures ticks { IfOk result (λ books. TicksWithin 0 books.items) }
    ensures engine { IfOk result (λ books. AreGivenBy engine books.items) }
{
    books_follow_runs();
    let mut books = Vec::new(alloc);
    for setup in setups {
        let book = match book_of(alloc, engine, setup, community) {
            Ok(book) => book,
            Err(NoMemory) => return Err(NoMemory),
        };
        if books.push(book).is_err() {
            return Err(NoMemory);
        }
    }
    Ok(books)
}
