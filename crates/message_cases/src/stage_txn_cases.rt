//! Downloads call by call, with the answers worked out by hand from the table of answers.

ghost use Rattle.std.specs.Prelude.{◌≤◌};

use sig_tables::{Cell, CellValue, Tables};
use sig_types::{Broken, StageAnswer};
use stage_txn::Stage;

/// The yellow change of a phase, in tenths of a second.
fn yellow(phase: u8, tenths: u32) -> (Cell, CellValue) {
    (Cell::Phase { phase, column: 8 }, CellValue::Number(tenths))
}

#[test]
fn each_answer_comes_at_its_call(rt: HostRuntime) {
    let tables = Tables::std8();
    let cells = [yellow(2, 30), yellow(6, 30)];
    let mut stage = Stage::new();
    assert!(rt; stage.state() == 1);
    assert!(rt; stage.begin(7, &tables) == StageAnswer::Staged);
    assert!(rt; stage.part(7, 1, &cells) == StageAnswer::Staged);
    assert!(rt; stage.part(7, 1, &cells) == StageAnswer::Repeated);
    assert!(rt; stage.part(7, 3, &cells) == StageAnswer::WrongPart(2));
    assert!(rt; stage.begin(7, &tables) == StageAnswer::Repeated);
    assert!(rt; stage.begin(6, &tables) == StageAnswer::WrongToken);
    assert!(rt; stage.finish(7, &tables, false) == StageAnswer::NotVerified);
    assert!(rt; stage.verify(7, 2, &tables, false) == StageAnswer::WrongPart(2));
    assert!(rt; stage.state() == 2);
    assert!(rt; stage.verify(7, 1, &tables, false) == StageAnswer::Verified);
    assert!(rt; stage.state() == 3);
    assert!(rt; stage.finish(7, &tables, false) == StageAnswer::Accepted);
    assert!(rt; stage.state() == 6);
    assert!(rt; stage.finish(7, &tables, false) == StageAnswer::Repeated);
    assert!(rt; stage.part(6, 1, &cells) == StageAnswer::WrongToken);
    assert!(rt; stage.part(7, 1, &cells) == StageAnswer::Repeated);
    assert!(rt; stage.part(7, 2, &cells) == StageAnswer::WrongPart(2));
    assert!(rt; stage.last() == Some(StageAnswer::WrongPart(2)));
    assert!(rt; stage.staged().phase(2).yellow_change == 30);
    assert!(rt; tables.phase(2).yellow_change == 40);
}

#[test]
fn a_refused_download_is_open_and_can_be_mended(rt: HostRuntime) {
    let tables = Tables::std8();
    let short = Broken { rule: 10, row: 3 };
    let mut stage = Stage::new();
    assert!(rt; stage.begin(1, &tables) == StageAnswer::Staged);
    assert!(rt; stage.part(1, 1, &[yellow(3, 29)]) == StageAnswer::Staged);
    assert!(rt; stage.verify(1, 1, &tables, false) == StageAnswer::Refused(short));
    assert!(rt; stage.state() == 2);
    assert!(rt; stage.part(1, 2, &[yellow(3, 30)]) == StageAnswer::Staged);
    assert!(rt; stage.verify(1, 2, &tables, false) == StageAnswer::Verified);
    assert!(rt; stage.begin(2, &tables) == StageAnswer::Staged);
    assert!(rt; stage.finish(1, &tables, false) == StageAnswer::WrongToken);
    assert!(rt; stage.verify(2, 0, &tables, false) == StageAnswer::Verified);
}
