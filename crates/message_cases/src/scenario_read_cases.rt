//! What a scenario holds. Which text is refused, and for which first fault, is in `vectors/refusals.jsonl`.

use scenario_data::{Base, Direction, Entry, Fault, FaultKind, PriorityAct, opening_tables};
use scenario_read::{read, text};
use sig_tables::{Cell, CellValue, Tables};
use sig_types::{Field, Request, Way};
use std::test::Fail;

const STREET: &str =
    "{\"version\":1, \"ticks\":5, \"rounds\":2, \"cabinets\":[{\"base\":\"max8\",\"clock\":7,\"cells\":[[\"phase\",2,8,41],[\"phase\",2,8,42],[\"sequence\",2,1,\"01020304\"],[\"sequence\",2,2,\"05060708\"]]},{}], \"inputs\":[{\"cabinet\":2,\"on\":false,\"round\":1,\"veh\":3},{\"cabinet\":1,\"ped\":2,\"round\":2}]}";

const STREET_COMPACT: &str =
    "{\"cabinets\":[{\"base\":\"max8\",\"cells\":[[\"phase\",2,8,41],[\"phase\",2,8,42],[\"sequence\",2,1,\"01020304\"],[\"sequence\",2,2,\"05060708\"]],\"clock\":7},{}],\"inputs\":[{\"cabinet\":2,\"on\":false,\"round\":1,\"veh\":3},{\"cabinet\":1,\"ped\":2,\"round\":2}],\"rounds\":2,\"ticks\":5,\"version\":1}";

#[test]
fn a_scenario_holds_what_its_text_says(rt: HostRuntime) -> Result<(), Fail> {
    let alloc = rt.alloc();
    let Ok(scenario) = read(alloc, STREET.as_bytes()) else {
        return Err(Fail::from("no scenario"));
    };
    assert!(rt; scenario.rounds == 2 && scenario.ticks == 5 && scenario.version == 1);
    assert!(rt; scenario.community.as_slice() == "public".as_bytes());
    assert!(rt; scenario.master.retries == 3);
    let [first, second] = scenario.cabinets.as_slice() else {
        return Err(Fail::from("other cabinets"));
    };
    assert!(rt;
        first.base == Base::Max8 && first.clock == 7 && first.section == 1 && first.pattern == 0
    );
    assert!(rt; first.cells.len() == 4);
    assert!(rt; second.base == Base::Std8 && second.clock == 0);
    let [detector, button] = scenario.inputs.as_slice() else {
        return Err(Fail::from("other inputs"));
    };
    assert!(rt;
        detector.round == 1
            && detector.cabinet == 2
            && detector.field
                == Field::Veh {
                    phase: 3,
                    on: false
                }
    );
    assert!(rt;
        button.round == 2 && button.cabinet == 1 && button.field == Field::Ped { phase: 2 }
    );
    let Ok(compact) = text(alloc, &scenario) else {
        return Err(Fail::from("no text"));
    };
    assert!(rt; compact.as_slice() == STREET_COMPACT.as_bytes());
    Ok(())
}

#[test]
fn cells_are_put_in_order_over_the_base(rt: HostRuntime) -> Result<(), Fail> {
    let alloc = rt.alloc();
    let Ok(scenario) = read(alloc, STREET.as_bytes()) else {
        return Err(Fail::from("no scenario"));
    };
    let [first, second] = scenario.cabinets.as_slice() else {
        return Err(Fail::from("other cabinets"));
    };
    let tables = opening_tables(first);
    assert!(rt;
        tables.get(Cell::Phase {
            phase: 2,
            column: 8
        }) == CellValue::Number(42)
    );
    assert!(rt; opening_tables(second) == Tables::std8());
    Ok(())
}

const WHOLE_FORM: &str =
    "{\"version\":2,\"ticks\":1,\"rounds\":3,\"cabinets\":[{\"pattern\":1,\"section\":2,\"lose\":12000}],\"community\":\"street\",\"master\":{\"clock\":5,\"pattern_every\":2,\"schedule\":[{\"second\":10,\"section\":2,\"pattern\":1}]},\"inputs\":[{\"round\":1,\"cabinet\":1,\"preempt\":8,\"on\":true}],\"loads\":[{\"round\":2,\"cabinet\":1,\"cells\":[[\"unit\",2,90]]}],\"priority\":[{\"round\":1,\"cabinet\":1,\"number\":1,\"class\":2,\"level\":3,\"phase\":2,\"arrival\":5,\"departure\":600},{\"round\":2,\"cabinet\":1,\"cancel\":1}],\"frames\":[{\"round\":3,\"cabinet\":1,\"stream\":\"load\",\"hex\":\"30820C\"}],\"faults\":[{\"round\":1,\"cabinet\":1,\"stream\":\"priority\",\"way\":\"up\",\"kind\":\"cut\"}]}";

#[test]
fn a_scenario_holds_what_stands_for_its_whole_run(rt: HostRuntime) -> Result<(), Fail> {
    let alloc = rt.alloc();
    let Ok(scenario) = read(alloc, WHOLE_FORM.as_bytes()) else {
        return Err(Fail::from("no scenario"));
    };
    assert!(rt; scenario.version == 2 && scenario.community.as_slice() == "street".as_bytes());
    let [cabinet] = scenario.cabinets.as_slice() else {
        return Err(Fail::from("other cabinets"));
    };
    assert!(rt;
        cabinet.pattern == 1 && cabinet.section == 2 && cabinet.gain == 0 && cabinet.lose == 12000
    );
    let master = &scenario.master;
    assert!(rt; master.clock == 5 && master.pattern_every == 2 && master.poll_every == 0);
    assert!(rt;
        master.retries == 3
            && master.schedule.as_slice()
                == [Entry {
                    second: 10,
                    section: 2,
                    pattern: 1
                }]
                .as_slice()
    );
    Ok(())
}

#[test]
fn a_scenario_holds_its_inputs_loads_and_requests(rt: HostRuntime) -> Result<(), Fail> {
    let alloc = rt.alloc();
    let Ok(scenario) = read(alloc, WHOLE_FORM.as_bytes()) else {
        return Err(Fail::from("no scenario"));
    };
    let ([input], [load], [request, cancel]) = (
        scenario.inputs.as_slice(),
        scenario.loads.as_slice(),
        scenario.priority.as_slice(),
    ) else {
        return Err(Fail::from("other inputs, loads or requests"));
    };
    assert!(rt;
        input.field
            == Field::Preempt {
                number: 8,
                on: true
            }
    );
    assert!(rt;
        load.round == 2
            && load.cells.as_slice() == [(Cell::Unit(2), CellValue::Number(90))].as_slice()
    );
    assert!(rt;
        request.act
            == PriorityAct::Request(Request {
                number: 1,
                class: 2,
                level: 3,
                phase: 2,
                arrival: 5,
                departure: 600
            })
    );
    assert!(rt; cancel.round == 2 && cancel.act == PriorityAct::Cancel(1));
    Ok(())
}

#[test]
fn a_scenario_holds_its_frames_and_faults(rt: HostRuntime) -> Result<(), Fail> {
    let alloc = rt.alloc();
    let Ok(scenario) = read(alloc, WHOLE_FORM.as_bytes()) else {
        return Err(Fail::from("no scenario"));
    };
    let ([frame], [fault]) = (scenario.frames.as_slice(), scenario.faults.as_slice()) else {
        return Err(Fail::from("other frames or faults"));
    };
    assert!(rt; frame.stream == Way::Load && frame.hex.as_slice() == [0x30, 0x82, 0x0c].as_slice());
    assert!(rt;
        *fault
            == Fault {
                round: 1,
                cabinet: 1,
                stream: Way::Prio,
                way: Direction::Up,
                index: 0,
                kind: FaultKind::Cut,
                by: 1,
                octet: 1
            }
    );
    Ok(())
}
