//! What each kind of fault makes of frames on one line, and two rounds of a link, worked by hand.

ghost use Rattle.std.specs.Prelude.{◌≡◌, length, IfOk};

use arrayvec::ArrayVec;
use link_sim::{FaultList, Line, Link, StreamLine};
use scenario_data::{
    Base, Cabinet, Direction, Fault, FaultKind, FrameItem, FrameOctets, Input, MasterSetup,
    PriorityAct, PriorityItem, Scenario,
};
use sig_types::{Answers, Field, Octets, Sending, Way};
use std::test::Fail;

const LINE: Line = Line {
    cab: 1,
    way: Way::Poll,
    direction: Direction::Down,
};

fn fault(round: u32, index: u32, kind: FaultKind, by: u32, octet: u8) -> Fault {
    Fault {
        round,
        cabinet: 1,
        stream: Way::Poll,
        way: Direction::Down,
        index,
        kind,
        by,
        octet,
    }
}

fn frame(octets: &[u8]) -> Octets {
    let mut frame = Octets::new();
    let _ = frame.try_extend_from_slice(octets);
    frame
}

fn is(frames: &[Octets], due: &[&[u8]]) -> bool {
    if frames.len() != due.len() {
        return false;
    }
    for k in 0..frames.len() {
        if frames[k].as_slice() != due[k] {
            return false;
        }
    }
    true
}

#[test]
fn each_kind_of_fault(rt: HostRuntime) -> Result<(), Fail> {
    let faults = vec![in rt.alloc();
        fault(1, 4, FaultKind::Cut, 2, 1),
        fault(1, 0, FaultKind::Lose, 1, 1),
        fault(1, 1, FaultKind::Repeat, 1, 1),
        fault(1, 2, FaultKind::Late, 1, 1),
        fault(1, 3, FaultKind::Flip, 1, 255),
        fault(1, 3, FaultKind::Lose, 1, 1),
        fault(2, 0, FaultKind::Late, 0, 1),
        fault(2, 1, FaultKind::Flip, 9, 1),
    ]?;
    let Ok(list) = FaultList::new(rt.alloc(), &faults) else {
        return Err(Fail::from("no list"));
    };
    let mut stream_line = StreamLine::new(rt.alloc(), LINE);
    let first = [
        frame(&[1, 2, 3]),
        frame(&[4]),
        frame(&[5]),
        frame(&[6, 7, 8]),
        frame(&[9, 10, 11]),
        frame(&[12]),
    ];
    let Ok(arrived) = stream_line.carry(rt.alloc(), &list, 1, first.as_slice()) else {
        return Err(Fail::from("no memory"));
    };
    assert!(rt;
        is(
            &arrived,
            [
                [4].as_slice(),
                [4].as_slice(),
                [5].as_slice(),
                [6, 248, 8].as_slice(),
                [9, 10].as_slice(),
                [12].as_slice()
            ]
            .as_slice()
        )
    );
    let second = [frame(&[13]), frame(&[14])];
    let Ok(arrived) = stream_line.carry(rt.alloc(), &list, 2, second.as_slice()) else {
        return Err(Fail::from("no memory"));
    };
    assert!(rt;
        is(
            &arrived,
            [
                [13].as_slice(),
                [13].as_slice(),
                [14].as_slice(),
                [5].as_slice()
            ]
            .as_slice()
        )
    );
    Ok(())
}

/// One cabinet; in round 1 a button, a frame of the scenario and the cancel of a priority request, and the first poll is late.
fn scenario(rt: &HostRuntime) -> Result<Scenario, Fail>
    ensures cabinets { IfOk result (λ s. length s.cabinets.items ≡ 1) }
    ensures requests { IfOk result (λ s. length s.priority.items ≡ 1) }
{
    let mut community = ArrayVec::new();
    let _ = community.try_extend_from_slice(b"public".as_slice());
    Ok(Scenario {
        version: 1,
        rounds: 2,
        ticks: 10,
        community,
        cabinets: vec![in rt.alloc();
            Cabinet {
                base: Base::Std8,
                cells: Vec::new(rt.alloc()),
                pattern: 0,
                clock: 0,
                section: 1,
                gain: 0,
                lose: 0,
            },
        ]?,
        master: MasterSetup {
            clock: 0,
            poll_every: 0,
            clock_every: 0,
            pattern_every: 0,
            retries: 3,
            schedule: Vec::new(rt.alloc()),
        },
        inputs: vec![in rt.alloc();
            Input {
                round: 1,
                cabinet: 1,
                field: Field::Ped { phase: 2 },
            },
        ]?,
        loads: Vec::new(rt.alloc()),
        priority: vec![in rt.alloc();
            PriorityItem {
                round: 1,
                cabinet: 1,
                act: PriorityAct::Cancel(3),
            },
        ]?,
        frames: vec![in rt.alloc();
            FrameItem {
                round: 1,
                cabinet: 1,
                stream: Way::Poll,
                hex: FrameOctets::new(vec![in rt.alloc(); 7, 8]?),
            },
        ]?,
        faults: vec![in rt.alloc(); fault(1, 0, FaultKind::Late, 1, 1)]?,
        compact: Vec::new(rt.alloc()),
    })
}

/// The Set that cancels request 3 under the first id: community, id 2,000,000,000, the instance 1.3.6.1.4.1.32473.1.4.2.0.
const CANCEL: [u8; 48] = [
    0x30, 0x2e, 0x02, 0x01, 0x00, 0x04, 0x06, 0x70, 0x75, 0x62, 0x6c, 0x69, 0x63, 0xa3, 0x21, 0x02,
    0x04, 0x77, 0x35, 0x94, 0x00, 0x02, 0x01, 0x00, 0x02, 0x01, 0x00, 0x30, 0x13, 0x30, 0x11, 0x06,
    0x0c, 0x2b, 0x06, 0x01, 0x04, 0x01, 0x81, 0xfd, 0x59, 0x01, 0x04, 0x02, 0x00, 0x02, 0x01, 0x03,
];

#[test]
fn a_late_poll_comes_again_in_the_next_round(rt: HostRuntime) -> Result<(), Fail> {
    let s = scenario(&rt)?;
    let Ok(mut link) = Link::open(rt.alloc(), &s) else {
        return Err(Fail::from("no link"));
    };
    let sendings = vec![in rt.alloc();
        Sending {
            poll: Some(frame(&[1, 2])),
            load: None
        },
    ]?;
    let Ok(streams) = link.down(rt.alloc(), 1, &s, &sendings) else {
        return Err(Fail::from("no memory"));
    };
    assert!(rt; streams[0].fields.as_slice() == [Field::Ped { phase: 2 }].as_slice());
    assert!(rt;
        is(
            &streams[0].polls,
            [[1, 2].as_slice(), [7, 8].as_slice()].as_slice()
        )
    );
    assert!(rt; is(&streams[0].prios, [CANCEL.as_slice()].as_slice()));
    let answers = vec![in rt.alloc();
        Answers {
            polls: vec![in rt.alloc(); frame(&[9])]?,
            loads: Vec::new(rt.alloc()),
            prios: Vec::new(rt.alloc()),
        },
    ]?;
    let Ok(arrived) = link.up(rt.alloc(), 1, &answers) else {
        return Err(Fail::from("no memory"));
    };
    assert!(rt; is(&arrived[0].polls, [[9].as_slice()].as_slice()));
    let none = vec![in rt.alloc();
        Sending {
            poll: None,
            load: None
        },
    ]?;
    let Ok(streams) = link.down(rt.alloc(), 2, &s, &none) else {
        return Err(Fail::from("no memory"));
    };
    assert!(rt; is(&streams[0].polls, [[1, 2].as_slice()].as_slice()));
    Ok(())
}
