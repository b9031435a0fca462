//! What Sets ask for: commands and the calls of the download stage, hand-computed from the rules of a reply. Sets with
//! a fault are in `vectors/live`.

use agent::{Order, Wish, decode};
use arrayvec::ArrayVec;
use hex::decode as octets_of;
use sig_tables::{Cell, CellValue, Tables};
use sig_types::Request;
use std::alloc::Global;
use std::process::Abort;
use std::test::Fail;

/// What a request wishes of a cabinet of the community `public` with the tables std8.
fn wish_of(alloc: Global, request: &str) -> Result<Wish, Fail> {
    let octets = octets_of(alloc, request)?;
    let ask = decode(&octets, b"public", &Tables::std8()).ok_or("silent")?;
    Ok(ask.wish)
}

/// A Set of pattern control to 255, of the clock to 863,999, of a request and a cancel, of the patterns 1 and 254, and of the
/// clock to 0.
const SET_SEVEN: &str =
    "3081ad02010004067075626c6963a3819f0201010201000201003081933013060d2b060104018936040201040e00020200ff3013060c2b0601040181fd590102010002030d2eff3018060c2b0601040181fd5901040100040801020a10000701003011060c2b0601040181fd590104020002010a3012060d2b060104018936040201040e000201013013060d2b060104018936040201040e00020200fe3011060c2b0601040181fd5901020100020100";

/// A Set without bindings.
const SET_NONE: &str = "301802010004067075626c6963a30b0201010201000201003000";

#[test]
fn good_sets_give_their_orders_in_order(rt: HostRuntime) -> Result<(), Fail> {
    let wish = wish_of(rt.alloc(), SET_SEVEN)?;
    let request = Request {
        number: 1,
        class: 2,
        level: 10,
        phase: 16,
        arrival: 7,
        departure: 256,
    };
    let wanted = [
        Order::Pattern(255),
        Order::Clock(863999),
        Order::Request(request),
        Order::Cancel(10),
        Order::Pattern(1),
        Order::Pattern(254),
        Order::Clock(0),
    ];
    assert!(rt; matches!(&wish, Wish::Direct(orders) if orders.as_slice() == wanted.as_slice()));
    let wish = wish_of(rt.alloc(), SET_NONE)?;
    assert!(rt; matches!(&wish, Wish::Direct(orders) if orders.is_empty()));
    Ok(())
}

/// The last part of the last download: the minimum green and the concurrent phases of phase 2.
const PART: &str =
    "307002010004067075626c6963a36302010102010002010030583014060c2b0601040181fd590101030002047fffffff3013060c2b0601040181fd5901010400020300ea603014060f2b060104018936040201010201040202010c3015060f2b060104018936040201010201170204020506";

/// Its begin, a verify of 0 parts under the id 1, and a finish under the id 7.
const STEPS: [(&str, Wish); 3] = [
    (
        "302e02010004067075626c6963a32102010102010002010030163014060c2b0601040181fd590101020002047fffffff",
        Wish::Begin(2147483647),
    ),
    (
        "303e02010004067075626c6963a33102010102010002010030263011060c2b0601040181fd59010103000201013011060c2b0601040181fd5901010500020100",
        Wish::Verify(1, 0),
    ),
    (
        "303e02010004067075626c6963a33102010102010002010030263011060c2b0601040181fd59010103000201073011060c2b0601040181fd5901010600020101",
        Wish::Finish(7),
    ),
];

/// Each request has its wish.
fn are_wished(rt: &impl Abort, alloc: Global, rows: &[(&str, Wish)]) -> Result<(), Fail> {
    for (request, wanted) in rows {
        assert!(rt; wish_of(alloc, request)? == *wanted);
    }
    Ok(())
}

#[test]
fn sets_of_a_download_go_to_its_stage(rt: HostRuntime) -> Result<(), Fail> {
    are_wished(&rt, rt.alloc(), &STEPS)?;
    let wish = wish_of(rt.alloc(), PART)?;
    let mut phases = ArrayVec::new();
    phases.push(5);
    phases.push(6);
    let wanted = [
        (
            Cell::Phase {
                phase: 2,
                column: 4,
            },
            CellValue::Number(12),
        ),
        (
            Cell::Phase {
                phase: 2,
                column: 23,
            },
            CellValue::Octets(phases),
        ),
    ];
    assert!(rt;
        matches!(&wish, Wish::Part(2147483647, 60000, puts) if puts.as_slice() == wanted.as_slice())
    );
    Ok(())
}
