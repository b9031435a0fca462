//! Requests case by case, from the rules of priority.

ghost use Rattle.std.specs.Prelude.{◌≡◌, ◌<◌, ◌≤◌};

use prio_queue::Queue;
use sig_types::{PhaseSet, Request};

/// A request for phase 2 that arrives at once and departs after 600 ticks.
fn asks(number: u8, class: u8, level: u8) -> Request
    ensures { result.number ≡ number }
{
    Request {
        number,
        class,
        level,
        phase: 2,
        arrival: 0,
        departure: 600,
    }
}

/// Which of two requests, given before the first tick, is active at it; phases 2 and 6 are coordinated.
fn first(one: Request, other: Request) -> Option<u8>
    requires one_above { 0 < one.number }
    requires one_within { one.number ≤ 10 }
    requires other_above { 0 < other.number }
    requires other_within { other.number ≤ 10 }
{
    let mut queue = Queue::new();
    queue.request(one, 0);
    queue.request(other, 0);
    queue.active(1, PhaseSet::empty().with(2).with(6))
}

#[test]
fn class_comes_first_then_level_arrival_and_number(rt: HostRuntime) {
    let late = Request {
        arrival: 50,
        ..asks(3, 1, 1)
    };
    let soon = Request {
        arrival: 40,
        ..asks(7, 1, 1)
    };
    assert!(rt; first(asks(3, 2, 1), asks(7, 1, 9)) == Some(7));
    assert!(rt; first(asks(3, 1, 2), asks(7, 1, 1)) == Some(7));
    assert!(rt; first(late, soon) == Some(7));
    assert!(rt; first(asks(7, 1, 1), asks(3, 1, 1)) == Some(3));
    let across = Request {
        phase: 4,
        ..asks(1, 1, 1)
    };
    assert!(rt; first(across, asks(10, 10, 10)) == Some(10));
}

#[test]
fn a_request_is_queued_then_active_then_departed(rt: HostRuntime) {
    let coordinated = PhaseSet::empty().with(2).with(6);
    let mut queue = Queue::new();
    assert!(rt; queue.state(1, 99) == 0);
    queue.request(asks(1, 1, 1), 99);
    assert!(rt; queue.state(1, 99) == 1);
    assert!(rt; queue.active(100, coordinated) == Some(1));
    queue.step(Some(1));
    assert!(rt; queue.state(1, 100) == 2);
    assert!(rt; queue.active(699, coordinated) == Some(1));
    assert!(rt; queue.active(700, coordinated).is_none());
    assert!(rt; queue.state(1, 700) == 3);
    assert!(rt; queue.states(700) == [3, 0, 0, 0, 0, 0, 0, 0, 0, 0]);
}

#[test]
fn a_request_is_cancelled_until_it_departs_and_may_be_replaced(rt: HostRuntime) {
    let coordinated = PhaseSet::empty().with(2).with(6);
    let mut queue = Queue::new();
    queue.request(asks(1, 1, 1), 99);
    queue.step(Some(1));
    queue.request(asks(1, 1, 1), 100);
    assert!(rt; queue.state(1, 100) == 1);
    queue.cancel(1, 700);
    assert!(rt; queue.state(1, 700) == 4);
    assert!(rt; queue.active(700, coordinated).is_none());
    queue.request(asks(2, 1, 1), 100);
    queue.cancel(2, 701);
    assert!(rt; queue.state(2, 701) == 3);
}
