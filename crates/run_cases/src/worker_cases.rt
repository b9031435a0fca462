//! A run by workers in threads: two passes that wait for each other at the gate. Other runs by workers are tried with
//! the built program (vectors/workers).

use crate::answer_cases::answer;
use io_edge::Gate;
use std::sync::atomic::AtomicU64;
use std::sync::atomic::Ordering::SeqCst;
use std::test::Fail;
use std::thread;

/// A round with inputs from the street and ticks.
const INPUTS_AND_TICKS: &str =
    "{\"cabinets\":[{\"base\":\"std8\"}],\"inputs\":[{\"cabinet\":1,\"on\":true,\"round\":1,\"veh\":1},{\"cabinet\":1,\"on\":true,\"round\":1,\"veh\":3},{\"cabinet\":1,\"ped\":2,\"round\":1}],\"rounds\":1,\"ticks\":60,\"version\":1}";

/// A gate at which the first input waits for two ticks, and the first tick until an input is about to come.
#[derive(Drop)]
struct Meeting {
    inputs: AtomicU64,
    ticks: AtomicU64,
    missed: AtomicU64,
}

impl Meeting {
    /// Waits until the count has reached a number, for as long as a thread may well take to start.
    fn await_count(&self, count: &AtomicU64, least: u64) {
        for _ in 0..10_000_000u32 {
            if count.load(SeqCst) >= least {
                return;
            }
            thread::yield_now();
        }
        self.missed.fetch_add(1, SeqCst);
    }
}

impl Gate for Meeting {
    fn at(&self, pass: u32, _cab: u32) {
        if pass == 0 && self.inputs.fetch_add(1, SeqCst) == 0 {
            self.await_count(&self.ticks, 3);
        }
        if pass == 4 && self.ticks.fetch_add(1, SeqCst) == 0 {
            self.await_count(&self.inputs, 1);
        }
    }
}

#[test]
fn ticks_come_before_an_input_that_waits_for_them(rt: HostRuntime) -> Result<(), Fail> {
    let alloc = rt.alloc();
    let gate = Meeting {
        inputs: AtomicU64::new(0),
        ticks: AtomicU64::new(0),
        missed: AtomicU64::new(0),
    };
    let words = ["run", "--workers", "5"];
    let input = INPUTS_AND_TICKS.as_bytes().to_vec(alloc)?;
    let (said, written) = answer(&rt, alloc, &words, input, (0, 0), 100_000, &gate)?;
    assert!(rt; said == "done");
    assert!(rt; gate.missed.load(SeqCst) == 0);
    assert!(rt; gate.inputs.load(SeqCst) > 0);
    assert!(rt; gate.ticks.load(SeqCst) > 0);
    let text = std::str::from_utf8(written.as_slice()).map_err(|_| Fail::from("no text"))?;
    assert!(rt; text.contains("\nJ 1 4*"));
    Ok(())
}
