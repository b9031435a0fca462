//! The pulses of a bank by detectors: sorted once, those of a detector by rounds, and those of one round in the order of the list.

ghost use Rattle.std.specs.Prelude.{ℕ, ◌≡◌, ◌+◌, ◌≤◌, ◌<◌, ◌^◌, List, length, get_or, IfOk};
ghost use Rattle.std.specs.List.Sorted.{IsNonDecreasingBy};
ghost use Rattle.detector_bank.specs.declared.bank.Pulse.{Pulse as PulseRow};
ghost use Rattle.detector_bank.specs.Watching.{key_of, key, at_key, Before};

use crate::bank::{Detector, Pulse};
use sig_types::NoMemory;
use std::alloc::Global;

/// The number by which the pulses of a detector in a round are sorted. Detectors share one only where their cabinets are equal modulo
/// 1024.
pub(crate) fn key_of(cabinet: u32, detector: u8, round: u32) -> u64
    ensures is { result ≡ key_of cabinet detector round }
    ensures small { result < 2 ^ 51 }
{
    let place = u64::from(cabinet % 1024) * 256 + u64::from(detector);
    place * 4_294_967_296 + u64::from(round)
}

/// The number of a pulse.
fn key(pulse: &Pulse) -> u64
    ensures { result ≡ key pulse.now }
{
    key_of(pulse.cabinet, pulse.detector, pulse.round)
}

/// The pulses of a list by their numbers; those of one number in the order of the list.
pub(crate) fn sorted_pulses(alloc: Global, pulses: &[Pulse]) -> Result<Vec<Pulse>, NoMemory>
    ensures count { IfOk result (λ sorted. length sorted.items ≡ length pulses.now) }
    ensures rises { IfOk result (λ sorted. IsNonDecreasingBy key sorted.items) }
    ensures same { IfOk result (λ sorted. (n : ℕ) → at_key n sorted.items ≡ at_key n pulses.now) }
{
    let Ok(mut sorted) = Vec::from_slice(alloc, pulses) else {
        return Err(NoMemory);
    };
    match sorted.sort_by_key(|pulse| key(pulse)) {
        Ok(()) => Ok(sorted),
        Err(_) => Err(NoMemory),
    }
}

/// The first place in sorted pulses whose number is not below this one.
pub(crate) fn first_at(sorted: &[Pulse], number: u64) -> usize
    ensures { IsNonDecreasingBy key sorted.now → Before sorted.now result number }
{
    let mut low = 0;
    let mut high = sorted.len();
    while low < high {
        let middle = low + (high - low) / 2;
        if key(&sorted[middle]) < number {
            low = middle + 1;
        } else {
            high = middle;
        }
    }
    low
}

/// The first place from this one on whose pulse has a number not below this one.
pub(crate) fn place_at(sorted: &[Pulse], from: usize, number: u64) -> usize
    ensures within { result ≤ length sorted.now }
    ensures front { from ≤ length sorted.now → from ≤ result }
    ensures before { Before sorted.now from number → Before sorted.now result number }
    ensures stop { (p : PulseRow) → result < length sorted.now → number ≤ key (get_or sorted.now result p) }
{
    let mut place = from.min(sorted.len());
    while place < sorted.len() && key(&sorted[place]) < number {
        place += 1;
    }
    place
}

/// The round of a detector's pulse at a place of sorted pulses, or a later one where the pulse there is of another.
pub(crate) fn round_at(sorted: &[Pulse], place: usize, detector: &Detector) -> u32
    ensures { (i : ℕ) (p : PulseRow) → i < result → place < length sorted.now → key_of detector.now.cabinet detector.now.detector i < key (get_or sorted.now place p) }
{
    if place >= sorted.len() {
        return u32::MAX;
    }
    let ahead = key(&sorted[place]).saturating_sub(key_of(detector.cabinet, detector.detector, 0));
    ahead.min(u64::from(u32::MAX)) as u32
}
