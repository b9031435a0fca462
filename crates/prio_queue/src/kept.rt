//! What is kept of a request number, which there may be no request of: how it changes, and what it says.

ghost use Rattle.std.specs.Prelude.{◌≡◌, ◌&&◌, ◌==◌, ℕ, true, not, Some, if◌then◌else◌};
ghost use Rattle.sig_tables.specs.declared.tables.Tables.{Tables};
ghost use Rattle.sig_tables.specs.Slots.{is_coordinated};
ghost use Rattle.sig_tables.specs.Layout.{Has};
ghost use Rattle.sig_tables.specs.Priority.{has_stayed, leader_with};
ghost use Rattle.prio_queue.specs.Places.{place_meant, meant, was_cancelled, leader_by, is_number, kept_state};

use crate::place::Place;
use sig_types::PhaseSet;

/// The one that comes first of a request and the leader of others.
fn leader_with(mine: Place, others: Option<Place>) -> Place
    ensures { Some (place_meant result) ≡ leader_with (place_meant mine) (meant others) }
{
    match others {
        None => mine,
        Some(other) => { if mine.precedes(&other) { mine } else { other } }
    }
}

/// The same, if the request exists and is live after N ticks and for one of these phases; otherwise the leader of the
/// others.
pub fn leader_by(
    kept: Option<Place>,
    others: Option<Place>,
    tick: u32,
    coordinated: PhaseSet,
) -> Option<Place>
    ensures { (t : Tables) (n : ℕ) → Has coordinated (is_coordinated t n) → meant result ≡ leader_by t n tick kept (meant others) }
{
    match kept {
        None => others,
        Some(mine) => {
            if !mine.is_live(tick) {
                others
            } else if mine.is_for(coordinated) {
                Some(leader_with(mine, others))
            } else {
                others
            }
        }
    }
}

/// What is kept after a cancel at this time, which strikes a request that has not departed.
pub fn cancelled_at(kept: Option<Place>, tick: u32) -> Option<Place>
    ensures place { meant result ≡ meant kept }
    ensures cancelled { was_cancelled result ≡ (if has_stayed tick (meant kept) then true else was_cancelled kept) }
{
    match kept {
        None => None,
        Some(place) => {
            if place.has_stayed(tick) {
                Some(Place {
                    ticks: place.ticks,
                    request: place.request,
                    cancelled: true,
                })
            } else {
                Some(place)
            }
        }
    }
}

/// Whether this is the number.
pub fn is_number(active: Option<u8>, number: u8) -> bool
    ensures { result ≡ is_number active number }
{
    match active {
        None => false,
        Some(other) => other == number,
    }
}

/// This number, unless it is the other.
pub fn unless_number(active: Option<u8>, number: u8) -> Option<u8>
    ensures { (k : ℕ) → is_number result k ≡ (is_number active k && not (k == number)) }
{
    if is_number(active, number) {
        None
    } else {
        active
    }
}

/// The state of what is kept after N ticks, where it was active at the last of them or not.
pub fn state_of(kept: Option<Place>, tick: u32, active: bool) -> u8
    ensures { result ≡ kept_state kept tick active }
{
    match kept {
        None => 0,
        Some(place) => {
            if place.cancelled {
                4
            } else if !place.has_stayed(tick) {
                3
            } else if active {
                2
            } else {
                1
            }
        }
    }
}
