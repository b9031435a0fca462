//! A list at the top of a scenario, judged item by item. After its first fault, and past the most that are judged, the
//! items are skipped; so that no list takes more than one item's memory, in addition to what stays of the items.

ghost use Rattle.std.specs.Prelude.{◌≡◌, ◌<◌, ◌≤◌, [], length, Some, IfSome};
ghost use Rattle.json.specs.Json.{value, items};
ghost use Rattle.serde_json.specs.Data.{Data, Items, array, item, no_items};
ghost use Rattle.serde_json.specs.Read.{of_json, of_items, converted};
ghost use Rattle.scenario_cut.specs.Growing.{both};
ghost use Rattle.scenario_cut.specs.Judging.{IsJudged, IsNoList, TellsOf, may_have, most_judged};
ghost use Rattle.scenario_cut.specs.declared.judge.Extent.{Extent};

use crate::judge::{Extent, Found, Listing, judge_next, name_of};
use crate::passing::{pass, pass_rest};
use json::{Reader, Token};
use scenario_data::ReadFail;
use scenario_read::{Place, Unfit, refuse_member};
use std::alloc::Global;

/// Items that were judged: how many, up to one more than are judged at the most, the refusal of the first at fault, and what stays of them.
#[derive(Drop)]
pub(crate) struct Judged {
    pub count: usize,
    pub refusal: Option<ReadFail>,
    pub found: Found,
}

/// What is known of a list: its refusal, and what stays of its items where there is none.
#[derive(Drop)]
pub(crate) struct ListVerdict {
    pub refusal: Option<ReadFail>,
    pub found: Found,
}

/// Nothing.
pub(crate) fn nothing(alloc: Global) -> Found
    ensures cabinets { result.cabinets.items ≡ [] }
    ensures loads { result.loads.items ≡ [] }
{
    Found {
        cabinets: Vec::new(alloc),
        loads: Vec::new(alloc),
    }
}

/// Up to how many items what was judged says about the whole list: of cabinets as many as are allowed there. One more
/// is judged.
fn most_judged(list: Listing) -> usize
    ensures most { result ≡ most_judged list }
    ensures few { result ≤ 1000000 }
{
    match list {
        Listing::Cabinets => 64,
        _ => 1_000_000,
    }
}

/// Judges one more item, nested at most so deep, or passes it over.
fn more(
    alloc: Global,
    reader: &mut Reader<'_>,
    depth: usize,
    list: Listing,
    extent: Extent,
    judged: &mut Judged,
) -> Option<()>
    ensures ok { IfSome result (λ _. (d : Data) × (converted of_json (value depth reader.old) ≡ Some (d, reader.new))
        × ((ds : Items) → IsJudged list extent judged.old ds → IsJudged list extent judged.new (both ds (item d no_items)))) }
    ensures shorter { IfSome result (λ _. length reader.new < length reader.old) }
{
    let count = judged.count;
    let most = most_judged(list);
    if count > most {
        if !pass(reader, depth) {
            return None;
        }
        return Some(());
    }
    if judged.refusal.is_some() {
        if !pass(reader, depth) {
            return None;
        }
        judged.count = count + 1;
        return Some(());
    }
    match judge_next(alloc, reader, depth, list, count, extent, &mut judged.found) {
        Some(answer) => {
            judged.count = count + 1;
            judged.refusal = answer.err();
            Some(())
        }
        None => None,
    }
}

/// Judges the items up to the bracket that closes their list, each nested at most so deep.
fn judge_items(
    alloc: Global,
    reader: &mut Reader<'_>,
    depth: usize,
    list: Listing,
    extent: Extent,
) -> Option<Judged>
    ensures ok { IfSome result (λ judged. (ds : Items) × (converted of_items (items (value depth) (length reader.old) reader.old) ≡ Some (ds, reader.new))
        × IsJudged list extent judged ds) }
    ensures shorter { IfSome result (λ _. length reader.new < length reader.old) }
{
    let mut judged = Judged {
        count: 0,
        refusal: None,
        found: nothing(alloc),
    };
    'items: while !reader.take_end_array() {
        more(alloc, reader, depth, list, extent, &mut judged)?;
    }
    Some(judged)
}

/// Whether that many items may be in a list; of loads any number, since each is counted with those of its cabinet.
fn may_have(list: Listing, count: usize) -> bool
    ensures { result ≡ may_have list count }
{
    match list {
        Listing::Cabinets => 1 <= count && count <= 64,
        Listing::Inputs => count <= 1_000_000,
        Listing::Loads => true,
        _ => count <= 100_000,
    }
}

/// What is known of a list with these items; nothing, where they are more than were judged and none of those was at fault.
fn verdict(alloc: Global, list: Listing, judged: Judged) -> Option<ListVerdict>
    ensures { IfSome result (λ told. (e : Extent) → (ds : Items) → IsJudged list e judged ds → TellsOf list e told (array ds)) }
{
    let Judged {
        count,
        refusal,
        found,
    } = judged;
    if !may_have(list, count) {
        let beyond = refuse_member(alloc, Place::Top, name_of(list), Unfit::Beyond);
        return Some(ListVerdict {
            refusal: Some(beyond),
            found,
        });
    }
    let most = most_judged(list);
    if count > most {
        return match refusal {
            Some(fail) => Some(ListVerdict {
                refusal: Some(fail),
                found,
            }),
            None => None,
        };
    }
    Some(ListVerdict { refusal, found })
}

/// The refusal of what is given as a list and is none.
fn no_list(alloc: Global, list: Listing) -> ListVerdict
    ensures { (e : Extent) → (d : Data) → IsNoList d → TellsOf list e result d }
{
    ListVerdict {
        refusal: Some(refuse_member(alloc, Place::Top, name_of(list), Unfit::Wrong)),
        found: nothing(alloc),
    }
}

/// What is known of the reader's next value as a list, nested at most so deep.
pub(crate) fn judge_list(
    alloc: Global,
    reader: &mut Reader<'_>,
    depth: usize,
    list: Listing,
    extent: Extent,
) -> Option<ListVerdict>
    ensures ok { IfSome result (λ told. (d : Data) × (converted of_json (value depth reader.old) ≡ Some (d, reader.new)) × TellsOf list extent told d) }
    ensures shorter { IfSome result (λ _. length reader.new < length reader.old) }
{
    let token = reader.next()?;
    match token {
        Token::BeginArray => {
            if depth == 0 {
                return None;
            }
            let judged = judge_items(alloc, reader, depth - 1, list, extent)?;
            match verdict(alloc, list, judged) {
                Some(told) => Some(told),
                None => None,
            }
        }
        other => {
            if pass_rest(reader, depth, other) {
                Some(no_list(alloc, list))
            } else {
                None
            }
        }
    }
}
