//! What is asked of a cabinet, carried out: by its download stage, and then by its controller.

ghost use Rattle.std.specs.Prelude.{◌≡◌, ◌<◌, ◌≤◌, ◌+◌, All, map};
ghost use Rattle.sig_tables.specs.Past.{History};
ghost use Rattle.sig_tables.specs.Decide.{with_one};
ghost use Rattle.cab_book.specs.Controls.{ControlStands, tick_count};
ghost use Rattle.stage_txn.specs.StageKeeps.{StageStands};
ghost use Rattle.agent.specs.Asks.{CanBeCarriedOut};
ghost use Rattle.agent.specs.Orders.{IsFit};
ghost use Rattle.cabinet_history.specs.Coming.{Coming, call_of, outcome as outcome_of, order_event, events_of, with_events, with_call};
ghost use Rattle.cabinet_history.specs.CabinetAnswers.{wish_end};
ghost use Rattle.cab_book.specs.CabinetStands.{IsAnswered};
ghost use Rattle.cab_book.specs.Carried.{orders_in, is_accepted};

use crate::Control;
use agent::{Order, Wish};
use cabinet_history::Load;
use sig_types::StageAnswer;
use stage_txn::Stage;

/// The stage is called, where a wish is one for it.
pub fn call_stage(stage: &mut Stage, control: &Control, wish: &Wish) -> Option<StageAnswer>
    requires can { CanBeCarriedOut wish.now }
    ensures outcome { (has : Coming) → ControlStands control.now has.history → StageStands stage.old has.calls
        → result ≡ outcome_of has wish.now }
    ensures stands { (has : Coming) → ControlStands control.now has.history → StageStands stage.old has.calls
        → StageStands stage.new (with_call has.calls (call_of has wish.now)) }
{
    match wish {
        Wish::Begin(id) => Some(stage.begin(*id, control.tables())),
        Wish::Part(id, number, puts) => Some(stage.part(*id, *number, puts.as_slice())),
        Wish::Verify(id, total) => {
            let flashing = control.flashing();
            Some(stage.verify(*id, *total, control.tables(), flashing))
        }
        Wish::Finish(id) => {
            let flashing = control.flashing();
            Some(stage.finish(*id, control.tables(), flashing))
        }
        Wish::Get | Wish::Next | Wish::Direct(_) | Wish::Bad { .. } => None,
    }
}

/// The end of a load that a wish brings, with what the stage answers and the version so far.
pub fn end_of(version: u32, wish: &Wish, outcome: Option<StageAnswer>) -> Option<Load>
    requires few { version < 4294967295 }
    ensures { result ≡ wish_end version wish.now outcome }
{
    match wish {
        Wish::Verify(id, _) => match outcome {
            Some(StageAnswer::Refused(broken)) => Some(Load {
                id: *id,
                result: Err(broken),
            }),
            _ => None,
        },
        Wish::Finish(id) => match outcome {
            Some(StageAnswer::Accepted) => Some(Load {
                id: *id,
                result: Ok(version + 1),
            }),
            Some(StageAnswer::Refused(broken)) => Some(Load {
                id: *id,
                result: Err(broken),
            }),
            _ => None,
        },
        _ => None,
    }
}

/// The controller carries out an order.
fn give_one(control: &mut Control, order: Order)
    requires fit { IsFit order }
    ensures stands { (h : History) → ControlStands control.old h → ControlStands control.new (with_one h (order_event order)) }
    ensures counted { tick_count control.new ≡ tick_count control.old }
{
    match order {
        Order::Pattern(number) => control.pattern(number),
        Order::Clock(time) => control.clock(time),
        Order::Request(request) => control.request(request),
        Order::Cancel(number) => control.cancel(number),
    }
}

/// The controller carries out orders, one after another.
fn give(control: &mut Control, orders: &[Order])
    requires fit { All IsFit orders.now }
    ensures stands { (h : History) → ControlStands control.old h → ControlStands control.new (with_events h (map order_event orders.now)) }
    ensures counted { tick_count control.new ≡ tick_count control.old }
{
    for order in orders {
        give_one(control, *order);
    }
}

/// The orders of a wish.
fn orders_of(wish: &Wish) -> &[Order]
    ensures { result.now ≡ orders_in wish.now }
{
    match wish {
        Wish::Direct(orders) => orders.as_slice(),
        _ => &[],
    }
}

/// Whether a wish is a finish that was accepted.
fn is_accepted(wish: &Wish, outcome: Option<StageAnswer>) -> bool
    ensures { result ≡ is_accepted wish.now outcome }
{
    match wish {
        Wish::Finish(_) => match outcome {
            Some(StageAnswer::Accepted) => true,
            _ => false,
        },
        _ => false,
    }
}

/// The controller carries out a wish, after the stage has answered: orders, or the tables of a download that was accepted.
pub fn carry_out(control: &mut Control, stage: &Stage, wish: &Wish, outcome: Option<StageAnswer>)
    requires can { CanBeCarriedOut wish.now }
    requires answered { ∥ ((has : Coming) × IsAnswered control.old stage.now has wish.now outcome) ∥₁ }
    ensures stands { (has : Coming) → IsAnswered control.old stage.now has wish.now outcome
        → ControlStands control.new (with_events has.history (events_of has wish.now)) }
    ensures counted { tick_count control.new ≡ tick_count control.old }
{
    give(control, orders_of(wish));
    if is_accepted(wish, outcome) {
        control.install(*stage.staged());
    }
}
