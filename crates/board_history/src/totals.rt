//! How often each thing happened, counted over the events.

ghost use Rattle.std.specs.Prelude.{◌≡◌, ◌-◌, ◌^◌};
ghost use Rattle.board_history.specs.Totals.{totals_of, counted, AllBelow};

use crate::event::BoardEvent;
use ledgers::BoardTotals;

/// Counts an event.
fn count(totals: &mut BoardTotals, event: &BoardEvent)
    requires { AllBelow (2 ^ 64 - 1) totals.old }
    ensures { totals.new ≡ counted totals.old event.now }
{
    match event {
        BoardEvent::Offered(_) => totals.offered += 1,
        BoardEvent::Evicted(_) | BoardEvent::Rejected(_) => {}
        BoardEvent::Started(_) => totals.started += 1,
        BoardEvent::Preempted { .. } => totals.killed += 1,
        BoardEvent::Finished(_) => totals.finished += 1,
        BoardEvent::GaveUp(_) => totals.gave_up += 1,
    }
}

/// How often each thing happened. On a board nothing runs inline.
pub fn totals_of(events: &[BoardEvent]) -> BoardTotals
    ensures { result ≡ totals_of events.now }
{
    let mut totals = BoardTotals::ZERO;
    let mut rest = events;
    while let [first, others @ ..] = rest {
        count(&mut totals, first);
        rest = others;
    }
    totals
}
