ghost use Rattle.std.specs.Prelude.{◌≡◌, ℕ, ◌<◌, min, map, length, take, drop, slice_set};
ghost use Rattle.planner.specs.Tables.{held, holds};
ghost use Rattle.planner.specs.History.{Turn, still};
ghost use Rattle.planner.specs.Reporting.{Shows};
ghost use Rattle.planner.specs.Promises.{Promises};
ghost use Rattle.planner.specs.Replaying.{sum_under, Steadily, request, state, came, OpenDoes, FixedDoes, QuickDoes};

use super::reports::report;
use super::{Call, FixedCall, OpenCall, Outcome, QuickCall, Report, Table};
use crate::fixed::FixedTable;
use crate::open::OpenTable;
use crate::refusal::Refusal;
use interference::rule::Rule;
use interference::steady::SteadyRule;

// A call for open tables, by the method of its name.
fn on_open(t: &mut OpenTable, call: OpenCall) -> Result<(), Refusal>
    ensures { OpenDoes result (held t.old) call (held t.new) }
{
    match call {
        OpenCall::Cores(count) => t.cores(count),
        OpenCall::Enter(task) => t.enter(task),
        OpenCall::Strike(number) => t.strike(number),
        OpenCall::Amend(number, cost) => t.amend(number, cost),
    }
}

// A call for fixed tables, by the method of its name.
fn on_fixed<R: Rule>(t: &mut FixedTable<R>, call: FixedCall) -> Result<(), Refusal>
    ensures rule { t.new.rule ≡ t.old.rule }
    ensures call { FixedDoes result (R.Rule.meaning t.old.rule) (holds t.old) call (holds t.new) }
{
    match call {
        FixedCall::Order(places) => t.order(&places),
        FixedCall::Stretch(number, region) => t.stretch(number, region),
        FixedCall::SeekLengths => t.seek_lengths(),
        FixedCall::SeekPlan => t.seek_plan(),
        FixedCall::SeekBounds => t.seek_bounds(),
    }
}

// A quick call, by the method of its name.
fn on_steady<S: SteadyRule>(t: &mut FixedTable<S>, call: QuickCall) -> Result<(), Refusal>
    ensures rule { t.new.rule ≡ t.old.rule }
    ensures call { QuickDoes result (S.Rule.meaning t.old.rule) (holds t.old) call (holds t.new) }
{
    match call {
        QuickCall::Lengths => t.quick_lengths(),
        QuickCall::Plan => t.quick_plan(),
    }
}

// One call on a table of any kind. The arms of a fixed and of a steady table look alike, but bind tables of two types.
fn turn<R: Rule + Drop, S: SteadyRule + Drop>(
    table: Table<R, S>,
    call: Call<R, S>,
) -> (Table<R, S>, Outcome)
    ensures { Turn (sum_under R.Rule.meaning S.Rule.meaning) Steadily (state table) (request call) (came result.1) (state result.0) }
{
    match (table, call) {
        (Table::Open(mut t), Call::Open(c)) => {
            let r = on_open(&mut t, c);
            (Table::Open(t), Outcome::from(r))
        }
        (Table::Open(t), Call::Fix(rule)) => (Table::Fixed(t.fix(rule)), Outcome::Done),
        (Table::Open(t), Call::FixSteady(rule)) => (Table::Steady(t.fix(rule)), Outcome::Done),
        (Table::Fixed(mut t), Call::Fixed(c)) => {
            let r = on_fixed(&mut t, c);
            (Table::Fixed(t), Outcome::from(r))
        }
        (Table::Fixed(t), Call::Reopen) => (Table::Open(t.reopen()), Outcome::Done),
        (Table::Steady(mut t), Call::Fixed(c)) => {
            let r = on_fixed(&mut t, c);
            (Table::Steady(t), Outcome::from(r))
        }
        (Table::Steady(mut t), Call::Quick(c)) => {
            let r = on_steady(&mut t, c);
            (Table::Steady(t), Outcome::from(r))
        }
        (Table::Steady(t), Call::Reopen) => (Table::Open(t.reopen()), Outcome::Done),
        (table, _) => (table, Outcome::NotApplicable),
    }
}

// Carries one call out, and reports on it in a lent slot.
fn carry_out<R: Rule + Drop, S: SteadyRule + Drop>(
    table: Table<R, S>,
    call: Call<R, S>,
    slot: &mut Report,
) -> Table<R, S>
    ensures turned { Turn (sum_under R.Rule.meaning S.Rule.meaning) Steadily (state table) (request call) (came slot.new.outcome) (state result) }
    ensures shows { Shows (state result) slot.new }
{
    let (next, outcome) = turn(table, call);
    report(&next, outcome, slot);
    next
}

// Carries the calls out in their order, as many as there are places for reports, reports on each, and gives the table
// back.
pub fn replay<R: Rule + Drop, S: SteadyRule + Drop>(
    table: OpenTable,
    calls: Vec<Call<R, S>>,
    reports: &mut [Report],
) -> (usize, Table<R, S>)
    ensures count { result.0 ≡ min (length calls.items) (length reports.old) }
    ensures promises { Promises (sum_under R.Rule.meaning S.Rule.meaning) Steadily (still (held table)) (map request (take result.0 calls.items)) (take result.0 reports.new) (state result.1) }
    ensures rest { drop result.0 reports.new ≡ drop result.0 reports.old }
{
    let count = calls.len().min(reports.len());
    let mut table = Table::Open(table);
    // one by one: over a zip of reports and calls the loop's proof knows nothing of the reports
    let mut rest = calls.into_iter();
    'calls: for report in reports.iter_mut() {
        let Some(call) = rest.next() else {
            break 'calls;
        };
        table = carry_out(table, call, report);
    }
    (count, table)
}
