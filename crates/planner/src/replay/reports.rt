ghost use Rattle.std.specs.Prelude.{◌≡◌, ℕ, length, take};
ghost use Rattle.planner.specs.Tables.{Open, Fixed, held, holds};
ghost use Rattle.planner.specs.Replaying.{state};
ghost use Rattle.planner.specs.Reporting.{ShowsOpen, ShowsStanding, ShowsFixed, Shows};

use super::{Outcome, Report, Standing, Table};
use crate::columns::{bounds_of, lengths_of, tasks_of};
use crate::fixed::FixedTable;
use interference::rule::Rule;
use interference::steady::SteadyRule;

// Reports what a table shows after a call, in a lent slot: a report is large, and what is written there is not copied again.
pub(super) fn report<R: Rule, S: SteadyRule>(
    table: &Table<R, S>,
    outcome: Outcome,
    slot: &mut Report,
)
    ensures outcome { slot.new.outcome ≡ outcome }
    ensures shows { Shows (state table.now) slot.new }
{
    let (cores, rows) = match table {
        Table::Open(t) => (t.core_count(), t.rows()),
        Table::Fixed(t) => (t.core_count(), t.rows()),
        Table::Steady(t) => (t.core_count(), t.rows()),
    };
    slot.outcome = outcome;
    slot.cores = cores;
    slot.count = rows.len();
    slot.tasks = tasks_of(rows);
    slot.fixed = match table {
        Table::Open(_) => None,
        Table::Fixed(t) => Some(standing(t)),
        Table::Steady(t) => Some(standing(t)),
    };
}

// What stands in a fixed table; read out by place, and then by task number.
fn standing<R: Rule>(t: &FixedTable<R>) -> Standing
    ensures { ShowsStanding (holds t.now) (length (holds t.now).tasks) result }
{
    let rows = t.rows();
    let mut places = [0; 32];
    let mut lengths = [0; 32];
    let mut bounds = [0; 32];
    let Ok(marks) = t.read_out(&mut places, &mut lengths, &mut bounds) else {
        unreachable()
    };
    Standing {
        marks,
        order: t.read_order(),
        places,
        lengths: lengths_of(rows),
        bounds: bounds_of(rows),
    }
}
