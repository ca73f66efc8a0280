ghost use Rattle.std.specs.Prelude.{◌≡◌, ℕ, min, map, length, take, drop};
ghost use Rattle.interference.specs.Laws.{Steady};
ghost use Rattle.planner.specs.Tables.{held};
ghost use Rattle.planner.specs.History.{still};
ghost use Rattle.planner.specs.Replaying.{sum_under, Steadily, request, state};
ghost use Rattle.planner.specs.Promises.{Promises};
ghost use Rattle.examples.specs.Outsider.{twice_sum, layered_twice};
ghost use Rattle.examples.specs.TwiceLaws.{twice_lawful};

use interference::full::Full;
use interference::handler::Handler;
use interference::limits::MOST_SUM;
use interference::question::Question;
use interference::rule::Rule;
use interference::steady::SteadyRule;
use planner::open::OpenTable;
use planner::replay::{Call, Report, Table, replay};

// A rule from outside the crates of rules: twice the full sum, for a margin.
#[derive(Clone, Copy)]
pub struct Twice;

impl Rule for Twice {
    ghost meaning = { λ _ q. twice_sum q };

    ghost laws = { λ s. twice_lawful };

    fn sum(&self, q: &Question) -> u32 {
        (2 * Full.sum(q)).min(MOST_SUM)
    }
}

impl SteadyRule for Twice {
    fn steadies(&self) {
        twice_steadies();
    }
}

fn twice_steadies()
    ensures { Steady twice_sum }
{}

// What a sequence of calls may rely on, of tables under a handler over this rule: the promises speak of its sums.
pub fn replay_twice(
    table: OpenTable,
    calls: Vec<Call<Handler<Twice>, Handler<Twice>>>,
    reports: &mut [Report],
) -> (usize, Table<Handler<Twice>, Handler<Twice>>)
    ensures count { result.0 ≡ min (length calls.items) (length reports.old) }
    ensures promises { Promises (sum_under layered_twice layered_twice) Steadily (still (held table)) (map request (take result.0 calls.items)) (take result.0 reports.new) (state result.1) }
    ensures rest { drop result.0 reports.new ≡ drop result.0 reports.old }
{
    replay(table, calls, reports)
}
