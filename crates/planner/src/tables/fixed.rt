ghost use Rattle.std.specs.Prelude.{◌≡◌, ℕ, ◌≤◌, length, vec_len, vec_capacity};
ghost use Rattle.analysis.specs.Rivals.{cost_of};
ghost use Rattle.analysis.specs.Plans.{Named, IsChoice};
ghost use Rattle.planner.specs.Rows.{tasks, lengths};

use crate::marks::Marks;
use crate::rows::Rows;

mod calls;
mod plans;
mod reading;
mod responses;
mod seeks;

// A table joined with a rule: an order from the lowest place up, by task index, a length and a bound for each task,
// and two marks. Each call says by a clause `rule` of its own that it keeps the rule: callers cite it by that name.
#[derive(Drop)]
pub struct FixedTable<R> {
    pub(in crate::tables) rows: Rows,
    pub(in crate::tables) order: Vec<usize>,
    pub(in crate::tables) rule: R,
    pub(in crate::tables) marks: Marks,
    ghost whole: { vec_len order ≡ vec_len rows.items },
    ghost roomy: { 32 ≤ vec_capacity order },
    ghost named: { Named (vec_len rows.items) order.items },
    ghost choice: { IsChoice (cost_of (tasks rows.items.items)) (vec_len rows.items) (lengths rows.items.items) },
}
