ghost use Rattle.std.specs.Prelude.{ℕ};
ghost use Rattle.analysis.specs.Rivals.{TaskWithinLimits, MakesSet};
ghost use Rattle.analysis.specs.Plans.{IsOrder, Suits};
ghost use Rattle.analysis.specs.Words.{Tells};

use crate::limits::MOST_TASKS;
use crate::rivals::stands;
use crate::task::Task;
use interference::limits::{MOST_CORES, MOST_TICKS};

// Whether these tasks on so many cores make a `TaskSet`.
pub fn is_task_set(cores: u32, tasks: &[Task]) -> bool
    ensures { Tells result (MakesSet cores tasks.now) }
{
    tasks.len() <= MOST_TASKS
        && cores >= 1
        && cores <= MOST_CORES
        && tasks.iter().all(is_within_limits)
}

// Whether a task keeps 1 ≤ cost ≤ deadline ≤ period ≤ 65,535.
pub fn is_within_limits(t: &Task) -> bool
    ensures { Tells result (TaskWithinLimits t.now) }
{
    t.cost >= 1 && t.cost <= t.deadline && t.deadline <= t.period && t.period <= MOST_TICKS
}

// Whether a list names each of so many tasks once.
pub fn is_order(count: usize, order: &[usize]) -> bool
    ensures { Tells result (IsOrder count order.now) }
{
    order.len() == count
        && order
            .iter()
            .enumerate()
            .all(|(p, k)| *k < count && !stands(&order[0..p], *k))
}

// Whether a list gives each task a length from 1 to its cost.
pub fn is_choice(tasks: &[Task], lengths: &[u32]) -> bool
    ensures { Tells result (Suits tasks.now lengths.now) }
{
    tasks.len() <= lengths.len()
        && tasks
            .iter()
            .zip(lengths)
            .all(|(t, f)| 1 <= *f && *f <= t.cost)
}
