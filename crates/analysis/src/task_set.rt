ghost use Rattle.std.specs.Prelude.{◌≡◌, ℕ, ◌<◌, ◌≤◌, length, MatchOption, slice_index};
ghost use Rattle.analysis.specs.Rivals.{TasksWithinLimits, MakesSet, cost_of, under};
ghost use Rattle.analysis.specs.Plans.{Named, IsOrder, IsChoice, Suits};

use crate::checks::{is_choice, is_order, is_task_set};
use crate::level::Level;
use crate::limits::MOST_PLANNED;
use crate::task::Task;

// At most 32 tasks within their limits, by number, on 1 to 16 cores.
#[derive(Clone, Copy)]
pub struct TaskSet<'a> {
    pub cores: u32,
    pub tasks: &'a [Task],
    ghost some: { 1 ≤ cores },
    ghost most: { cores ≤ 16 },
    ghost few: { length tasks.now ≤ 32 },
    ghost limits: { TasksWithinLimits tasks.now },
}

impl<'a> TaskSet<'a> {
    // None exactly where a limit does not hold.
    pub fn check(cores: u32, tasks: &'a [Task]) -> Option<TaskSet<'a>>
        ensures { MatchOption result (MakesSet cores tasks.now → ⊥)
            (λ set. (set.cores ≡ cores) × (set.tasks.now ≡ tasks.now)) }
    {
        if is_task_set(cores, tasks) {
            Some(TaskSet { cores, tasks })
        } else {
            None
        }
    }

    // None exactly where the list does not name each task once.
    pub fn ordered(self, order: &'a [usize]) -> Option<Ordered<'a>>
        ensures { MatchOption result (IsOrder (length self.entry.tasks.now) order.now → ⊥)
            (λ o. (o.set ≡ self.entry) × (o.order.now ≡ order.now)) }
    {
        if is_order(self.tasks.len(), order) {
            Some(Ordered { set: self, order })
        } else {
            None
        }
    }

    // None exactly where there are too many tasks to search all orders of them.
    pub fn small(self) -> Option<SmallSet<'a>>
        ensures { MatchOption result (length self.entry.tasks.now ≤ 8 → ⊥) (λ s. s.set ≡ self.entry) }
    {
        if self.tasks.len() <= MOST_PLANNED {
            Some(SmallSet { set: self })
        } else {
            None
        }
    }
}

// Tasks in an order: it names each of them once, from the lowest place up.
#[derive(Clone, Copy)]
pub struct Ordered<'a> {
    pub set: TaskSet<'a>,
    pub order: &'a [usize],
    ghost whole: { length order.now ≡ length set.tasks.now },
    ghost named: { Named (length set.tasks.now) order.now },
}

impl<'a> Ordered<'a> {
    // None exactly where a task has no length from 1 to its cost.
    pub fn arranged(self, lengths: &'a [u32]) -> Option<Arranged<'a>>
        ensures { MatchOption result (Suits self.entry.set.tasks.now lengths.now → ⊥)
            (λ a. (a.ordered ≡ self.entry) × (a.lengths.now ≡ lengths.now)) }
    {
        if is_choice(self.set.tasks, lengths) {
            Some(Arranged {
                ordered: self,
                lengths,
            })
        } else {
            None
        }
    }
}

// Tasks in an order, each with a region length from 1 to its cost.
#[derive(Clone, Copy)]
pub struct Arranged<'a> {
    pub ordered: Ordered<'a>,
    pub lengths: &'a [u32],
    ghost room: { length ordered.set.tasks.now ≤ length lengths.now },
    ghost choice: { IsChoice (cost_of ordered.set.tasks.now) (length ordered.set.tasks.now) lengths.now },
}

impl<'a> Arranged<'a> {
    // What stands below the task at a place. Who asks goes on with the task's number, to its length and its bound, so that
    // a method which also took the step to its rivals would have to give the number back.
    pub(crate) fn level(&self, p: usize) -> Level<'a>
        requires { p < length self.now.ordered.order.now }
        ensures set { result.set ≡ self.now.ordered.set }
        ensures lengths { result.lengths.now ≡ self.now.lengths.now }
        ensures low { result.low.now ≡ under self.now.ordered.order.now (slice_index self.now.ordered.order.now p) }
    {
        Level {
            set: self.ordered.set,
            lengths: self.lengths,
            low: &self.ordered.order[0..p],
        }
    }
}

// At most eight tasks: few enough to search all orders of them.
#[derive(Clone, Copy)]
pub struct SmallSet<'a> {
    pub set: TaskSet<'a>,
    ghost small: { length set.tasks.now ≤ 8 },
}
