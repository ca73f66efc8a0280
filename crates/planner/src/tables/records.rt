ghost use Rattle.std.specs.Prelude.{◌≡◌, ℕ, ◌-◌, ◌<◌, ◌≤◌, [], ◌∷◌, ◌++◌, length, take, drop, MatchBool, slice_set};
ghost use Rattle.analysis.specs.Rivals.{TaskWithinLimits};
ghost use Rattle.planner.specs.Rows.{Fresh};
ghost use Rattle.planner.specs.Tables.{opened, kept};
ghost use Rattle.planner.specs.Calls.{HasTask, task_numbered, with_cost};

use crate::rows::{Row, Rows};
use analysis::checks::is_within_limits;
use analysis::task::Task;

// What an open table keeps of its records, `Fresh`, is said here of rows, since both kinds of table hold these.
impl Rows {
    pub(in crate::tables) fn count(&self) -> usize
        ensures value { result ≡ length (kept self.now).tasks }
        ensures few { result ≤ 32 }
    {
        self.items.len()
    }

    // Whether a task has this number. It is no `Option` of the task: what follows also writes by the number.
    pub(in crate::tables) fn has(&self, number: u32) -> bool
        ensures { MatchBool result (HasTask (kept self.now).tasks number) (HasTask (kept self.now).tasks number → ⊥) }
    {
        number >= 1 && number as usize <= self.count()
    }

    fn task(&self, number: u32) -> Task
        requires { HasTask (kept self.now).tasks number }
        ensures { result ≡ task_numbered (kept self.now).tasks number }
    {
        self.items[number as usize - 1].task
    }

    // Whether the task would keep its limits with this cost.
    pub(in crate::tables) fn can_cost(&self, number: u32, cost: u32) -> bool
        requires { HasTask (kept self.now).tasks number }
        ensures { MatchBool result (TaskWithinLimits (with_cost (task_numbered (kept self.now).tasks number) cost))
            (TaskWithinLimits (with_cost (task_numbered (kept self.now).tasks number) cost) → ⊥) }
    {
        let mut task = self.task(number);
        task.cost = cost;
        is_within_limits(&task)
    }

    // Whether the task can have a region of this length: from 1 to its cost.
    pub(in crate::tables) fn can_have(&self, number: u32, region: u32) -> bool
        requires { HasTask (kept self.now).tasks number }
        ensures { MatchBool result ((1 ≤ region) × (region ≤ (task_numbered (kept self.now).tasks number).cost))
            ((1 ≤ region) × (region ≤ (task_numbered (kept self.now).tasks number).cost) → ⊥) }
    {
        is_length(region, self.task(number).cost)
    }

    pub(in crate::tables) fn add(&mut self, task: Task)
        requires few { length (kept self.old).tasks < 32 }
        requires limits { TaskWithinLimits task }
        ensures keeps { kept self.new ≡ opened (kept self.old).cores ((kept self.old).tasks ++ task ∷ []) }
        ensures fresh { Fresh self.old.items.items → Fresh self.new.items.items }
    {
        self.items.push_reserved(Row {
            task,
            length: 1,
            bound: 0,
        });
    }

    pub(in crate::tables) fn take_out(&mut self, number: u32)
        requires { HasTask (kept self.old).tasks number }
        ensures keeps { kept self.new ≡ opened (kept self.old).cores (take (number - 1) (kept self.old).tasks ++ drop number (kept self.old).tasks) }
        ensures fresh { Fresh self.old.items.items → Fresh self.new.items.items }
    {
        let _ = self.items.remove(number as usize - 1);
    }

    pub(in crate::tables) fn amend(&mut self, number: u32, cost: u32)
        requires has { HasTask (kept self.old).tasks number }
        requires limits { TaskWithinLimits (with_cost (task_numbered (kept self.old).tasks number) cost) }
        ensures keeps { kept self.new ≡ opened (kept self.old).cores (slice_set (kept self.old).tasks (number - 1) (with_cost (task_numbered (kept self.old).tasks number) cost)) }
        ensures fresh { Fresh self.old.items.items → Fresh self.new.items.items }
    {
        change(&mut self.items[number as usize - 1], cost);
    }

    // Lengths 1 and bounds 0 again.
    pub(in crate::tables) fn unset(&mut self)
        ensures keeps { kept self.new ≡ kept self.old }
        ensures fresh { Fresh self.new.items.items }
    {
        self.set(&[1; 32], &[0; 32]);
    }
}

// Changes the cost of the one task record that is lent.
fn change(row: &mut Row, cost: u32)
    ensures task { row.new.task ≡ with_cost row.old.task cost }
    ensures length { row.new.length ≡ row.old.length }
    ensures bound { row.new.bound ≡ row.old.bound }
{
    row.amend(cost);
}

fn is_length(region: u32, cost: u32) -> bool
    ensures { MatchBool result ((1 ≤ region) × (region ≤ cost)) ((1 ≤ region) × (region ≤ cost) → ⊥) }
{
    region >= 1 && region <= cost
}
