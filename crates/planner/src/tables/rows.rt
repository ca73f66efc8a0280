ghost use Rattle.std.specs.Prelude.{◌≡◌, ℕ, ◌≤◌, vec_len, vec_capacity};
ghost use Rattle.analysis.specs.Rivals.{TasksWithinLimits};
ghost use Rattle.planner.specs.Rows.{tasks};

use analysis::task::Task;

// One task record of a table: the task, its region length and its bound. An open table does not use the last two.
#[derive(Clone, Copy)]
pub struct Row {
    pub task: Task,
    pub length: u32,
    pub bound: u32,
}

impl Row {
    // Changes the cost.
    pub(in crate::tables) fn amend(&mut self, cost: u32)
        ensures task { self.new.task ≡ record { cost = cost; deadline = self.old.task.deadline; period = self.old.task.period } }
        ensures length { self.new.length ≡ self.old.length }
        ensures bound { self.new.bound ≡ self.old.bound }
    {
        self.task.cost = cost;
    }
}

// What both kinds of table hold: 1 to 16 cores, and at most 32 tasks within their limits. The room for 32 is
// reserved when the table is made, so that nothing later wants memory.
#[derive(Drop)]
pub struct Rows {
    pub(in crate::tables) cores: u32,
    pub(in crate::tables) items: Vec<Row>,
    ghost some: { 1 ≤ cores },
    ghost most: { cores ≤ 16 },
    ghost few: { vec_len items ≤ 32 },
    ghost room: { 32 ≤ vec_capacity items },
    ghost limits: { TasksWithinLimits (tasks items.items) },
}
