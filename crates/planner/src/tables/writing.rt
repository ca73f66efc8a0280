ghost use Rattle.std.specs.Prelude.{◌≡◌, ℕ, ◌≤◌, length, take, vec_len};
ghost use Rattle.planner.specs.Rows.{tasks, lengths, bounds};
ghost use Rattle.planner.specs.Tables.{kept};

use crate::columns::{lengths_of, tasks_of};
use crate::rows::{Row, Rows};
use analysis::task::Task;
use analysis::task_set::TaskSet;

impl Rows {
    // The tasks, in the first places of an array.
    pub(in crate::tables) fn read_tasks(&self) -> [Task; 32]
        ensures { take (vec_len self.now.items) result ≡ tasks self.now.items.items }
    {
        tasks_of(&self.items)
    }

    // The lengths, in the first places of an array.
    pub(in crate::tables) fn read_lengths(&self) -> [u32; 32]
        ensures { take (vec_len self.now.items) result ≡ lengths self.now.items.items }
    {
        lengths_of(&self.items)
    }

    // The tasks that were read, as the searches take them.
    pub(in crate::tables) fn task_set<'a>(&self, found: &'a [Task; 32]) -> TaskSet<'a>
        requires { take (vec_len self.now.items) found.now ≡ tasks self.now.items.items }
        ensures cores { result.cores ≡ (kept self.now).cores }
        ensures tasks { result.tasks.now ≡ (kept self.now).tasks }
    {
        TaskSet {
            cores: self.cores,
            tasks: &found[..self.items.len()],
        }
    }

    // Sets each length and each bound.
    pub(in crate::tables) fn set(&mut self, found: &[u32; 32], solved: &[u32; 32])
        ensures cores { self.new.cores ≡ self.old.cores }
        ensures len { vec_len self.new.items ≡ vec_len self.old.items }
        ensures tasks { tasks self.new.items.items ≡ tasks self.old.items.items }
        ensures lengths { lengths self.new.items.items ≡ take (vec_len self.old.items) found.now }
        ensures bounds { bounds self.new.items.items ≡ take (vec_len self.old.items) solved.now }
    {
        write(&mut self.items, found, solved);
    }
}

fn write(rows: &mut [Row], found: &[u32; 32], solved: &[u32; 32])
    requires { length rows.old ≤ 32 }
    ensures tasks { tasks rows.new ≡ tasks rows.old }
    ensures lengths { lengths rows.new ≡ take (length rows.old) found.now }
    ensures bounds { bounds rows.new ≡ take (length rows.old) solved.now }
{
    // the two lists are longer than the rows, so a zip of three would hide which end counts
    for (i, row) in rows.iter_mut().enumerate() {
        row.length = found[i];
        row.bound = solved[i];
    }
}
