ghost use Rattle.std.specs.Prelude.{◌≡◌, ◌+◌, ◌≤◌, [], ◌++◌, length};
ghost use Rattle.analysis.specs.Rivals.{TasksWithinLimits};
ghost use Rattle.planner.specs.Tables.{held, opened};
ghost use Rattle.table_file.specs.Stored.{Valid};
ghost use Rattle.table_file.specs.Progress.{carried, view};
ghost use Rattle.table_file.specs.Sheets.{kept};

use super::Sheet;
use crate::reader::Reader;
use analysis::task::Task;
use planner::open::OpenTable;

impl Sheet {
    // Takes over what was read.
    pub(crate) fn fill(&mut self, reader: Reader)
        requires { Valid (carried (view reader)) }
        ensures { kept self.new ≡ carried (view reader) }
    {
        let Reader {
            cores,
            tasks,
            places,
            ..
        } = reader;
        clear(&mut self.table);
        // What was read is within the limits, so that no call is refused.
        let _ = self.table.cores(cores);
        enter_all(&mut self.table, &tasks);
        self.places = places;
    }
}

// Strikes the first task as long as there is one.
fn clear(table: &mut OpenTable)
    ensures { held table.new ≡ opened (held table.old).cores [] }
{
    while table.strike(1).is_ok() {}
}

// Enters tasks within the limits into a table that has room for them.
fn enter_all(table: &mut OpenTable, tasks: &[Task])
    requires room { length (held table.old).tasks + length tasks.now ≤ 32 }
    requires within { TasksWithinLimits tasks.now }
    ensures { held table.new ≡ opened (held table.old).cores ((held table.old).tasks ++ tasks.now) }
{
    for t in tasks {
        // There is room and the task is within the limits, so that the call is not refused.
        let _ = table.enter(*t);
    }
}
