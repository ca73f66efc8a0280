ghost use Rattle.std.specs.Prelude.{◌≡◌, ℕ, ◌≤◌, length, take};
ghost use Rattle.std.specs.List.{AllZip};
ghost use Rattle.std.specs.Fn.{FnReturnsAt};
ghost use Rattle.planner.specs.Rows.{tasks, lengths, bounds};

use crate::rows::Row;
use analysis::task::Task;

// what stands in a list where there is no task; a constant, since a blank report is one
pub(crate) const NO_TASK: Task = Task {
    cost: 0,
    deadline: 0,
    period: 0,
};

// `rows()` lends a slice, so that each of these asks again for what a table keeps of its length.

// The tasks, in the first places.
pub(crate) fn tasks_of(rows: &[Row]) -> [Task; 32]
    requires { length rows.now ≤ 32 }
    ensures { take (length rows.now) result ≡ tasks rows.now }
{
    column(rows, Task::default(), |row| row.task)
}

// The lengths, in the first places.
pub(crate) fn lengths_of(rows: &[Row]) -> [u32; 32]
    requires { length rows.now ≤ 32 }
    ensures { take (length rows.now) result ≡ lengths rows.now }
{
    column(rows, 0, |row| row.length)
}

// The bounds, in the first places.
pub(crate) fn bounds_of(rows: &[Row]) -> [u32; 32]
    requires { length rows.now ≤ 32 }
    ensures { take (length rows.now) result ≡ bounds rows.now }
{
    column(rows, 0, |row| row.bound)
}

// What one entry of each row is, in the first places of an array: a report holds such arrays, and one way to read a column
// serves the searches too.
fn column<T: Copy, F: Fn(&Row) -> T>(rows: &[Row], blank: T, entry: F) -> [T; 32]
    requires short { length rows.now ≤ 32 }
    requires callable { F.IsAlwaysCallable entry }
    ensures { AllZip (FnReturnsAt F.Fn entry) rows.now (take (length rows.now) result) }
{
    let mut found = [blank; 32];
    // as a zip with `found.iter_mut()` its proof did not close
    for (i, row) in rows.iter().enumerate() {
        found[i] = entry(row);
    }
    found
}
