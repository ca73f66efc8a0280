ghost use Rattle.std.specs.Prelude.{ℕ, ◌+◌, ◌≤◌, length};
ghost use Rattle.interference.specs.Questions.{RivalsWithinLimits};
ghost use Rattle.analysis.specs.Rivals.{TaskWithinLimits};

use crate::task::Task;
use interference::rival::Rival;

// A task between its rivals: what all questions about it share. The lists of rivals are lent to it: if it owned them, both
// would be moved with it.
#[derive(Clone, Copy)]
pub struct Place<'a> {
    pub cores: u32,
    pub task: Task,
    pub upper: &'a [Rival],
    pub lower: &'a [Rival],
    ghost some: { 1 ≤ cores },
    ghost most: { cores ≤ 16 },
    ghost limits: { TaskWithinLimits task },
    ghost few: { length upper.now + length lower.now ≤ 31 },
    ghost uppers: { RivalsWithinLimits upper.now },
    ghost lowers: { RivalsWithinLimits lower.now },
}
