ghost use Rattle.std.specs.Prelude.{◌≡◌};
ghost use Rattle.planner.specs.Tables.{holds};
ghost use Rattle.planner.specs.Calls.{BoundsSought};

use super::FixedTable;
use crate::refusal::Refusal;
use analysis::bounds::seek_bounds as search_bounds;
use analysis::task_set::Arranged;
use interference::rule::Rule;

impl<R: Rule> FixedTable<R> {
    // Sets the least bounds that solve the equations within the deadlines.
    pub fn seek_bounds(&mut self) -> Result<(), Refusal>
        ensures rule { self.new.rule ≡ self.old.rule }
        ensures call { BoundsSought (holds self.old) (R.Rule.meaning self.old.rule) result (holds self.new) }
    {
        let tasks = self.rows.read_tasks();
        let lengths = self.rows.read_lengths();
        let arranged = Arranged {
            ordered: self.ordered(&tasks),
            lengths: &lengths[..self.rows.count()],
        };
        let Some(bounds) = search_bounds(&self.rule, &arranged) else {
            return Err(Refusal::NoBounds);
        };
        self.rows.set(&lengths, &bounds);
        self.marks.bounded = true;
        Ok(())
    }
}
