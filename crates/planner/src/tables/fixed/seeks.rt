ghost use Rattle.std.specs.Prelude.{◌≡◌};
ghost use Rattle.planner.specs.Tables.{holds};
ghost use Rattle.planner.specs.Calls.{LengthsSought};

use super::FixedTable;
use crate::marks::Marks;
use crate::refusal::Refusal;
use analysis::finder::{Finder, Halving, Trying};
use analysis::lengths::lengths_by;
use interference::rule::Rule;
use interference::steady::SteadyRule;

impl<R: Rule> FixedTable<R> {
    // Sets the least lengths with which every task passes in the standing order.
    pub fn seek_lengths(&mut self) -> Result<(), Refusal>
        ensures rule { self.new.rule ≡ self.old.rule }
        ensures call { LengthsSought (holds self.old) (R.Rule.meaning self.old.rule) result (holds self.new) }
    {
        self.lengths_by(&Trying)
    }

    fn lengths_by<F: Finder<R>>(&mut self, finder: &F) -> Result<(), Refusal>
        ensures rule { self.new.rule ≡ self.old.rule }
        ensures call { LengthsSought (holds self.old) (R.Rule.meaning self.old.rule) result (holds self.new) }
    {
        let tasks = self.rows.read_tasks();
        let Some(lengths) = lengths_by(finder, &self.rule, &self.ordered(&tasks)) else {
            return Err(Refusal::NoLengths);
        };
        self.settle(&lengths, Marks::PASSED);
        Ok(())
    }
}

impl<R: SteadyRule> FixedTable<R> {
    // Sets what seek lengths would set, with fewer questions. It is a call of its own by its name among the calls.
    pub fn quick_lengths(&mut self) -> Result<(), Refusal>
        ensures rule { self.new.rule ≡ self.old.rule }
        ensures call { LengthsSought (holds self.old) (R.Rule.meaning self.old.rule) result (holds self.new) }
    {
        self.lengths_by(&Halving)
    }
}
