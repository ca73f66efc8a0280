ghost use Rattle.std.specs.Prelude.{◌≡◌};
ghost use Rattle.planner.specs.Tables.{holds};
ghost use Rattle.planner.specs.Calls.{PlanSought};

use super::FixedTable;
use crate::marks::Marks;
use crate::refusal::Refusal;
use analysis::finder::{Finder, Halving, Trying};
use analysis::limits::MOST_PLANNED;
use analysis::plan::plan_by;
use analysis::task_set::SmallSet;
use interference::rule::Rule;
use interference::steady::SteadyRule;

impl<R: Rule> FixedTable<R> {
    // Sets the first order that passes with some lengths, and the least of these.
    pub fn seek_plan(&mut self) -> Result<(), Refusal>
        ensures rule { self.new.rule ≡ self.old.rule }
        ensures call { PlanSought (holds self.old) (R.Rule.meaning self.old.rule) result (holds self.new) }
    {
        self.plan_by(&Trying)
    }

    fn plan_by<F: Finder<R>>(&mut self, finder: &F) -> Result<(), Refusal>
        ensures rule { self.new.rule ≡ self.old.rule }
        ensures call { PlanSought (holds self.old) (R.Rule.meaning self.old.rule) result (holds self.new) }
    {
        // before the tasks are read: a refusal costs the same, however many there are
        if self.rows.count() > MOST_PLANNED {
            return Err(Refusal::TooManyTasks);
        }
        let tasks = self.rows.read_tasks();
        let set = self.rows.task_set(&tasks);
        let Some(plan) = plan_by(finder, &self.rule, &SmallSet { set }) else {
            return Err(Refusal::NoPlan);
        };
        self.arrange(&plan.order, &plan.lengths, Marks::PASSED);
        Ok(())
    }
}

impl<R: SteadyRule> FixedTable<R> {
    // Sets what seek plan would set, with fewer questions. It is a call of its own by its name among the calls.
    pub fn quick_plan(&mut self) -> Result<(), Refusal>
        ensures rule { self.new.rule ≡ self.old.rule }
        ensures call { PlanSought (holds self.old) (R.Rule.meaning self.old.rule) result (holds self.new) }
    {
        self.plan_by(&Halving)
    }
}
