use crate::exhaust::FirstPlan;
use crate::least::is_filled;
use crate::orders::orders;
use crate::ranges::Ranges;
use crate::searches::{bounds, lengths, plan};
use crate::subject::Trial;
use crate::tally::{Checks, Outcome, Scores, Tally};
use analysis::finder::Finder;
use analysis::plan::Plan;
use interference::rule::Rule;
use std::io;

impl<'a, R: Rule> Trial<'a, R> {
    // In every order of the tasks: the least lengths.
    pub fn try_lengths<F: Finder<R>>(&self, finder: &F, scores: &mut Scores) -> io::Result<()> {
        for order in orders(self.rt.alloc(), self.table.tasks.len())? {
            let least = self.least_lengths(&order, &mut scores.sums)?;
            let agrees = match lengths(finder, &self.subject.rule, self.table, &order) {
                Ok(found) => least.agrees(found.as_ref(), 1),
                Err(_) => false,
            };
            if scores.lengths.count(least.outcome, agrees) {
                println!(self.rt; "Lengths differ in the order {order:?}\n{}", self.table)?;
            }
        }
        Ok(())
    }

    // The first plan.
    pub fn try_plan<F: Finder<R>>(&self, finder: &F, scores: &mut Scores) -> io::Result<()> {
        let first = self.first_plan(&mut scores.sums)?;
        let agrees = match plan(finder, &self.subject.rule, self.table) {
            Ok(found) => is_same_plan(first.as_ref(), found.as_ref()),
            Err(_) => false,
        };
        let outcome = match &first {
            Some(plan) => plan.outcome,
            None => Outcome::Nothing,
        };
        if scores.plans.count(outcome, agrees) {
            println!(self.rt; "Plan differs\n{}", self.table)?;
        }
        Ok(())
    }

    // The least bounds, in every order of the tasks: with the shortest regions, the longest ones, and the least that
    // pass.
    pub fn try_bounds(&self, sums: &mut Checks, tally: &mut Tally) -> io::Result<()> {
        let heap = self.rt.alloc();
        let all = Ranges::lengths(heap, &self.table.tasks)?;
        let shortest = all.least(heap)?;
        let longest = all.most(heap)?;
        for order in orders(heap, self.table.tasks.len())? {
            self.try_bounds_with(&order, &shortest, sums, tally)?;
            self.try_bounds_with(&order, &longest, sums, tally)?;
            let least = self.least_lengths(&order, sums)?;
            if let Some(values) = &least.values {
                self.try_bounds_with(&order, values, sums, tally)?;
            }
        }
        Ok(())
    }

    fn try_bounds_with(
        &self,
        order: &[usize],
        lens: &[u32],
        sums: &mut Checks,
        tally: &mut Tally,
    ) -> io::Result<()> {
        let least = self.least_bounds(order, lens, sums)?;
        let agrees = match bounds(&self.subject.rule, self.table, order, lens) {
            Ok(found) => least.agrees(found.as_ref(), 0),
            Err(_) => false,
        };
        if tally.count(least.outcome, agrees) {
            println!(self.rt;
                "Bounds differ in the order {order:?} with the lengths {lens:?}\n{}",
                self.table
            )?;
        }
        Ok(())
    }
}

fn is_same_plan(first: Option<&FirstPlan>, found: Option<&Plan>) -> bool {
    match (first, found) {
        (None, None) => true,
        (Some(expected), Some(plan)) => {
            is_filled(&plan.order, &expected.order, 0)
                && expected.lengths.agrees(Some(&plan.lengths), 1)
        }
        _ => false,
    }
}
