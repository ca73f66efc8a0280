use crate::plain_sums::{Parts, plain_sum};
use crate::setting::Setting;
use crate::subject::Trial;
use crate::tally::Checks;
use analysis::task::Task;
use interference::ask::ask;
use interference::rule::Rule;
use std::io;

impl<'a, R: Rule> Trial<'a, R> {
    // Whether every task passes the deadline test.
    pub fn all_pass(&self, s: &Setting, sums: &mut Checks) -> io::Result<bool> {
        for (k, t) in self.table.tasks.iter().enumerate() {
            let window = t.deadline.saturating_sub(s.early(k));
            if self.response(s, k, t, window, sums)? > window {
                return Ok(false);
            }
        }
        Ok(true)
    }

    // Whether the latest finishes, each from its task's cost to its deadline, solve the equations of all tasks.
    pub fn all_solve(&self, s: &Setting, sums: &mut Checks) -> io::Result<bool> {
        for (k, t) in self.table.tasks.iter().enumerate() {
            let bound = s.finish(k);
            if bound < t.cost || bound > t.deadline {
                return Ok(false);
            }
            let window = bound.saturating_sub(s.early(k));
            if self.response(s, k, t, window, sums)? != window {
                return Ok(false);
            }
        }
        Ok(true)
    }

    // Task k's demand before the last tick of its region, and an equal part of its rivals' sum for each core.
    fn response(
        &self,
        s: &Setting,
        k: usize,
        t: &Task,
        window: u32,
        sums: &mut Checks,
    ) -> io::Result<u32> {
        let rivals = s.rivals(self.rt.alloc(), k)?;
        let demand = t.cost.saturating_sub(s.early(k));
        let q = Parts {
            cores: self.table.cores,
            window,
            demand,
            region: s.early(k).saturating_add(1),
            upper: &rivals.upper,
            lower: &rivals.lower,
        };
        match self.compared(&q, sums)? {
            Some(sum) => Ok(demand.saturating_add(sum / q.cores.max(1))),
            None => Ok(u32::MAX),
        }
    }

    // The rule's sum for a question, compared with the plain one and counted. None, and counted as a difference, where
    // the question is refused.
    fn compared(&self, q: &Parts, sums: &mut Checks) -> io::Result<Option<u32>> {
        let rule = &self.subject.rule;
        let sum = ask(
            rule, q.cores, q.window, q.demand, q.region, q.upper, q.lower,
        );
        if sums.count(sum == Some(plain_sum(&self.subject.meaning, q))) {
            println!(self.rt;
                "Sum differs: window {}, demand {}, region {}",
                q.window, q.demand, q.region
            )?;
            println!(self.rt; "{}", self.table)?;
        }
        Ok(sum)
    }
}
