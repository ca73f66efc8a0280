ghost use Rattle.std.specs.Prelude.{ℕ, ◌<◌, ◌≤◌, List, length};
ghost use Rattle.interference.specs.Sums.{full_sum, limited_sum};
ghost use Rattle.analysis.specs.declared.task.Task.{Task as Row};
ghost use Rattle.analysis.specs.Passing.{Passes};
ghost use Rattle.analysis.specs.Bounds.{Solution};
ghost use Rattle.analysis.specs.FourTests.{DeadlineAnalysis, LimitedDeadlineAnalysis, ResponseTimeAnalysis, LimitedResponseTimeAnalysis, Equivalent};
ghost use Rattle.analysis.specs.Words.{Tells, In};

use crate::task_set::Arranged;
use crate::verdict::{is_solution, task_passes};
use interference::full::Full;
use interference::limited::Limited;

// One function over the rule would be no plainer: each of the four states its own written-out form.

// Deadline analysis of one task.
#[tactic(auto, using(crate::proofs::Written::deadline_tells, crate::proofs::Written::deadline_written))]
pub fn deadline_analysis(tasks: &Arranged, k: usize) -> bool
    ensures decides { Tells result ((k < length tasks.now.ordered.set.tasks.now) × In DeadlineAnalysis tasks.now k) }
    ensures general { (m : ℕ) (ts : List Row) (q lens : List ℕ) (j : ℕ) → Equivalent (Passes full_sum m ts q lens j) (DeadlineAnalysis m ts q lens j) }
{
    task_passes(&Full, tasks, k)
}

// Deadline analysis of one task with limited carry-in.
#[tactic(auto, using(crate::proofs::Written::limited_deadline_tells, crate::proofs::Written::limited_deadline_written))]
pub fn limited_deadline_analysis(tasks: &Arranged, k: usize) -> bool
    ensures decides { Tells result ((k < length tasks.now.ordered.set.tasks.now) × In LimitedDeadlineAnalysis tasks.now k) }
    ensures general { (m : ℕ) (ts : List Row) (q lens : List ℕ) (j : ℕ) → Equivalent (Passes limited_sum m ts q lens j) (LimitedDeadlineAnalysis m ts q lens j) }
{
    task_passes(&Limited, tasks, k)
}

// Response time analysis of bounds by task number.
#[tactic(auto, using(crate::proofs::Written::response_tells))]
pub fn response_time_analysis(tasks: &Arranged, bounds: &[u32]) -> bool
    ensures decides { Tells result ((length tasks.now.ordered.set.tasks.now ≤ length bounds.now) × In ResponseTimeAnalysis tasks.now bounds.now) }
    ensures general { (m : ℕ) (ts : List Row) (q lens bs : List ℕ) → Equivalent (Solution full_sum m ts q lens bs) (ResponseTimeAnalysis m ts q lens bs) }
{
    is_solution(&Full, tasks, bounds)
}

// Response time analysis of bounds by task number, with limited carry-in.
#[tactic(auto, using(crate::proofs::Written::limited_response_tells))]
pub fn limited_response_time_analysis(tasks: &Arranged, bounds: &[u32]) -> bool
    ensures decides { Tells result ((length tasks.now.ordered.set.tasks.now ≤ length bounds.now) × In LimitedResponseTimeAnalysis tasks.now bounds.now) }
    ensures general { (m : ℕ) (ts : List Row) (q lens bs : List ℕ) → Equivalent (Solution limited_sum m ts q lens bs) (LimitedResponseTimeAnalysis m ts q lens bs) }
{
    is_solution(&Limited, tasks, bounds)
}
