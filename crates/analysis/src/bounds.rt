ghost use Rattle.std.specs.Prelude.{◌≡◌, ℕ, ◌<◌, ◌≤◌, length, MatchBool, MatchOption, ◌≢◌, slice_index, slice_set};
ghost use Rattle.analysis.specs.Rivals.{finish_limit, cost_of, limit_of};
ghost use Rattle.analysis.specs.Steps.{FirstKept, Padded};
ghost use Rattle.analysis.specs.Words.{RegionOf, next_at, bound_in, KeepsIn, LeastSolutionIn, NoSolutionIn, OverrunIn, RisingIn, Grows};

use crate::level::Finishes;
use crate::passing::next;
use crate::place::Place;
use crate::rivals::{Rivals, limit};
use crate::task::Task;
use crate::task_set::Arranged;
use interference::rule::Rule;
use std::mem;

// The least bounds that solve the equations within the limits, by task number, and 0 past the last task. None where
// there is no solution. They are an array since what it holds past the last task is part of the promise.
pub fn seek_bounds<R: Rule>(rule: &R, tasks: &Arranged) -> Option<[u32; 32]>
    ensures { MatchOption result (NoSolutionIn (R.Rule.meaning rule.now) tasks.now)
        (λ bounds. LeastSolutionIn (R.Rule.meaning rule.now) tasks.now bounds × Padded (length tasks.now.ordered.set.tasks.now) 0 bounds) }
{
    let mut bounds = costs(tasks.ordered.set.tasks);
    'sweeping: while sweep(rule, tasks, &mut bounds)? {}
    Some(bounds)
}

// The bounds before the first sweep.
fn costs(tasks: &[Task]) -> [u32; 32]
    requires few { length tasks.now ≤ 32 }
    ensures costs { (k : ℕ) → k < length tasks.now → slice_index result k ≡ cost_of tasks.now k }
    ensures padded { Padded (length tasks.now) 0 result }
    ensures wide { length result ≡ 32 }
{
    let mut bounds = [0; 32];
    // over `iter_mut` and `zip` the loop's proof knows nothing of the array: it did not close
    for (i, t) in tasks.iter().enumerate() {
        bounds[i] = t.cost;
    }
    bounds
}

// Takes each task, highest place first, to the least solution of its own equation under the bounds of the others at
// that moment, and says whether a bound changed. None where a task has no such solution within its limit. Rule, tasks and
// bounds go on side by side, here and in the verdicts: one is lent to change, and a struct of the three would lend all.
fn sweep<R: Rule>(rule: &R, tasks: &Arranged, bounds: &mut [u32; 32]) -> Option<bool>
    requires rising { RisingIn (R.Rule.meaning rule.now) tasks.now bounds.old }
    ensures { MatchOption result (OverrunIn (R.Rule.meaning rule.now) tasks.now)
        (λ changed. RisingIn (R.Rule.meaning rule.now) tasks.now bounds.new
        × MatchBool changed (Grows tasks.now.ordered.set bounds.old bounds.new) (LeastSolutionIn (R.Rule.meaning rule.now) tasks.now bounds.new)) }
{
    let mut changed = false;
    // a number and no item: what stands at a place and below it is read in the steps, which no item has
    'places: for p in (0..tasks.ordered.order.len()).rev() {
        let raised = raise(rule, tasks, p, bounds)?;
        changed |= raised;
    }
    Some(changed)
}

// Takes the task at a place to the least solution of its own equation, and says whether that changed its bound.
fn raise<R: Rule>(rule: &R, tasks: &Arranged, p: usize, bounds: &mut [u32; 32]) -> Option<bool>
    requires place { p < length tasks.now.ordered.order.now }
    requires rising { RisingIn (R.Rule.meaning rule.now) tasks.now bounds.old }
    ensures { MatchOption result (OverrunIn (R.Rule.meaning rule.now) tasks.now)
        (λ raised. RisingIn (R.Rule.meaning rule.now) tasks.now bounds.new
        × MatchBool raised (Grows tasks.now.ordered.set bounds.old bounds.new)
        ((bounds.new ≡ bounds.old) × KeepsIn (R.Rule.meaning rule.now) tasks.now bounds.new (slice_index tasks.now.ordered.order.now p))) }
{
    let b = place_bound(rule, tasks, p, bounds)?;
    Some(store(bounds, tasks.ordered.order[p], b))
}

// Sets one bound, and says whether that changed it.
fn store(bounds: &mut [u32; 32], k: usize, b: u32) -> bool
    requires { k < 32 }
    ensures stored { bounds.new ≡ slice_set bounds.old k b }
    ensures changed { MatchBool result (b ≢ slice_index bounds.old k) (b ≡ slice_index bounds.old k) }
{
    mem::replace(&mut bounds[k], b) != b
}

// The least solution of the equation of the task at a place, under the bounds of the others.
fn place_bound<R: Rule>(rule: &R, tasks: &Arranged, p: usize, bounds: &[u32; 32]) -> Option<u32>
    requires place { p < length tasks.now.ordered.order.now }
    requires rising { RisingIn (R.Rule.meaning rule.now) tasks.now bounds.now }
    ensures { FirstKept (bound_in (R.Rule.meaning rule.now) tasks.now (slice_index tasks.now.ordered.order.now p) bounds.now)
        (cost_of tasks.now.ordered.set.tasks.now (slice_index tasks.now.ordered.order.now p)) (limit_of tasks.now.ordered.set.tasks.now (slice_index tasks.now.ordered.order.now p)) result }
{
    let k = tasks.ordered.order[p];
    let mut upper = Rivals::new();
    let mut lower = Rivals::new();
    let place = tasks
        .level(p)
        .place(k, &Finishes::Bounds(bounds), &mut upper, &mut lower);
    own_bound(rule, &place, tasks.lengths[k], bounds[k])
}

// The least solution of the task's own equation, from a bound that is no greater and that the equation does not lower.
fn own_bound<R: Rule>(rule: &R, place: &Place, f: u32, from: u32) -> Option<u32>
    requires region { RegionOf place.now f }
    requires bound { (place.now.task.cost ≤ from) × (from ≤ finish_limit place.now.task) }
    requires rises { from ≤ next_at (R.Rule.meaning rule.now) place.now f from }
    requires lowest { (v : ℕ) → place.now.task.cost ≤ v → v ≤ finish_limit place.now.task → next_at (R.Rule.meaning rule.now) place.now f v ≤ v → from ≤ v }
    ensures { FirstKept (next_at (R.Rule.meaning rule.now) place.now f) place.now.task.cost (finish_limit place.now.task) result }
{
    let most = limit(&place.task);
    let mut b = from;
    'climbing: loop {
        let asked = next(rule, place, f, b);
        if asked > most {
            break 'climbing None;
        }
        if asked == b {
            break 'climbing Some(b);
        }
        b = asked;
    }
}
