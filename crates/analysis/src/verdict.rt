ghost use Rattle.std.specs.Prelude.{◌≡◌, ℕ, ◌<◌, ◌≤◌, length, MatchOption, ◌≢◌, slice_index};
ghost use Rattle.analysis.specs.Words.{Tells, WithinLimits, PassesIn, KeepsIn, SolutionIn};

use crate::level::Finishes;
use crate::passing::{next, passes};
use crate::rivals::{Rivals, limit};
use crate::task_set::{Arranged, TaskSet};
use interference::rule::Rule;

// Whether there is a task of this number and it passes.
pub fn task_passes<R: Rule>(rule: &R, tasks: &Arranged, k: usize) -> bool
    ensures { Tells result ((k < length tasks.now.ordered.set.tasks.now) × PassesIn (R.Rule.meaning rule.now) tasks.now k) }
{
    match place_of(tasks.ordered.order, k) {
        Some(p) => place_passes(rule, tasks, p),
        None => false,
    }
}

// The place of a task, counted from the lowest.
fn place_of(order: &[usize], k: usize) -> Option<usize>
    ensures { MatchOption result ((p : ℕ) → p < length order.now → slice_index order.now p ≢ k)
        (λ p. (p < length order.now) × (slice_index order.now p ≡ k)) }
{
    order.iter().position(|x| *x == k)
}

// Whether the task at a place passes.
fn place_passes<R: Rule>(rule: &R, tasks: &Arranged, p: usize) -> bool
    requires { p < length tasks.now.ordered.order.now }
    ensures { Tells result (PassesIn (R.Rule.meaning rule.now) tasks.now (slice_index tasks.now.ordered.order.now p)) }
{
    let k = tasks.ordered.order[p];
    let mut upper = Rivals::new();
    let mut lower = Rivals::new();
    let place = tasks
        .level(p)
        .place(k, &Finishes::Limits, &mut upper, &mut lower);
    passes(rule, &place, tasks.lengths[k])
}

// Whether these bounds, by task number, solve the equations within the limits.
pub fn is_solution<R: Rule>(rule: &R, tasks: &Arranged, bounds: &[u32]) -> bool
    ensures { Tells result ((length tasks.now.ordered.set.tasks.now ≤ length bounds.now) × SolutionIn (R.Rule.meaning rule.now) tasks.now bounds.now) }
{
    are_within(&tasks.ordered.set, bounds)
        && (0..tasks.ordered.order.len()).all(|p| keeps(rule, tasks, bounds, p))
}

// Whether each bound is at least the cost and at most the limit. A helper shared with is_choice would be no
// plainer: only the test of the length and the zip are alike, and it would need a contract over the closure.
fn are_within(set: &TaskSet, bounds: &[u32]) -> bool
    ensures { Tells result ((length set.now.tasks.now ≤ length bounds.now) × WithinLimits set.now bounds.now) }
{
    set.tasks.len() <= bounds.len()
        && set
            .tasks
            .iter()
            .zip(bounds)
            .all(|(t, b)| t.cost <= *b && *b <= limit(t))
}

// Whether the equation of the task at a place gives its bound.
fn keeps<R: Rule>(rule: &R, tasks: &Arranged, bounds: &[u32], p: usize) -> bool
    requires place { p < length tasks.now.ordered.order.now }
    requires room { length tasks.now.ordered.set.tasks.now ≤ length bounds.now }
    requires within { WithinLimits tasks.now.ordered.set bounds.now }
    ensures { Tells result (KeepsIn (R.Rule.meaning rule.now) tasks.now bounds.now (slice_index tasks.now.ordered.order.now p)) }
{
    let k = tasks.ordered.order[p];
    let mut upper = Rivals::new();
    let mut lower = Rivals::new();
    let place = tasks
        .level(p)
        .place(k, &Finishes::Bounds(bounds), &mut upper, &mut lower);
    next(rule, &place, tasks.lengths[k], bounds[k]) == bounds[k]
}
