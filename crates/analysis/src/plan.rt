ghost use Rattle.std.specs.Prelude.{◌≡◌, ℕ, ◌<◌, ◌≤◌, false, length, take, MatchOption};
ghost use Rattle.analysis.specs.Rivals.{among};
ghost use Rattle.analysis.specs.Steps.{Padded};
ghost use Rattle.analysis.specs.Words.{FirstAt, StuckAt};
ghost use Rattle.analysis.specs.Planned.{PlanOf, NoPlanOf};

use crate::finder::{Finder, Halving, Trying};
use crate::lengths::length_by;
use crate::level::Level;
use crate::rivals::stands;
use crate::task_set::SmallSet;
use arrayvec::ArrayVec;
use interference::rule::Rule;
use interference::steady::SteadyRule;

// An order from the lowest place up, 0 past the last task, and lengths by task number, 1 past the last task. These are
// arrays since what they hold past the last task is part of the promise.
#[derive(Clone, Copy)]
pub struct Plan {
    pub order: [usize; 8],
    pub lengths: [u32; 32],
}

// The first order, read from the lowest place up by task number, that passes with some lengths, and the least of
// these. None where no order passes with any lengths.
pub fn seek_plan<R: Rule>(rule: &R, tasks: &SmallSet) -> Option<Plan>
    ensures { MatchOption result (NoPlanOf (R.Rule.meaning rule.now) tasks.now.set) (PlanOf (R.Rule.meaning rule.now) tasks.now.set) }
{
    plan_by(&Trying, rule, tasks)
}

// The same under a steady rule, with fewer questions.
pub fn quick_plan<R: SteadyRule>(rule: &R, tasks: &SmallSet) -> Option<Plan>
    ensures { MatchOption result (NoPlanOf (R.Rule.meaning rule.now) tasks.now.set) (PlanOf (R.Rule.meaning rule.now) tasks.now.set) }
{
    plan_by(&Halving, rule, tasks)
}

// The first task from a number on that passes on this level, with its first length.
fn candidate<R: Rule, F: Finder<R>>(
    finder: &F,
    rule: &R,
    level: &Level,
    from: usize,
) -> Option<(usize, u32)>
    ensures { MatchOption result ((y : ℕ) → from ≤ y → y < length level.now.set.tasks.now → StuckAt (R.Rule.meaning rule.now) level.now y)
        (λ p. (from ≤ p.0) × (p.0 < length level.now.set.tasks.now) × (among level.now.low.now p.0 ≡ false) × FirstAt (R.Rule.meaning rule.now) level.now p.0 p.1
        × ((y : ℕ) → from ≤ y → y < p.0 → StuckAt (R.Rule.meaning rule.now) level.now y)) }
{
    // tried as a chain of filter and find_map, the check did not end in 100 s
    'tasks: for x in from..level.set.tasks.len() {
        if !stands(level.low, x) {
            if let Some(f) = length_by(finder, rule, level, x) {
                return Some((x, f));
            }
        }
    }
    None
}

// The same with the finder as a parameter. Depth first, a level for each place from the lowest up. At a level without a
// candidate the search goes back to the task after the one that was placed last. The two above are this one with either
// finder; who wants no choice would be no plainer for naming one.
pub fn plan_by<R: Rule, F: Finder<R>>(finder: &F, rule: &R, tasks: &SmallSet) -> Option<Plan>
    ensures { MatchOption result (NoPlanOf (R.Rule.meaning rule.now) tasks.now.set) (PlanOf (R.Rule.meaning rule.now) tasks.now.set) }
{
    let set = tasks.set;
    let mut placed: ArrayVec<usize, 8> = ArrayVec::new();
    let mut lengths = [1; 32];
    let mut next = 0;
    'levels: while placed.len() < set.tasks.len() {
        let level = Level {
            set,
            lengths: &lengths,
            low: placed.as_slice(),
        };
        match candidate(finder, rule, &level, next) {
            Some((x, f)) => {
                placed.push(x);
                lengths[x] = f;
                next = 0;
            }
            None => {
                let last = placed.pop()?;
                next = last + 1;
            }
        }
    }
    let order = spread(placed.as_slice());
    Some(Plan { order, lengths })
}

// An order of at most eight tasks with 0 past the last one.
fn spread(placed: &[usize]) -> [usize; 8]
    requires { length placed.now ≤ 8 }
    ensures order { take (length placed.now) result ≡ placed.now }
    ensures padded { Padded (length placed.now) 0 result }
{
    let mut order = [0; 8];
    order[0..placed.len()].copy_from_slice(placed);
    order
}
