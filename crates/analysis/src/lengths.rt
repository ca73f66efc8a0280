ghost use Rattle.std.specs.Prelude.{ℕ, ◌<◌, length, MatchOption};
ghost use Rattle.analysis.specs.Rivals.{cost_of};
ghost use Rattle.analysis.specs.Steps.{FirstTo};
ghost use Rattle.analysis.specs.Words.{PassesAt, OrderedLengths, NoOrderedLengths};

use crate::finder::{Finder, Halving, Trying};
use crate::level::{Finishes, Level};
use crate::rivals::Rivals;
use crate::task_set::Ordered;
use interference::rule::Rule;
use interference::steady::SteadyRule;

// The least lengths with which all tasks pass in this order, by task number, and 1 past the last task. None where no
// choice of lengths passes. They are an array since what it holds past the last task is part of the promise.
pub fn seek_lengths<R: Rule>(rule: &R, tasks: &Ordered) -> Option<[u32; 32]>
    ensures { MatchOption result (NoOrderedLengths (R.Rule.meaning rule.now) tasks.now) (OrderedLengths (R.Rule.meaning rule.now) tasks.now) }
{
    lengths_by(&Trying, rule, tasks)
}

// The same under a steady rule, with fewer questions.
pub fn quick_lengths<R: SteadyRule>(rule: &R, tasks: &Ordered) -> Option<[u32; 32]>
    ensures { MatchOption result (NoOrderedLengths (R.Rule.meaning rule.now) tasks.now) (OrderedLengths (R.Rule.meaning rule.now) tasks.now) }
{
    lengths_by(&Halving, rule, tasks)
}

// The first length with which task k passes on a level.
pub(crate) fn length_by<R: Rule, F: Finder<R>>(
    finder: &F,
    rule: &R,
    level: &Level,
    k: usize,
) -> Option<u32>
    requires here { k < length level.now.set.tasks.now }
    ensures { FirstTo (PassesAt (R.Rule.meaning rule.now) level.now k) (cost_of level.now.set.tasks.now k) result }
{
    let mut upper = Rivals::new();
    let mut lower = Rivals::new();
    let place = level.place(k, &Finishes::Limits, &mut upper, &mut lower);
    finder.first(rule, &place)
}

// The same with the finder as a parameter: from the lowest place up, each task gets the first length that passes. The two
// above are this one with either finder; who wants no choice would be no plainer for naming one.
pub fn lengths_by<R: Rule, F: Finder<R>>(finder: &F, rule: &R, tasks: &Ordered) -> Option<[u32; 32]>
    ensures { MatchOption result (NoOrderedLengths (R.Rule.meaning rule.now) tasks.now) (OrderedLengths (R.Rule.meaning rule.now) tasks.now) }
{
    let mut lengths = [1; 32];
    'places: for (p, k) in tasks.order.iter().enumerate() {
        let level = Level {
            set: tasks.set,
            lengths: &lengths,
            low: &tasks.order[0..p],
        };
        let f = length_by(finder, rule, &level, *k)?;
        lengths[*k] = f;
    }
    Some(lengths)
}
