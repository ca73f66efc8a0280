ghost use Rattle.std.specs.Prelude.{ℕ, ◌≤◌};
ghost use Rattle.analysis.specs.Steps.{FirstTo};
ghost use Rattle.analysis.specs.Words.{MeetsAt};

use crate::passing::passes;
use crate::place::Place;
use interference::rule::Rule;
use interference::steady::SteadyRule;

// A way to find the first region length that passes under a rule.
pub trait Finder<R: Rule> {
    fn first(&self, rule: &R, place: &Place) -> Option<u32>
        ensures { FirstTo (MeetsAt (R.Rule.meaning rule.now) place.now) place.now.task.cost result };
}

// Tries 1, 2, 3 and so on, and stops at the first that passes.
#[derive(Clone, Copy)]
pub struct Trying;

impl<R: Rule> Finder<R> for Trying {
    fn first(&self, rule: &R, place: &Place) -> Option<u32> {
        // no `for`: the loop itself yields the length, by its breaks
        let mut f = 1;
        'lengths: loop {
            if f > place.task.cost {
                break 'lengths None;
            }
            if passes(rule, place, f) {
                break 'lengths Some(f);
            }
            f += 1;
        }
    }
}

// Halves the range: under a steady rule a longer region passes where a shorter one does.
#[derive(Clone, Copy)]
pub struct Halving;

impl<R: SteadyRule> Finder<R> for Halving {
    fn first(&self, rule: &R, place: &Place) -> Option<u32> {
        rule.steadies();
        if !passes(rule, place, place.task.cost) {
            return None;
        }
        let mut least = 1;
        let mut most = place.task.cost;
        'halving: while least < most {
            let half = least + (most - least) / 2;
            if passes(rule, place, half) {
                most = half;
            } else {
                least = half + 1;
            }
        }
        Some(most)
    }
}
