ghost use Rattle.std.specs.Prelude.{◌≡◌, ℕ, ◌+◌, ◌-◌, ◌/◌, ◌≤◌};
ghost use Rattle.interference.specs.Questions.{posed};
ghost use Rattle.analysis.specs.Passing.{own_demand};
ghost use Rattle.analysis.specs.Words.{Tells, RegionOf, MeetsAt, next_at};

use crate::place::Place;
use crate::rivals::limit;
use interference::question::Question;
use interference::rule::Rule;

// The one place that puts a question: an equal part of the rule's sum for each core, for a region of length f. A place and
// a region come side by side here and below: a type for both would be made anew for each length that is tried.
fn part<R: Rule>(rule: &R, place: &Place, window: u32, f: u32) -> u32
    requires region { RegionOf place.now f }
    requires window { (own_demand place.now.task f ≤ window) × (window ≤ 65535) }
    ensures part { result ≡ R.Rule.meaning rule.now (posed place.now.cores window (own_demand place.now.task f) f place.now.upper.now place.now.lower.now) / place.now.cores }
    ensures fits { result ≤ 1000000000 }
{
    let demand = place.task.cost - (f - 1);
    let q = Question {
        cores: place.cores,
        window,
        demand,
        region: f,
        upper: place.upper,
        lower: place.lower,
    };
    rule.sum(&q) / place.cores
}

// Whether the task passes with a region of length f.
pub fn passes<R: Rule>(rule: &R, place: &Place, f: u32) -> bool
    requires region { RegionOf place.now f }
    ensures { Tells result (MeetsAt (R.Rule.meaning rule.now) place.now f) }
{
    let start = limit(&place.task) - (f - 1);
    let demand = place.task.cost - (f - 1);
    demand + part(rule, place, start, f) <= start
}

// What the task's own equation gives for its bound.
pub fn next<R: Rule>(rule: &R, place: &Place, f: u32, b: u32) -> u32
    requires region { RegionOf place.now f }
    requires bound { (place.now.task.cost ≤ b) × (b ≤ 65535) }
    ensures { result ≡ next_at (R.Rule.meaning rule.now) place.now f b }
{
    let early = f - 1;
    early + (place.task.cost - early + part(rule, place, b - early, f))
}
