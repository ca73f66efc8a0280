ghost use Rattle.std.specs.Prelude.{◌≡◌, ◌≤◌};
ghost use Rattle.interference.specs.Laws.{Grown, GrowsTogether};
ghost use Rattle.interference.specs.View.{query};

use crate::question::Question;
use crate::rule::Rule;

// The sums of two questions. That they do not fall where everything grows together follows from the three laws of
// any rule, one change after the other.
pub fn both_sums<R: Rule>(rule: &R, first: &Question, second: &Question) -> (u32, u32)
    ensures first { result.0 ≡ R.Rule.meaning rule.now (query first.now) }
    ensures second { result.1 ≡ R.Rule.meaning rule.now (query second.now) }
    ensures grows { Grown (query first.now) (query second.now) → result.0 ≤ result.1 }
    ensures always { GrowsTogether (R.Rule.meaning rule.now) }
{
    grow_together(rule, first, second);
    (rule.sum(first), rule.sum(second))
}

fn grow_together<R: Rule>(rule: &R, first: &Question, second: &Question)
    ensures here { Grown (query first.now) (query second.now)
        → R.Rule.meaning rule.now (query first.now) ≤ R.Rule.meaning rule.now (query second.now) }
    ensures always { GrowsTogether (R.Rule.meaning rule.now) }
{}
