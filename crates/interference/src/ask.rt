ghost use Rattle.std.specs.Prelude.{◌≡◌, ℕ, MatchOption};
ghost use Rattle.interference.specs.Questions.{Valid, posed};

use crate::question::Question;
use crate::rival::Rival;
use crate::rule::Rule;

// Puts the question with these parts to a rule: its sum, or nothing where a limit on questions does not hold.
// The parts come one by one: a struct of them would be the question again, but unchecked.
pub fn ask<'a, R: Rule>(
    rule: &R,
    cores: u32,
    window: u32,
    demand: u32,
    region: u32,
    upper: &'a [Rival],
    lower: &'a [Rival],
) -> Option<u32>
    ensures { MatchOption result (Valid (posed cores window demand region upper.now lower.now) → ⊥)
        (λ s. Valid (posed cores window demand region upper.now lower.now)
        × (s ≡ R.Rule.meaning rule.now (posed cores window demand region upper.now lower.now))) }
{
    let q = Question::check(cores, window, demand, region, upper, lower)?;
    Some(rule.sum(&q))
}
