ghost use Rattle.std.specs.Prelude.{◌≡◌, ℕ, ◌<◌, ◌≤◌, length, MatchBool, MatchOption};
ghost use Rattle.interference.specs.Questions.{RivalWithinLimits, RivalsWithinLimits, Valid, posed};
ghost use Rattle.interference.specs.View.{query};

use super::Question;
use crate::limits::{MOST_CORES, MOST_RIVALS, MOST_TICKS};
use crate::rival::Rival;

impl<'a> Question<'a> {
    // The question with these parts, or nothing where a limit on questions does not hold.
    pub fn check(
        cores: u32,
        window: u32,
        demand: u32,
        region: u32,
        upper: &'a [Rival],
        lower: &'a [Rival],
    ) -> Option<Question<'a>>
        ensures { MatchOption result (Valid (posed cores window demand region upper.now lower.now) → ⊥)
            (λ q. query q ≡ posed cores window demand region upper.now lower.now) }
    {
        if cores < 1 || cores > MOST_CORES || region < 1 || region > MOST_TICKS {
            return None;
        }
        if demand < 1 || demand > window || window > MOST_TICKS {
            return None;
        }
        // the first test keeps the sum of the second within its type
        if upper.len() > MOST_RIVALS || upper.len() + lower.len() > MOST_RIVALS {
            return None;
        }
        if !are_within_limits(upper) || !are_within_limits(lower) {
            return None;
        }
        Some(Question {
            cores,
            window,
            demand,
            region,
            upper,
            lower,
        })
    }
}

fn is_within_limits(r: &Rival) -> bool
    ensures { MatchBool result (RivalWithinLimits r.now) (RivalWithinLimits r.now → ⊥) }
{
    r.cost <= r.finish
        && r.finish <= MOST_TICKS
        && r.cost <= r.period
        && r.period <= MOST_TICKS
        && r.period >= 1
}

fn are_within_limits(rivals: &[Rival]) -> bool
    ensures { MatchBool result (RivalsWithinLimits rivals.now) (RivalsWithinLimits rivals.now → ⊥) }
{
    rivals.iter().all(is_within_limits)
}
