ghost use Rattle.std.specs.Prelude.{◌≡◌, MatchResult};
ghost use Rattle.interference.specs.Handlers.{HandlerWithinLimits, number};

use crate::interrupt::Interrupt;
use crate::limits::MOST_TICKS;
use crate::refusal::Refusal;

impl Interrupt {
    // A handler of this cost and gap, refused exactly where 1 ≤ cost ≤ gap ≤ 65,535 does not hold.
    pub fn check(cost: u32, gap: u32) -> Result<Interrupt, Refusal>
        ensures { MatchResult result (λ i. HandlerWithinLimits cost gap × (i.cost ≡ cost) × (i.gap ≡ gap))
            (λ e. (HandlerWithinLimits cost gap → ⊥) × (number e ≡ 3)) }
    {
        if cost >= 1 && cost <= gap && gap <= MOST_TICKS {
            Ok(Interrupt { cost, gap })
        } else {
            Err(Refusal::Limits)
        }
    }
}
