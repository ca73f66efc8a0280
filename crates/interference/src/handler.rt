ghost use Rattle.interference.specs.Sums.{layered};
ghost use Rattle.std.proofs.Common.{arith};
ghost use Rattle.interference.specs.LayerLaws.{layered_lawful};

use crate::interrupt::Interrupt;
use crate::limits::MOST_SUM;
use crate::question::Question;
use crate::rule::Rule;
use crate::shares::handler;

// A layer: the share of an interrupt handler on top of the sum of the rule below.
#[derive(Clone, Copy, Drop)]
pub struct Handler<R> {
    pub interrupt: Interrupt,
    pub below: R,
}

impl<R: Rule> Rule for Handler<R> {
    ghost meaning = { λ s q. layered s.interrupt.cost s.interrupt.gap q (R.Rule.meaning s.below q) };

    ghost laws = { λ s. layered_lawful s.interrupt.cost s.interrupt.gap (omega arith) (R.Rule.meaning s.below) (R.Rule.laws s.below) };

    fn sum(&self, q: &Question) -> u32 {
        (self.below.sum(q) + handler(q, self.interrupt)).min(MOST_SUM)
    }
}
