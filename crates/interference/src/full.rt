ghost use Rattle.interference.specs.Sums.{full_sum};
ghost use Rattle.interference.specs.FullLaws.{full_lawful};

use crate::question::Question;
use crate::rule::Rule;
use crate::shares::{CarryIn, total};

// The full rule: every rival may carry work into the window.
#[derive(Clone, Copy)]
pub struct Full;

impl Rule for Full {
    ghost meaning = { λ _ q. full_sum q };

    ghost laws = { λ s. full_lawful };

    fn sum(&self, q: &Question) -> u32 {
        total(&CarryIn, q, q.upper) + total(&CarryIn, q, q.lower)
    }
}
