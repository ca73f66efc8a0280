ghost use Rattle.std.specs.Prelude.{◌≡◌, ℕ};
ghost use Rattle.interference.specs.Questions.{Query};
ghost use Rattle.interference.specs.Laws.{Lawful};
ghost use Rattle.interference.specs.View.{query};

use crate::question::Question;

// A rule says how much a task's rivals may take of its window, added up over all cores.
pub trait Rule {
    // the sum that the rule means for each question
    ghost meaning: { Self → Query → ℕ };

    fn sum(&self, q: &Question) -> u32
        ensures { result ≡ meaning self.now (query q.now) };

    ghost laws: { (s : Self) → Lawful (meaning s) };
}
