ghost use Rattle.interference.specs.Choosing.{chosen_sum};
ghost use Rattle.interference.specs.declared.choice.Choice.TheVariants.{First, Second};

use crate::question::Question;
use crate::rule::Rule;

// One of two rules, so that rules of several types can serve where one type is asked for. It is no `Result`: neither
// rule is an error.
#[derive(Clone, Copy, Drop)]
pub enum Choice<A, B> {
    First(A),
    Second(B),
}

impl<X: Rule, Y: Rule> Rule for Choice<X, Y> {
    ghost meaning = { chosen_sum X.Rule.meaning Y.Rule.meaning };

    ghost laws = { elim [ First x ↦ X.Rule.laws x | Second y ↦ Y.Rule.laws y ] };

    fn sum(&self, q: &Question) -> u32 {
        match self {
            Choice::First(rule) => rule.sum(q),
            Choice::Second(rule) => rule.sum(q),
        }
    }
}
