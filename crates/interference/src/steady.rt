ghost use Rattle.std.specs.Prelude.{◌≡◌, ℕ, ◌<◌};
ghost use Rattle.interference.specs.Questions.{Valid, moved};
ghost use Rattle.interference.specs.Sums.{full_sum, limited_sum, layered};
ghost use Rattle.interference.specs.Laws.{Steady, alone};

use crate::choice::Choice;
use crate::full::Full;
use crate::handler::Handler;
use crate::limited::Limited;
use crate::question::Question;
use crate::rule::Rule;

// A steady rule: its sum does not rise when ticks are moved from the end of the demand into the region, so that a
// task which passes with one region length passes with every longer one.
pub trait SteadyRule: Rule {
    fn steadies(&self)
        ensures { Steady (Self.Rule.meaning self.now) };
}

impl SteadyRule for Full {
    fn steadies(&self) {
        full_steadies();
    }
}

fn full_steadies()
    ensures { Steady full_sum }
{}

impl<R: SteadyRule> SteadyRule for Handler<R> {
    fn steadies(&self) {
        self.below.steadies();
        layer_steadies(self);
    }
}

fn layer_steadies<R: Rule>(layer: &Handler<R>)
    requires { Steady (R.Rule.meaning layer.now.below) }
    ensures { Steady (λ q. layered layer.now.interrupt.cost layer.now.interrupt.gap q (R.Rule.meaning layer.now.below q)) }
{}

impl<X: SteadyRule, Y: SteadyRule> SteadyRule for Choice<X, Y> {
    fn steadies(&self) {
        match self {
            Choice::First(rule) => rule.steadies(),
            Choice::Second(rule) => rule.steadies(),
        }
    }
}

// The limited rule is not steady: a task alone on one core with cost and window 5 meets no interference with a
// region of length 1, and with length 2 a push-through of one tick.
pub fn limited_rises() -> (u32, u32)
    ensures before { result.0 ≡ limited_sum alone }
    ensures after { result.1 ≡ limited_sum (moved alone 1) }
    ensures rises { result.0 < result.1 }
    ensures valid { (Valid alone) × (Valid (moved alone 1)) }
    ensures refuted { Steady limited_sum → ⊥ }
{
    limited_is_refuted();
    let before = Question {
        cores: 1,
        window: 5,
        demand: 5,
        region: 1,
        upper: &[],
        lower: &[],
    };
    let after = Question {
        cores: 1,
        window: 4,
        demand: 4,
        region: 2,
        upper: &[],
        lower: &[],
    };
    (Limited.sum(&before), Limited.sum(&after))
}

fn limited_is_refuted()
    ensures valid { (Valid alone) × (Valid (moved alone 1)) }
    ensures refuted { Steady limited_sum → ⊥ }
{}
