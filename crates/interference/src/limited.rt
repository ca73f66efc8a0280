ghost use Rattle.std.specs.Prelude.{◌≡◌, ℕ, ◌+◌, ◌-◌, ◌<◌, ◌≤◌, max, slice_index};
ghost use Rattle.interference.specs.Sums.{carried, greatest_total, GreatestTotal, limited_sum};
ghost use Rattle.interference.specs.View.{query};
ghost use Rattle.interference.specs.LimitedLaws.{limited_lawful};

use crate::question::Question;
use crate::rule::Rule;
use crate::shares::{CarryIn, Plain, Share, total};
use std::array;

// The limited rule: at most one upper rival for each other core carries work into the window.
#[derive(Clone, Copy)]
pub struct Limited;

impl Rule for Limited {
    ghost meaning = { λ _ q. limited_sum q };

    ghost laws = { λ s. limited_lawful };

    fn sum(&self, q: &Question) -> u32 {
        total(&Plain, q, q.upper) + total(&CarryIn, q, q.lower) + (q.region - 1) + carried_work(q)
    }
}

// The most that carried work adds to the plain shares, over any choice of fewer upper rivals than there are cores.
pub fn carried_work(q: &Question) -> u32
    ensures greatest { GreatestTotal (carried (query q.now)) (q.now.cores - 1) q.now.upper.now result }
    ensures total { result ≡ greatest_total (carried (query q.now)) (q.now.cores - 1) q.now.upper.now }
    ensures fits { result ≤ 2031585 }
{
    // the greatest totals of at most 0, 1, .. 15 of the rivals so far
    let mut best = [0; 16];
    for r in q.upper {
        let carry_in = CarryIn.of(q, r);
        let plain = Plain.of(q, r);
        best = with_choice(&best, carry_in - plain);
    }
    best[q.cores as usize - 1]
}

// From the greatest totals of at most 0, 1, .. 15 of some numbers, those with one number more to choose from.
fn with_choice(best: &[u32; 16], more: u32) -> [u32; 16]
    requires low { more ≤ 65535 }
    requires small { (k : ℕ) → k < 16 → slice_index best.now k ≤ 2031585 }
    ensures none { slice_index result 0 ≡ slice_index best.now 0 }
    ensures some { (k : ℕ) → k < 15 → slice_index result (k + 1) ≡ max (more + slice_index best.now k) (slice_index best.now (k + 1)) }
{
    array::from_fn(|j| match j {
        0 => best[0],
        _ => best[j].max(more + best[j - 1]),
    })
}
