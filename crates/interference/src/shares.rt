ghost use Rattle.std.specs.Prelude.{◌≡◌, ℕ, ◌+◌, ◌-◌, ◌≤◌, length, sum_by, min};
ghost use Rattle.interference.specs.declared.rival.Rival.{Rival as Other};
ghost use Rattle.interference.specs.Questions.{Query, RivalWithinLimits, RivalsWithinLimits};
ghost use Rattle.interference.specs.Shares.{workload, share_cap, carry_in_share, plain_share, handler_share};
ghost use Rattle.interference.specs.View.{query};

use crate::interrupt::Interrupt;
use crate::question::Question;
use crate::rival::Rival;

// How a rival's share of a window is counted.
pub(crate) trait Share {
    ghost share: { Query → Other → ℕ };

    fn of(&self, q: &Question, r: &Rival) -> u32
        requires { RivalWithinLimits r.now }
        ensures value { result ≡ share (query q.now) r.now }
        ensures fits { result ≤ 65535 };
}

// The first job of the rival may carry work in from before the window.
pub(crate) struct CarryIn;

impl Share for CarryIn {
    ghost share = { carry_in_share };

    fn of(&self, q: &Question, r: &Rival) -> u32 {
        capped(q, r.cost, r.period, q.window + r.finish - r.cost)
    }
}

// The rival carries nothing in.
pub(crate) struct Plain;

impl Share for Plain {
    ghost share = { plain_share };

    fn of(&self, q: &Question, r: &Rival) -> u32 {
        capped(q, r.cost, r.period, q.window)
    }
}

// The shares of some rivals, added up.
pub(crate) fn total<S: Share>(share: &S, q: &Question, rivals: &[Rival]) -> u32
    requires limits { RivalsWithinLimits rivals.now }
    requires few { length rivals.now ≤ 31 }
    ensures total { result ≡ sum_by (S.Share.share (query q.now)) rivals.now }
    ensures fits { result ≤ 2031585 }
{
    // as a chain of `map` and `sum` its proof did not close, since the share is a parameter
    let mut sum = 0;
    for r in rivals {
        sum += share.of(q, r);
    }
    sum
}

pub(crate) fn handler(q: &Question, i: Interrupt) -> u32
    ensures { result ≡ handler_share i.cost i.gap (query q.now) }
{
    capped(q, i.cost, i.gap, q.window)
}

// The workload, but no more than the cap of shares. Cost, period and ticks are the workload's own arguments, in the order
// of its definition; a struct of them would name nothing.
fn capped(q: &Question, cost: u32, period: u32, ticks: u32) -> u32
    requires { (cost ≤ period) × (1 ≤ period) }
    ensures { result ≡ min (workload cost period ticks) (share_cap (query q.now)) }
{
    work(cost, period, ticks).min(cap(q))
}

// The most that a task of this cost and period executes in so many ticks.
fn work(cost: u32, period: u32, ticks: u32) -> u32
    requires { (cost ≤ period) × (1 ≤ period) }
    ensures { result ≡ workload cost period ticks }
{
    ticks / period * cost + cost.min(ticks % period)
}

fn cap(q: &Question) -> u32
    ensures { result ≡ share_cap (query q.now) }
{
    q.window - q.demand + 1
}
