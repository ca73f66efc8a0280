use interference::rival::Rival;

// The two rules at the bottom of all layers.
#[derive(Clone, Copy)]
pub enum Bottom {
    Full,
    Limited,
}

// The cost of a handler, and the least gap between the starts of two of its runs.
#[derive(Clone, Copy)]
pub struct Runs {
    pub cost: u32,
    pub gap: u32,
}

// A rule as plain data: which sum it means, and the handler above it, if there is one.
#[derive(Clone, Copy)]
pub struct Meaning {
    pub bottom: Bottom,
    pub handler: Option<Runs>,
}

// The parts of a question. It is a type of its own, so that the second way to work a sum out shares no code with what
// is tried: a `Question` would be made by the check that is tried too.
#[derive(Clone, Copy)]
pub struct Parts<'a> {
    pub cores: u32,
    pub window: u32,
    pub demand: u32,
    pub region: u32,
    pub upper: &'a [Rival],
    pub lower: &'a [Rival],
}

// Counted tick by tick: with a release at every multiple of the period, the ticks in which the task executes if each
// job executes at once.
fn workload(cost: u32, period: u32, ticks: u32) -> u32 {
    // counted by `fold`, since `count` gives a usize
    (0..ticks)
        .filter(|x| x % period.max(1) < cost)
        .fold(0u32, |executed, _| executed.saturating_add(1))
}

fn capped(q: &Parts, work: u32) -> u32 {
    work.min(q.window.saturating_sub(q.demand).saturating_add(1))
}

fn carry_in(q: &Parts, r: &Rival) -> u32 {
    let ticks = q.window.saturating_add(r.finish).saturating_sub(r.cost);
    capped(q, workload(r.cost, r.period, ticks))
}

fn plain(q: &Parts, r: &Rival) -> u32 {
    capped(q, workload(r.cost, r.period, q.window))
}

// The shares of some rivals, added up.
fn total<F: Fn(&Rival) -> u32>(rivals: &[Rival], share: F) -> u32
    requires { F.IsAlwaysCallable share }
{
    rivals
        .iter()
        .fold(0u32, |sum, r| sum.saturating_add(share(r)))
}

// What the upper rivals of one choice carry in beyond their plain shares, the choice by the binary digits of a
// number. Nothing where it has as many rivals as there are cores.
fn carried_by(q: &Parts, choice: u32) -> u32 {
    let mut rest = choice;
    let mut chosen = 0u32;
    let mut sum = 0u32;
    for r in q.upper {
        if rest % 2 == 1 {
            chosen = chosen.saturating_add(1);
            sum = sum.saturating_add(carry_in(q, r).saturating_sub(plain(q, r)));
        }
        rest = rest / 2;
    }
    if chosen < q.cores { sum } else { 0 }
}

// The greatest of these over all choices.
fn carried(q: &Parts) -> u32 {
    // no `saturating_pow`: the exponent would be a length cast to u32
    let choices = q.upper.iter().fold(1u32, |n, _| n.saturating_mul(2));
    (0..choices)
        .map(|choice| carried_by(q, choice))
        .max()
        .unwrap_or(0)
}

// The sum that a rule means, straight from the definitions.
pub fn plain_sum(meaning: &Meaning, q: &Parts) -> u32 {
    let lower = total(q.lower, |r| carry_in(q, r));
    let below = match meaning.bottom {
        Bottom::Full => total(q.upper, |r| carry_in(q, r)).saturating_add(lower),
        Bottom::Limited => total(q.upper, |r| plain(q, r))
            .saturating_add(lower)
            .saturating_add(q.region.saturating_sub(1))
            .saturating_add(carried(q)),
    };
    match meaning.handler {
        Some(i) => below.saturating_add(capped(q, workload(i.cost, i.gap, q.window))),
        None => below,
    }
}
