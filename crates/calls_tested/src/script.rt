use analysis::task::Task;
use interference::choice::Choice;
use interference::full::Full;
use interference::handler::Handler;
use interference::interrupt::Interrupt;
use interference::limited::Limited;
use planner::replay::{Call, FixedCall, OpenCall, QuickCall};
use std::alloc::Global;
use std::test::Fail;

// The rules that a script fixes a table under: any of two, and one of two steady ones.
pub type Plain = Choice<Full, Limited>;

pub type Steady = Choice<Full, Handler<Full>>;

// One call of a script.
#[derive(Clone, Copy)]
pub enum Step {
    Cores(u32),
    Enter(u32, u32, u32),
    Strike(u32),
    Amend(u32, u32),
    FixFull,
    FixLimited,
    FixSteady,
    FixHandler(u32, u32),
    Order([u32; 4]),
    Stretch(u32, u32),
    SeekLengths,
    SeekPlan,
    SeekBounds,
    Quick(QuickCall),
    Reopen,
}

// A step as a call on an open table, or else on a fixed one.
fn call(heap: Global, step: Step) -> Result<Call<Plain, Steady>, Fail> {
    Ok(match step {
        Step::Cores(count) => Call::Open(OpenCall::Cores(count)),
        Step::Enter(cost, deadline, period) => Call::Open(OpenCall::Enter(Task {
            cost,
            deadline,
            period,
        })),
        Step::Strike(number) => Call::Open(OpenCall::Strike(number)),
        Step::Amend(number, cost) => Call::Open(OpenCall::Amend(number, cost)),
        Step::FixFull => Call::Fix(Choice::First(Full)),
        Step::FixLimited => Call::Fix(Choice::Second(Limited)),
        Step::FixSteady => Call::FixSteady(Choice::First(Full)),
        Step::FixHandler(cost, gap) => Call::FixSteady(Choice::Second(Handler {
            interrupt: Interrupt::check(cost, gap)?,
            below: Full,
        })),
        Step::Order(places) => Call::Fixed(FixedCall::Order(places.to_vec(heap)?)),
        Step::Stretch(number, region) => Call::Fixed(FixedCall::Stretch(number, region)),
        Step::SeekLengths => Call::Fixed(FixedCall::SeekLengths),
        Step::SeekPlan => Call::Fixed(FixedCall::SeekPlan),
        Step::SeekBounds => Call::Fixed(FixedCall::SeekBounds),
        Step::Quick(search) => Call::Quick(search),
        Step::Reopen => Call::Reopen,
    })
}

// The calls of a script, whose steps stand beside the lines that are to come of them.
pub fn calls(heap: Global, script: &[(Step, &str)]) -> Result<Vec<Call<Plain, Steady>>, Fail> {
    let mut made = Vec::new(heap);
    for (step, _) in script {
        made.push(call(heap, *step)?)?;
    }
    Ok(made)
}
