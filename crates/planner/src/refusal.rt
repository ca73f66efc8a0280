ghost use Rattle.std.specs.Prelude.{◌≡◌};
ghost use Rattle.planner.specs.Refusals.{number};

// Why a call was refused.
#[derive(Clone, Copy, PartialEq, Eq, Debug)]
pub enum Refusal {
    // the core count is 0 or above 16
    CoreCount = 1,
    // the table has 32 tasks
    TableFull = 2,
    // the limits on cost, deadline and period do not hold
    Limits = 3,
    // no task has this number
    NoSuchTask = 4,
    // the tasks are not named once each
    NotAPermutation = 5,
    // the length is 0 or above the cost
    Length = 6,
    // no lengths pass in the standing order
    NoLengths = 7,
    // there are more than 8 tasks
    TooManyTasks = 8,
    // no order with any lengths passes
    NoPlan = 9,
    // no bounds solve the equations within the deadlines
    NoBounds = 10,
    // a list is too short
    TooShort = 11,
}

// The number that users know a refusal by.
impl From<Refusal> for u8 {
    ghost from_gives = { λ refusal n. n ≡ number refusal };

    fn from(refusal: Refusal) -> u8 {
        refusal as u8
    }
}
