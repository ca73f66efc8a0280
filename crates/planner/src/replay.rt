ghost use Rattle.std.specs.Prelude.{◌≡◌};
ghost use Rattle.planner.specs.Replaying.{came, answered};

use crate::columns::NO_TASK;
use crate::fixed::FixedTable;
use crate::marks::Marks;
use crate::open::OpenTable;
use crate::refusal::Refusal;
use analysis::task::Task;

mod reports;
mod turns;

pub use turns::replay;

// A call that an open table takes.
#[derive(Clone, Copy)]
pub enum OpenCall {
    Cores(u32),
    Enter(Task),
    Strike(u32),
    Amend(u32, u32),
}

// A call that a table fixed under any rule takes.
#[derive(Drop)]
pub enum FixedCall {
    Order(Vec<u32>),
    Stretch(u32, u32),
    SeekLengths,
    SeekPlan,
    SeekBounds,
}

// A call that a table fixed under a steady rule takes besides.
#[derive(Clone, Copy)]
pub enum QuickCall {
    Lengths,
    Plan,
}

// One call on a table. Each fix brings a rule of its own.
#[derive(Drop)]
pub enum Call<R, S> {
    Open(OpenCall),
    Fix(R),
    FixSteady(S),
    Fixed(FixedCall),
    Quick(QuickCall),
    Reopen,
}

// A table of any kind.
#[derive(Drop)]
pub enum Table<R, S> {
    Open(OpenTable),
    Fixed(FixedTable<R>),
    Steady(FixedTable<S>),
}

// What came of a call. A call that is not for a table of this kind is not applicable; as an `Option` of a `Result` that
// case would have no name.
#[derive(Clone, Copy, PartialEq, Eq, Debug)]
pub enum Outcome {
    Done,
    Refused(Refusal),
    NotApplicable,
}

impl From<Result<(), Refusal>> for Outcome {
    ghost from_gives = { λ r outcome. came outcome ≡ answered r };

    fn from(r: Result<(), Refusal>) -> Outcome {
        match r {
            Ok(()) => Outcome::Done,
            Err(refusal) => Outcome::Refused(refusal),
        }
    }
}

// How the tasks of a fixed table stand. Order is from the lowest place up, by task index; places has the task numbers, the
// highest place first; lengths and bounds are by task number.
#[derive(Clone, Copy, PartialEq, Eq, Debug)]
pub struct Standing {
    pub marks: Marks,
    pub order: [usize; 32],
    pub places: [u32; 32],
    pub lengths: [u32; 32],
    pub bounds: [u32; 32],
}

// What a call left: what came of it, and the whole table; an open one has no standing. Entries of a list from `count` on
// carry nothing: the lists are arrays, since a report is copied and `BLANK` is a constant, and an `ArrayVec` can be neither.
#[derive(Clone, Copy)]
pub struct Report {
    pub outcome: Outcome,
    pub cores: u32,
    pub count: usize,
    pub tasks: [Task; 32],
    pub fixed: Option<Standing>,
}

impl Report {
    // What a place for a report can hold before there is one; a constant, so that an array can be filled with it.
    pub const BLANK: Report = Report {
        outcome: Outcome::NotApplicable,
        cores: 0,
        count: 0,
        tasks: [NO_TASK; 32],
        fixed: None,
    };
}
