ghost use Rattle.std.specs.Prelude.{Some};
ghost use Rattle.analysis.specs.Rivals.{task_text};

use std::fmt;

// A task: what one job executes at most, by when it must be finished, and the least time between two releases.
#[derive(Clone, Copy, Default)]
pub struct Task {
    pub cost: u32,
    pub deadline: u32,
    pub period: u32,
}

impl fmt::Display for Task {
    ghost output = { λ t. Some (task_text t) };

    fn fmt<W: fmt::Write>(&self, f: &mut fmt::Formatter<W>) -> fmt::Result {
        write!(
            f,
            "cost {}, deadline {}, period {}",
            self.cost, self.deadline, self.period
        )
    }
}
