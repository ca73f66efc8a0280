ghost use Rattle.std.specs.Prelude.{◌≡◌, ℕ, ◌<◌, ◌≤◌, [], length, slice_index, slice_index_or};
ghost use Rattle.analysis.specs.Rivals.{no_task, cost_of, uppers, lowers};
ghost use Rattle.analysis.specs.Plans.{IsChoice};
ghost use Rattle.analysis.specs.Finishes.{latest, Fit};

use crate::place::Place;
use crate::rivals::{Rivals, as_rival, limit, stands};
use crate::task::Task;
use crate::task_set::TaskSet;

// By when each rival is finished at the latest: by its limit, or by its own bound. An Option is no plainer: its None
// would not say that rivals finish by their limits.
#[derive(Clone, Copy)]
pub enum Finishes<'a> {
    Limits,
    Bounds(&'a [u32]),
}

impl<'a> Finishes<'a> {
    fn of(&self, tasks: &[Task], j: usize) -> u32
        requires here { j < length tasks.now }
        requires fit { Fit tasks.now self.now }
        ensures { result ≡ slice_index (latest tasks.now self.now) j }
    {
        match self {
            Finishes::Limits => limit(&tasks[j]),
            Finishes::Bounds(bounds) => bounds[j],
        }
    }
}

// A level of an order: the tasks of the list stand below it, with their lengths.
#[derive(Clone, Copy)]
pub struct Level<'a> {
    pub set: TaskSet<'a>,
    pub lengths: &'a [u32],
    pub low: &'a [usize],
    ghost room: { length set.tasks.now ≤ length lengths.now },
    ghost choice: { IsChoice (cost_of set.tasks.now) (length set.tasks.now) lengths.now },
}

impl<'a> Level<'a> {
    // Task k on this level, below all that do not stand lower. Its rivals go into two lent lists, by rising number.
    pub fn place<'b>(
        &self,
        k: usize,
        late: &Finishes,
        upper: &'b mut Rivals,
        lower: &'b mut Rivals,
    ) -> Place<'b>
        requires here { k < length self.now.set.tasks.now }
        requires fit { Fit self.now.set.tasks.now late.now }
        requires empty { (upper.old.items ≡ []) × (lower.old.items ≡ []) }
        ensures cores { result.cores ≡ self.now.set.cores }
        ensures task { result.task ≡ slice_index_or self.now.set.tasks.now k no_task }
        ensures upper { result.upper.now ≡ uppers self.now.set.tasks.now (latest self.now.set.tasks.now late.now) self.now.low.now k }
        ensures lower { result.lower.now ≡ lowers self.now.set.tasks.now (latest self.now.set.tasks.now late.now) self.now.lengths.now self.now.low.now k }
    {
        self.fill(k, late, upper, lower);
        Place {
            cores: self.set.cores,
            task: self.set.tasks[k],
            upper: upper.as_slice(),
            lower: lower.as_slice(),
        }
    }

    fn fill(&self, k: usize, late: &Finishes, upper: &mut Rivals, lower: &mut Rivals)
        requires fit { Fit self.now.set.tasks.now late.now }
        requires empty { (upper.old.items ≡ []) × (lower.old.items ≡ []) }
        ensures upper { upper.new.items ≡ uppers self.now.set.tasks.now (latest self.now.set.tasks.now late.now) self.now.low.now k }
        ensures lower { lower.new.items ≡ lowers self.now.set.tasks.now (latest self.now.set.tasks.now late.now) self.now.lengths.now self.now.low.now k }
    {
        for (j, t) in self.set.tasks.iter().enumerate() {
            if j != k {
                let finish = late.of(self.set.tasks, j);
                if stands(self.low, j) {
                    lower.push(as_rival(t, self.lengths[j] - 1, finish));
                } else {
                    upper.push(as_rival(t, t.cost, finish));
                }
            }
        }
    }
}
