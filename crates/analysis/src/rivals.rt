ghost use Rattle.std.specs.Prelude.{◌≡◌};
ghost use Rattle.analysis.specs.Rivals.{finish_limit, among, rival_of};

use crate::limits::MOST_TASKS;
use crate::task::Task;
use arrayvec::ArrayVec;
use interference::rival::Rival;

// As many as there can be tasks.
pub type Rivals = ArrayVec<Rival, MOST_TASKS>;

// The one place where a task becomes a rival.
pub fn as_rival(t: &Task, cost: u32, finish: u32) -> Rival
    ensures { result ≡ rival_of t.now cost finish }
{
    Rival {
        cost,
        period: t.period,
        finish,
    }
}

pub fn limit(t: &Task) -> u32
    ensures { result ≡ finish_limit t.now }
{
    t.deadline
}

// Whether task j is in the list.
pub fn stands(low: &[usize], j: usize) -> bool
    ensures { result ≡ among low.now j }
{
    low.contains(&j)
}
