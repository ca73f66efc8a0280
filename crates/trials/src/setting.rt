use crate::table::Table;
use interference::rival::Rival;
use std::alloc::{AllocError, Global};

// Everything that the questions of a table depend on: tasks in an order from the lowest place up, and for each task,
// by number, its region length and its latest finish as a rival.
#[derive(Clone, Copy)]
pub struct Setting<'a> {
    pub table: &'a Table,
    pub order: &'a [usize],
    pub lengths: &'a [u32],
    pub finishes: &'a [u32],
}

// The rivals of a task in higher places, and in lower ones.
#[derive(Drop)]
pub struct Sides {
    pub upper: Vec<Rival>,
    pub lower: Vec<Rival>,
}

impl<'a> Setting<'a> {
    fn place(&self, k: usize) -> usize {
        self.order
            .iter()
            .position(|x| *x == k)
            .unwrap_or(self.order.len())
    }

    // A region's ticks before its last one.
    pub fn early(&self, k: usize) -> u32 {
        self.lengths.get(k).copied().unwrap_or(1).saturating_sub(1)
    }

    pub fn finish(&self, k: usize) -> u32 {
        self.finishes.get(k).copied().unwrap_or(0)
    }

    // A task in a higher place counts with its cost, and one in a lower place with what its region can block for.
    pub fn rivals(&self, heap: Global, k: usize) -> Result<Sides, AllocError> {
        let mut upper = Vec::new(heap);
        let mut lower = Vec::new(heap);
        for (j, t) in self.table.tasks.iter().enumerate() {
            let finish = self.finish(j);
            let period = t.period;
            if self.place(j) > self.place(k) {
                upper.push(Rival {
                    cost: t.cost,
                    period,
                    finish,
                })?;
            } else if j != k {
                lower.push(Rival {
                    cost: self.early(j),
                    period,
                    finish,
                })?;
            }
        }
        Ok(Sides { upper, lower })
    }
}
