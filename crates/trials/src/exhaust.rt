use crate::least::Least;
use crate::orders::orders;
use crate::ranges::Ranges;
use crate::setting::Setting;
use crate::subject::Trial;
use crate::tally::{Checks, Outcome};
use interference::rule::Rule;
use std::io;

// An order, the least lengths in it, and what trying everything came to.
#[derive(Drop)]
pub struct FirstPlan {
    pub order: Vec<usize>,
    pub lengths: Least,
    pub outcome: Outcome,
}

impl<'a, R: Rule> Trial<'a, R> {
    // Tries all choices of lengths in an order.
    pub fn least_lengths(&self, order: &[usize], sums: &mut Checks) -> io::Result<Least> {
        let heap = self.rt.alloc();
        let table = self.table;
        let deadlines = Ranges::bounds(heap, &table.tasks)?.most(heap)?;
        let ranges = Ranges::lengths(heap, &table.tasks)?;
        Least::of(heap, &ranges, |lengths| {
            let setting = Setting {
                table,
                order,
                lengths,
                finishes: &deadlines,
            };
            self.all_pass(&setting, sums)
        })
    }

    // Tries all bounds in an order with lengths.
    pub fn least_bounds(
        &self,
        order: &[usize],
        lengths: &[u32],
        sums: &mut Checks,
    ) -> io::Result<Least> {
        let heap = self.rt.alloc();
        let table = self.table;
        let ranges = Ranges::bounds(heap, &table.tasks)?;
        Least::of(heap, &ranges, |finishes| {
            let setting = Setting {
                table,
                order,
                lengths,
                finishes,
            };
            self.all_solve(&setting, sums)
        })
    }

    // Tries all orders, and in each all lengths, up to the first order in which some lengths pass.
    pub fn first_plan(&self, sums: &mut Checks) -> io::Result<Option<FirstPlan>> {
        for (i, order) in orders(self.rt.alloc(), self.table.tasks.len())?
            .into_iter()
            .enumerate()
        {
            let lengths = self.least_lengths(&order, sums)?;
            let outcome = match lengths.outcome {
                Outcome::Nothing => continue,
                tried if i == 0 => tried,
                _ => Outcome::Later,
            };
            return Ok(Some(FirstPlan {
                order,
                lengths,
                outcome,
            }));
        }
        Ok(None)
    }
}
