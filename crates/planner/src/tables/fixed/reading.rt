ghost use Rattle.std.specs.Prelude.{◌≡◌, ℕ, ◌≤◌, length, take};
ghost use Rattle.analysis.specs.Plans.{Named};
ghost use Rattle.planner.specs.Rows.{tasks as row_tasks, lengths as row_lengths, bounds as row_bounds};
ghost use Rattle.planner.specs.Tables.{holds};
ghost use Rattle.planner.specs.Reading.{FixedWithinLimits, ReadsOut, Room, lent, filled, over, standing, as_standing};

use super::FixedTable;
use crate::marks::Marks;
use crate::refusal::Refusal;
use crate::rows::Row;
use interference::rule::Rule;

impl<R: Rule> FixedTable<R> {
    // How many cores the controller has.
    pub fn core_count(&self) -> u32
        ensures { result ≡ (holds self.now).cores }
    {
        self.rows.cores
    }

    // The task records in number order, each with its length and bound.
    pub fn rows(&self) -> &[Row]
        ensures tasks { row_tasks result.now ≡ (holds self.now).tasks }
        ensures lengths { row_lengths result.now ≡ (holds self.now).lengths }
        ensures bounds { row_bounds result.now ≡ (holds self.now).bounds }
        ensures within { FixedWithinLimits (holds self.now) }
    {
        &self.rows.items
    }

    // Fills the lists with task number, length and bound of the first place, the second and so on; entries past the
    // last place stay.
    pub fn read_out(
        &self,
        tasks: &mut [u32],
        lengths: &mut [u32],
        bounds: &mut [u32],
    ) -> Result<Marks, Refusal>
        ensures { ReadsOut (holds self.now) result (lent tasks.old lengths.old bounds.old) (lent tasks.new lengths.new bounds.new) }
    {
        let count = self.rows.count();
        if tasks.len() < count || lengths.len() < count || bounds.len() < count {
            return Err(Refusal::TooShort);
        }
        write_places(&self.order, &self.rows.items, tasks, lengths, bounds);
        Ok(self.marks)
    }

    // The order from the lowest place up, by task index, in the first places of an array.
    pub(crate) fn read_order(&self) -> [usize; 32]
        ensures { take (length (holds self.now).tasks) result ≡ (holds self.now).order }
    {
        order_of(&self.order)
    }
}

// An order, in the first places of an array, as a report holds it. The searches have the same for eight tasks; in public
// it would ask a length of its callers, and no public function may.
fn order_of(order: &[usize]) -> [usize; 32]
    requires { length order.now ≤ 32 }
    ensures { take (length order.now) result ≡ order.now }
{
    let mut found = [0; 32];
    found[..order.len()].copy_from_slice(order);
    found
}

// The number, the length and the bound of the task of each place, the highest first. The order is kept from the lowest
// place up.
fn write_places(
    order: &[usize],
    rows: &[Row],
    tasks: &mut [u32],
    lengths: &mut [u32],
    bounds: &mut [u32],
)
    requires few { length rows.now ≤ 32 }
    requires named { Named (length rows.now) order.now }
    requires room { (length order.now ≤ length tasks.old) × (length order.now ≤ length lengths.old) × (length order.now ≤ length bounds.old) }
    ensures tasks { tasks.new ≡ over (standing order.now) tasks.old }
    ensures lengths { lengths.new ≡ over (as_standing order.now (row_lengths rows.now)) lengths.old }
    ensures bounds { bounds.new ≡ over (as_standing order.now (row_bounds rows.now)) bounds.old }
{
    // over `order.iter().rev().enumerate()` its proof did not close
    let count = order.len();
    for p in 0..count {
        let k = order[count - 1 - p];
        tasks[p] = k as u32 + 1;
        lengths[p] = rows[k].length;
        bounds[p] = rows[k].bound;
    }
}
