ghost use Rattle.std.specs.Prelude.{◌≡◌, ℕ, ◌-◌, ◌≤◌, false, length, take, vec_len, vec_capacity, MatchOption, OnOk, slice_set};
ghost use Rattle.planner.specs.Refusals.{Called};
ghost use Rattle.analysis.specs.Rivals.{cost_of};
ghost use Rattle.analysis.specs.Plans.{Named, IsChoice};
ghost use Rattle.planner.specs.Rows.{tasks, lengths, bounds};
ghost use Rattle.planner.specs.Tables.{kept, held, opened, fixed, holds, downward, new_fixed};
ghost use Rattle.planner.specs.Reading.{standing};
ghost use Rattle.planner.specs.Calls.{upward, NamesEach, HasTask, LengthFits, no_bounds, OrderRefuses, OrderMakes, StretchRefuses, StretchMakes};

use super::FixedTable;
use crate::marks::Marks;
use crate::open::OpenTable;
use crate::refusal::Refusal;
use crate::rows::Rows;
use analysis::checks::is_order;
use analysis::limits::MOST_TASKS;
use analysis::task::Task;
use analysis::task_set::Ordered;
use arrayvec::ArrayVec;
use interference::rule::Rule;

impl OpenTable {
    // Joins the table with a rule: places in number order, lengths 1, bounds 0, both marks off.
    pub fn fix<R: Rule>(self, rule: R) -> FixedTable<R>
        ensures rule { result.rule ≡ rule }
        ensures holds { holds result ≡ new_fixed (held self) }
    {
        let (rows, order) = started(self.rows, self.spare);
        FixedTable {
            rows,
            order,
            rule,
            marks: Marks::default(),
        }
    }
}

// Lengths 1, bounds 0, and places in number order.
fn started(rows: Rows, spare: Vec<usize>) -> (Rows, Vec<usize>)
    requires none { vec_len spare ≡ 0 }
    requires room { 32 ≤ vec_capacity spare }
    ensures holds { fixed result.0.cores (tasks result.0.items.items) result.1.items (lengths result.0.items.items) (bounds result.0.items.items) false false ≡ new_fixed (kept rows) }
    ensures whole { vec_len result.1 ≡ vec_len result.0.items }
    ensures roomy { 32 ≤ vec_capacity result.1 }
    ensures named { Named (vec_len result.0.items) result.1.items }
    ensures choice { IsChoice (cost_of (tasks result.0.items.items)) (vec_len result.0.items) (lengths result.0.items.items) }
{
    let mut rows = rows;
    let mut order = spare;
    number(&mut order, rows.items.len());
    rows.set(&[1; 32], &[0; 32]);
    (rows, order)
}

impl<R: Rule> FixedTable<R> {
    // Sets the region length of one task.
    pub fn stretch(&mut self, number: u32, region: u32) -> Result<(), Refusal>
        ensures rule { self.new.rule ≡ self.old.rule }
        ensures call { Called result (StretchRefuses (holds self.old) number region) (StretchMakes (holds self.old) number region) (holds self.old) (holds self.new) }
    {
        if !self.rows.has(number) {
            return Err(Refusal::NoSuchTask);
        }
        if !self.rows.can_have(number, region) {
            return Err(Refusal::Length);
        }
        self.set_region(number, region);
        Ok(())
    }

    fn set_region(&mut self, number: u32, region: u32)
        requires has { HasTask (holds self.old).tasks number }
        requires fits { LengthFits (holds self.old) number region }
        ensures rule { self.new.rule ≡ self.old.rule }
        ensures holds { holds self.new ≡ fixed (holds self.old).cores (holds self.old).tasks (holds self.old).order (slice_set (holds self.old).lengths (number - 1) region) (no_bounds (holds self.old)) false false }
    {
        let mut lengths = self.rows.read_lengths();
        lengths[number as usize - 1] = region;
        self.settle(&lengths, Marks::default());
    }

    // Sets the order, from task numbers, the highest place first.
    pub fn order(&mut self, places: &[u32]) -> Result<(), Refusal>
        ensures rule { self.new.rule ≡ self.old.rule }
        ensures call { Called result (OrderRefuses (holds self.old) places.now) (OrderMakes (holds self.old) places.now) (holds self.old) (holds self.new) }
        ensures stands { OnOk result (standing (holds self.new).order ≡ places.now) }
    {
        let count = self.rows.count();
        let Some(fresh) = from_below(places, count) else {
            return Err(Refusal::NotAPermutation);
        };
        let lengths = self.rows.read_lengths();
        self.arrange(&fresh, &lengths, Marks::default());
        Ok(())
    }

    // The tasks that were read, in the standing order, as the searches take them.
    pub(super) fn ordered<'a>(&'a self, found: &'a [Task; 32]) -> Ordered<'a>
        requires { take (length (holds self.now).tasks) found.now ≡ (holds self.now).tasks }
        ensures cores { result.set.cores ≡ (holds self.now).cores }
        ensures tasks { result.set.tasks.now ≡ (holds self.now).tasks }
        ensures order { result.order.now ≡ (holds self.now).order }
    {
        Ordered {
            set: self.rows.task_set(found),
            order: &self.order,
        }
    }

    // Sets lengths and marks, and each bound to 0.
    pub(super) fn settle(&mut self, lengths: &[u32; 32], marks: Marks)
        requires choice { IsChoice (cost_of (holds self.old).tasks) (length (holds self.old).tasks) (take (length (holds self.old).tasks) lengths.now) }
        ensures rule { self.new.rule ≡ self.old.rule }
        ensures holds { holds self.new ≡ fixed (holds self.old).cores (holds self.old).tasks (holds self.old).order (take (length (holds self.old).tasks) lengths.now) (no_bounds (holds self.old)) marks.passed marks.bounded }
    {
        self.rows.set(lengths, &[0; 32]);
        self.marks = marks;
    }

    // Sets order, lengths and marks, and each bound to 0.
    pub(super) fn arrange(&mut self, order: &[usize], lengths: &[u32; 32], marks: Marks)
        requires long { length (holds self.old).tasks ≤ length order.now }
        requires named { Named (length (holds self.old).tasks) (take (length (holds self.old).tasks) order.now) }
        requires choice { IsChoice (cost_of (holds self.old).tasks) (length (holds self.old).tasks) (take (length (holds self.old).tasks) lengths.now) }
        ensures rule { self.new.rule ≡ self.old.rule }
        ensures holds { holds self.new ≡ fixed (holds self.old).cores (holds self.old).tasks (take (length (holds self.old).tasks) order.now) (take (length (holds self.old).tasks) lengths.now) (no_bounds (holds self.old)) marks.passed marks.bounded }
    {
        self.settle(lengths, marks);
        set_order(&mut self.order, order);
    }
}

// Task numbers, the highest place first, as an order from the lowest place up; nothing if they do not name each task once.
fn from_below(places: &[u32], count: usize) -> Option<ArrayVec<usize, MOST_TASKS>>
    requires { count ≤ 32 }
    ensures { MatchOption result (NamesEach count places.now → ⊥) (λ fresh. NamesEach count places.now × (fresh.items ≡ upward places.now)) }
{
    if places.len() != count {
        return None;
    }
    let mut fresh = ArrayVec::new();
    // from the last on: to turn the list round afterwards costs more, and over `rev()` the loop's proof knows less
    for p in 0..count {
        let number = places[count - 1 - p];
        fresh.push(number.checked_sub(1)? as usize);
    }
    if is_order(count, &fresh) {
        Some(fresh)
    } else {
        None
    }
}

// Sets the entries of an order to the first of a list.
fn set_order(order: &mut Vec<usize>, fresh: &[usize])
    requires { vec_len order.old ≤ length fresh.now }
    ensures items { order.new.items ≡ take (vec_len order.old) fresh.now }
    ensures len { vec_len order.new ≡ vec_len order.old }
    ensures room { vec_capacity order.new ≡ vec_capacity order.old }
{
    let count = order.len();
    order.copy_from_slice(&fresh[..count]);
}

impl<R: Rule + Drop> FixedTable<R> {
    // Gives the open table back with its tasks and cores, and drops the rest.
    pub fn reopen(self) -> OpenTable
        ensures { held result ≡ opened (holds self).cores (holds self).tasks }
    {
        let mut rows = self.rows;
        let mut spare = self.order;
        rows.unset();
        spare.clear();
        OpenTable { rows, spare }
    }
}

// Fills an empty list with the places in number order, seen from the lowest up.
fn number(order: &mut Vec<usize>, count: usize)
    requires empty { vec_len order.old ≡ 0 }
    requires room { (count ≤ 32) × (32 ≤ vec_capacity order.old) }
    ensures items { order.new.items ≡ downward count }
    ensures len { vec_len order.new ≡ count }
    ensures room { 32 ≤ vec_capacity order.new }
{
    for i in (0..count).rev() {
        order.push_reserved(i);
    }
}
