ghost use Rattle.std.specs.Prelude.{◌≡◌, ◌≤◌, length};
ghost use Rattle.planner.specs.Tables.{holds};
ghost use Rattle.planner.specs.Calls.{NamesEach};
ghost use Rattle.planner.specs.Reading.{standing};
ghost use Rattle.table_file.specs.Stored.{numbers, EachFits, StretchedTo};

use crate::place::Place;
use arrayvec::ArrayVec;
use interference::full::Full;
use planner::fixed::FixedTable;

// Orders a table as its tasks stand in a list of places that fit it.
pub(crate) fn order_by(table: &mut FixedTable<Full>, places: &[Place])
    requires few { length places.now ≤ 32 }
    requires each { NamesEach (length (holds table.old).tasks) (numbers places.now) }
    ensures cores { (holds table.new).cores ≡ (holds table.old).cores }
    ensures tasks { (holds table.new).tasks ≡ (holds table.old).tasks }
    ensures order { standing (holds table.new).order ≡ numbers places.now }
    ensures lengths { (holds table.new).lengths ≡ (holds table.old).lengths }
{
    let named = numbers_of(places);
    // Each task is named once, so that the call is not refused.
    let _ = table.order(&named);
}

// Stretches each task to the length that its place says.
pub(crate) fn stretch_to(table: &mut FixedTable<Full>, places: &[Place])
    requires each { EachFits (holds table.old).tasks places.now }
    requires lengths { length (holds table.old).lengths ≡ length (holds table.old).tasks }
    ensures cores { (holds table.new).cores ≡ (holds table.old).cores }
    ensures tasks { (holds table.new).tasks ≡ (holds table.old).tasks }
    ensures order { (holds table.new).order ≡ (holds table.old).order }
    ensures lengths { StretchedTo places.now (length places.now) (holds table.new).lengths }
{
    for p in places {
        // The length fits, so that the call is not refused.
        let _ = table.stretch(p.task, p.length);
    }
}

// The task numbers of places.
fn numbers_of(places: &[Place]) -> ArrayVec<u32, 32>
    requires { length places.now ≤ 32 }
    ensures { result.items ≡ numbers places.now }
{
    let mut named = ArrayVec::new();
    for p in places {
        named.push(p.task);
    }
    named
}
