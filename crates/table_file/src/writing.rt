ghost use Rattle.std.specs.Prelude.{◌≡◌, ◌+◌, ◌*◌, ◌≤◌, length};
ghost use Rattle.planner.specs.Reading.{FixedWithinLimits};
ghost use Rattle.planner.specs.Rows.{tasks};
ghost use Rattle.planner.specs.Tables.{held, holds};
ghost use Rattle.table_file.specs.Promises.{Writes, Written};
ghost use Rattle.table_file.specs.Sheets.{kept};
ghost use Rattle.table_file.specs.Puts.{paired};
ghost use Rattle.table_file.specs.Stored.{stored, of_open, of_fixed, Valid};

use crate::frames::Cores;
use crate::place::Place;
use crate::placing::{order_by, stretch_to};
use crate::sheet::Sheet;
use crate::text::{CORES_BYTES, Line, PLACE_BYTES, TASK_BYTES, put, put_all};
use arrayvec::ArrayVec;
use interference::full::Full;
use interference::rule::Rule;
use planner::fixed::FixedTable;
use planner::open::OpenTable;
use planner::refusal::Refusal;
use planner::rows::Row;

// Writes the file of an open table, without places, over the front of a text, and answers its length.
pub fn write_open(table: &OpenTable, text: &mut [u8]) -> Result<usize, Refusal>
    ensures { Writes (of_open (held table.now)) result text.old text.new }
{
    let rows = table.rows();
    if text.len() < file_bytes(rows.len(), 0) {
        return Err(Refusal::TooShort);
    }
    Ok(put_lines(table.core_count(), rows, &[], text))
}

// Writes the file of a fixed table, with its places, over the front of a text, and answers its length.
pub fn write_fixed<R: Rule>(table: &FixedTable<R>, text: &mut [u8]) -> Result<usize, Refusal>
    ensures { Writes (of_fixed (holds table.now)) result text.old text.new }
{
    let rows = table.rows();
    // before the places are read: a refusal costs the same, however many there are
    if text.len() < file_bytes(rows.len(), rows.len()) {
        return Err(Refusal::TooShort);
    }
    let places = places_of(table);
    Ok(put_lines(table.core_count(), rows, &places, text))
}

// Writes the file of a sheet over the front of a text, and gives the sheet back with the length. A sheet with places is
// written through a table that is fixed, ordered and stretched to them; under which rule does not matter.
pub fn write_sheet(sheet: Sheet, text: &mut [u8]) -> (Result<usize, Refusal>, Sheet)
    ensures written { Writes (kept sheet) result.0 text.old text.new }
    ensures same { kept result.1 ≡ kept sheet }
{
    let Sheet { table, places } = sheet;
    if places.is_empty() {
        let answer = write_open(&table, text);
        return (answer, Sheet { table, places });
    }
    let mut fixed = table.fix(Full);
    order_by(&mut fixed, &places);
    stretch_to(&mut fixed, &places);
    let answer = write_fixed(&fixed, text);
    let table = fixed.reopen();
    (answer, Sheet { table, places })
}

// How many bytes a file with so many tasks and places has.
fn file_bytes(tasks: usize, places: usize) -> usize
    requires { (tasks ≤ 32) × (places ≤ 32) }
    ensures { result ≡ 5 + 15 * tasks + 9 * places }
{
    CORES_BYTES + TASK_BYTES * tasks + PLACE_BYTES * places
}

// Writes a line for the core count, each task and each place.
fn put_lines(cores: u32, rows: &[Row], places: &[Place], text: &mut [u8]) -> usize
    requires valid { Valid (stored cores (tasks rows.now) places.now) }
    requires room { 5 + 15 * length rows.now + 9 * length places.now ≤ length text.old }
    ensures { Written (stored cores (tasks rows.now) places.now) result text.old text.new }
{
    let at = put(text, 0, Cores(cores).line());
    let at = put_all(text, at, rows);
    put_all(text, at, places)
}

// The places of a table, the highest first.
fn places_of<R: Rule>(table: &FixedTable<R>) -> ArrayVec<Place, 32>
    requires { FixedWithinLimits (holds table.now) }
    ensures places { result.items ≡ (of_fixed (holds table.now)).places }
    ensures valid { Valid (of_fixed (holds table.now)) }
{
    let count = table.rows().len();
    // the call fills three lent lists, which want no memory
    let mut numbers = [0; 32];
    let mut lengths = [0; 32];
    let mut bounds = [0; 32];
    // No table has more places than these lists have entries.
    let _ = table.read_out(&mut numbers, &mut lengths, &mut bounds);
    pair_up(&numbers[0..count], &lengths[0..count])
}

// Places from task numbers and lengths.
fn pair_up(numbers: &[u32], lengths: &[u32]) -> ArrayVec<Place, 32>
    requires { length numbers.now ≤ 32 }
    ensures { result.items ≡ paired numbers.now lengths.now }
{
    let mut places = ArrayVec::new();
    for (number, length) in numbers.iter().zip(lengths) {
        places.push(Place {
            task: *number,
            length: *length,
        });
    }
    places
}
