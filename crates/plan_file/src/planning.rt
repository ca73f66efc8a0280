ghost use Rattle.std.specs.Prelude.{◌≡◌, true};
ghost use Rattle.planner.specs.Tables.{held};
ghost use Rattle.planner.specs.Refusals.{number};
ghost use Rattle.table_file.specs.Reading.{read_file};
ghost use Rattle.plan_file.specs.Requests.{fix_then_plan};
ghost use Rattle.plan_file.specs.Answers.{Answered, FilePlanned, Planned, refusal_notice};

use crate::desk::Desk;
use interference::full::Full;
use planner::fixed::FixedTable;
use planner::open::OpenTable;
use planner::refusal::Refusal;
use planner::replay::{Call, Outcome, Report, Table, replay};
use table_file::fault::Layer;
use table_file::notice::{Notice, write_notice};
use table_file::reading::read_file;
use table_file::writing::write_fixed;

// Takes the table of a file, fixes it under the full rule and seeks a plan. Over the front of the text comes the file of
// the planned table, or one notice; the answer is the count of its bytes.
pub fn plan_file(file: &[u8], desk: Desk, text: &mut [u8; 1024]) -> usize
    ensures { Answered file.now result text.old text.new }
{
    // There is room for the file of eight tasks with their places, and for a notice.
    match plan_of(file, desk) {
        Ok(planned) => write_fixed(&planned, text).unwrap(),
        Err(notice) => write_notice(notice, text).unwrap(),
    }
}

// The planned table of a file, or the notice that there is in its place.
fn plan_of(file: &[u8], desk: Desk) -> Result<FixedTable<Full>, Notice>
    ensures { FilePlanned (read_file file.now) result }
{
    let Desk { mut sheet, calls } = desk;
    read_file(file, &mut sheet)?;
    plan(sheet.into_table(), calls).map_err(seek_notice)
}

// Fixes the table and seeks a plan; the outcome of the second call says whether there is one.
fn plan(table: OpenTable, calls: Vec<Call<Full, Full>>) -> Result<FixedTable<Full>, Refusal>
    requires { fix_then_plan calls.items ≡ true }
    ensures { Planned (held table) result }
{
    let mut reports = [Report::BLANK; 2];
    let (_, table) = replay(table, calls, &mut reports);
    if let Outcome::Refused(refusal) = reports[1].outcome {
        return Err(refusal);
    }
    let Table::Steady(planned) = table else {
        unreachable()
    };
    Ok(planned)
}

// The notice of a search that was refused has no line and column. It is no `From`: neither type is of this crate, and only
// here is a refusal one of a search.
fn seek_notice(refusal: Refusal) -> Notice
    ensures { result ≡ refusal_notice (number refusal) }
{
    Notice {
        number: u8::from(refusal),
        layer: u8::from(Layer::Search),
        line: 0,
        column: 0,
    }
}
