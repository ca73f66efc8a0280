ghost use Rattle.std.specs.Prelude.{◌≡◌, true};
ghost use Rattle.plan_file.specs.Requests.{fix_then_plan};

use interference::full::Full;
use planner::replay::Call;
use table_file::sheet::Sheet;

mod making;

// All that planning a file wants memory for: a sheet to read into, and the calls that are made on its table.
#[derive(Drop)]
pub struct Desk {
    pub(crate) sheet: Sheet,
    pub(crate) calls: Vec<Call<Full, Full>>,
    ghost planned: { fix_then_plan calls.items ≡ true },
}
