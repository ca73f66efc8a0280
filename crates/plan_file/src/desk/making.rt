ghost use Rattle.std.specs.Prelude.{◌≡◌, true, [], IfOk};
ghost use Rattle.table_file.specs.Sheets.{kept};
ghost use Rattle.table_file.specs.Stored.{stored};
ghost use Rattle.plan_file.specs.Requests.{fix_then_plan};

use super::Desk;
use interference::full::Full;
use planner::replay::{Call, QuickCall};
use std::alloc::{AllocError, Global};
use table_file::sheet::Sheet;

impl Desk {
    // An empty sheet, and the two calls. Only this can want memory.
    pub fn new(heap: Global) -> Result<Desk, AllocError>
        ensures { IfOk result (λ d. (kept d.sheet ≡ stored 1 [] []) × (fix_then_plan d.calls.items ≡ true)) }
    {
        let sheet = Sheet::new(heap)?;
        let calls = plan_calls(heap)?;
        Ok(Desk { sheet, calls })
    }
}

// Fix the table under the full rule, and seek a plan: by the quick way, since that rule is steady.
fn plan_calls(heap: Global) -> Result<Vec<Call<Full, Full>>, AllocError>
    ensures { IfOk result (λ calls. fix_then_plan calls.items ≡ true) }
{
    let mut calls = Vec::new(heap);
    calls.push(Call::FixSteady(Full))?;
    calls.push(Call::Quick(QuickCall::Plan))?;
    Ok(calls)
}
