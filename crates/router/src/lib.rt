// The router: a row and two street widths to the first placing's sheet, or a true refusal.
#![tactic(auto)]

mod search;
mod streets;
mod walk;

ghost use Rattle.std.specs.Prelude.{[], ◌≤◌, length};
ghost use Rattle.rules.specs.Row.{nodes};
ghost use Rattle.rules.proofs.Demand3.{Fit};
ghost use Rattle.steps.specs.Plan.{Tells};
ghost use Rattle.router.specs.Routed.{Routed, Laid};

use bits::sheet_size;
use rules::{Kind, RouteError, Routing, Streets};
use script::labels::Labels;
use script::plan::tell;
use search::search;
use steps::plan::{Step, Turn};
use streets::streets_of;
use writer::entry::Entry;
use writer::write_sheet;

// Routes a row under Ku and Kl tracks. The row is read only. Work takes 90 bytes a node and is zero there afterwards, where the search was made; the sheet
// stands at the start of its buffer. Every refusal leaves the sheet's buffer as it was, and those before the search leave work too.
pub fn route(row: &[u8], ku: u8, kl: u8, work: &mut [u8], sheet: &mut [u8]) -> Routing
    ensures { Routed row.now ku kl work.old sheet.old result work.new sheet.new }
{
    if row.len() < 2 || 512 < row.len() {
        return Err(RouteError::RowLength);
    }
    let Some(streets) = streets_of(ku, kl) else {
        return Err(RouteError::Tracks);
    };
    route_between(row, streets, work, sheet)
}

// Checks 3 to 6 of a row of 2 to 512 nodes. The buffers are those that the caller of `route` lends, and go on as they are.
fn route_between(row: &[u8], streets: Streets, work: &mut [u8], sheet: &mut [u8]) -> Routing
    requires { (2 ≤ length row.now) × (length row.now ≤ 512) }
    ensures { Routed row.now streets.upper streets.lower work.old sheet.old result work.new sheet.new }
{
    let n = row.len();
    // Two cells for each label: there is no heap.
    let mut first = [0; 256];
    let mut last = [0; 256];
    let labels = Labels::of(row, &mut first, &mut last);
    if let Some(alone) = labels.lone() {
        return Err(RouteError::Lone(alone + 1));
    }
    if work.len() < 90 * n {
        return Err(RouteError::WorkShort);
    }
    if sheet.len() < sheet_size(n) {
        return Err(RouteError::SheetShort);
    }
    // A step for each node that a row can have: there is no heap.
    let mut plan = [Step::new(Turn::Begins, 0); 512];
    tell(&labels, &mut plan);
    lay(row, &plan[..n], streets, work, sheet)
}

// 6, or the first placing's sheet, of a row that passes checks 1 to 5, with its plan.
fn lay(row: &[u8], plan: &[Step], streets: Streets, work: &mut [u8], sheet: &mut [u8]) -> Routing
    requires fit { Fit row.now streets.upper streets.lower work.old sheet.old }
    requires told { Tells (nodes row.now) [] plan.now }
    ensures { Laid row.now streets.upper streets.lower work.old sheet.old result work.new sheet.new }
{
    let n = row.len();
    let room = 90 * n;
    // An entry for each node that a row can have: there is no heap.
    let mut entries = [Entry::new(Kind::B, 0); 512];
    if let Err(passed) = search(row, &mut work[..room], plan, streets, &mut entries) {
        return Err(RouteError::Stuck(passed + 1));
    }
    write_sheet(sheet, &entries[..n], streets);
    Ok(n)
}
