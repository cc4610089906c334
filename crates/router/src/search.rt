// The search: sets of orders forward, pruned backward, the first way picked, and work cleared.
ghost use Rattle.std.specs.Prelude.{length};
ghost use Rattle.orders.specs.Passes.{Given};
ghost use Rattle.router.specs.Walk.{Planned};
ghost use Rattle.router.specs.Search.{Searched};

use crate::walk::walk;
use orders::pass::{forward, prune};
use orders::set::wipe;
use rules::Streets;
use steps::plan::Step;
use writer::entry::Entry;

// Searches a row by its plan in lent bytes, which are clear afterwards, whatever stood there. Where all nodes can be passed their entries are those of the first way
// through them; else the error is how many can, which forward counts.
// Row, work, plan, streets and entries go from `lay` on to `walk` as they are: a struct of them would be made and taken apart at each one call.
pub fn search(
    row: &[u8],
    work: &mut [u8],
    plan: &[Step],
    streets: Streets,
    entries: &mut [Entry; 512],
) -> Result<(), usize>
    requires given { Given plan.now work.old }
    requires planned { Planned row.now plan.now }
    ensures { Searched streets.upper streets.lower plan.now work.old work.new result entries.new }
{
    let passed = forward(work, plan, streets);
    if passed.is_ok() {
        prune(work, plan, streets);
        walk(row, work, plan, streets, entries);
    }
    wipe(work);
    passed
}
