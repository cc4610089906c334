// One node forward: marks in the gap after it every rank that it leads to.
ghost use Rattle.std.specs.Prelude.{IsTrue, ◌<◌};
ghost use Rattle.steps.specs.Plan.{turn_kind, touches};
ghost use Rattle.steps.specs.Sets.{Bare, Exactly};
ghost use Rattle.steps.specs.Nodes.{ToSpread};
ghost use Rattle.steps.specs.Leading.{Reached};

use steps::end::end;
use steps::net::Net;
use steps::open::open;
use steps::plan::{Stop, Turn};
use steps::rest::rest;
use steps::touch::touch;

// Marks in gap g, which is empty, every rank that node g leads to from the ranks before it, and tells whether there is none.
pub fn spread(work: &mut [u8], g: usize, stop: Stop) -> bool
    requires given { ToSpread stop work.old g }
    requires behind { IsTrue (touches (turn_kind stop.step.turn)) → 0 < g }
    ensures exactly { Exactly work.old g (Reached stop work.old g) work.new }
    ensures bare { Bare work.new g result }
{
    let Stop { step, streets } = stop;
    let count = step.count();
    match step.turn() {
        Turn::Begins => open(work, g, count, streets),
        Turn::Meets(age) => {
            let net = Net {
                age,
                count,
                streets,
            };
            touch(work, g, net)
        }
        Turn::Ends(age) => {
            let net = Net {
                age,
                count,
                streets,
            };
            end(work, g, net)
        }
        Turn::Rests => rest(work, g, count, streets),
    }
}
