// The plan of a row: for each node its turn, and how many nets are open before it.
ghost use Rattle.std.specs.Prelude.{suc, ◌≤◌, length};
ghost use Rattle.script.specs.Told.{kind_by, Turning, Turns, Told};

use crate::labels::Labels;
use crate::open::OpenNets;
use rules::BLANK;
use steps::plan::{Step, Turn};
use street::CAPACITY;

// Fills the plan of a row, by its labels: a step for each node that a row can have. Steps past the row's nodes are free, and so are those past a node that
// begins a seventh open net: no order gets past it.
pub fn tell(labels: &Labels, plan: &mut [Step; 512])
    requires { length labels.now.row.now ≤ 512 }
    ensures { Told labels.now.row.now plan.new }
{
    let mut nets = OpenNets::new();
    // A step is written by its index: of what is written through iter_mut in a zip, a proof knows only how many there are.
    for (i, x) in labels.row.iter().enumerate() {
        let at = usize::from(*x);
        let turn = turn_at(&mut nets, i + 1, *x, labels.first[at], labels.last[at]);
        let Some(step) = turn else {
            plan[i] = Step::new(Turn::Begins, CAPACITY as u8);
            return;
        };
        plan[i] = step;
    }
}

// The step of node i, from 1, with label x, whose first and last node are these; none where it begins a net and no more can be open. A branch for each kind takes
// fewer instructions than a kind that is computed first.
fn turn_at(nets: &mut OpenNets, i: usize, x: u8, first: u16, last: u16) -> Option<Step>
    requires { Turning nets.old (kind_by x first last i) x }
    ensures { Turns nets.old (kind_by x first last i) x result nets.new }
{
    let count = nets.count() as u8;
    if x == BLANK {
        return Some(Step::new(Turn::Rests, count));
    }
    if usize::from(first) == i {
        if usize::from(count) == CAPACITY {
            return None;
        }
        nets.begin(x);
        return Some(Step::new(Turn::Begins, count));
    }
    let age = nets.age(x);
    if usize::from(last) == i {
        nets.end(x);
        return Some(Step::new(Turn::Ends(age), count));
    }
    Some(Step::new(Turn::Meets(age), count))
}
