// The last pass: the row once more, with the rank that the first placing has after each node, and the order of that rank, by labels.
ghost use Rattle.router.specs.Walk.{ToWalk, Entered, Standing, Stood};

use orders::pass::enter;
use rules::{Kind, Streets};
use steps::plan::{Step, Stop, Turn};
use steps::rank::Place;
use steps::tables::locate;
use street::Order;
use writer::entry::Entry;

// Fills in the entries of the first positions, in reading order, that lead through all nodes: a new net goes to the least place whose rank is marked, another stands
// where the order has it, and a blank has as few wires above as the lower street allows.
pub fn walk(row: &[u8], work: &[u8], plan: &[Step], streets: Streets, entries: &mut [Entry; 512])
    requires { ToWalk row.now streets.upper streets.lower plan.now work.now }
    ensures { Entered streets.upper streets.lower plan.now entries.new }
{
    let mut held = Order::new();
    let mut rank = 0;
    // The row and the entries by index: of a `zip` with the row the proof would have to show besides that it ends with the plan, and what each turn yields, and
    // of entries that `iter_mut` lends in a `zip` it knows no more than how many there are.
    for (i, &step) in plan.iter().enumerate() {
        let stop = Stop { step, streets };
        let (place, after) = stand(held, rank, stop, row[i], work, i);
        entries[i] = Entry::new(Kind::from(step.turn()), place.at as u8);
        rank = place.rest;
        held = after;
    }
}

// One node: how many wires stand above it, with the rank after it, and the order after it. Its label, its gap and its stop, the rank and the order come as they are: a struct of them would
// be made and taken apart at this one call.
fn stand(held: Order, rank: usize, stop: Stop, x: u8, work: &[u8], g: usize) -> (Place, Order)
    requires { Standing held stop work.now g rank x }
    ensures { Stood held stop work.now g rank x result.0.at result.0.rest result.1 }
{
    let step = stop.step;
    match step.turn() {
        Turn::Begins => {
            let place = enter(work, g, usize::from(step.count()), rank);
            (place, held.insert(place.at, x))
        }
        Turn::Meets(_) => {
            let at = held.find(x);
            (Place { at, rest: rank }, held)
        }
        Turn::Ends(age) => {
            let place = locate(usize::from(age), usize::from(step.count()), rank);
            (place, held.remove(place.at))
        }
        // The fewest wires that can pass above a blank, where as many as the lower street has tracks pass below.
        Turn::Rests => {
            let at = usize::from(step.count().saturating_sub(stop.streets.lower));
            (Place { at, rest: rank }, held)
        }
    }
}
