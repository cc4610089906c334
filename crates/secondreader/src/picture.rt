// Whether a film whose records are laid point by point shows the very wires of a placing: they are taken away step by step, and nothing may be left. As each
// record is a longest run, a film that shows them in as many records has the very records.
use secondfilm::gaps::{Gap, level};
use secondfilm::records::{AXIS, Run};
use secondfilm::wires::{Broken, Film, LentFilm, column_of};
use secondrouter::nets::Node;
use secondrouter::orders::Order;
use secondrouter::placing::Placing;
use secondrouter::streets::Streets;

// The columns of a gap.
const WIDTH: usize = 16;

// A wire of a gap, by its position there, and its net.
#[derive(Clone, Copy)]
struct Wire<'a> {
    gap: Gap<'a>,
    position: usize,
    net: u8,
}

// Takes away a wire in the gap that begins at a column. One that stays has no vertical, and its horizontals are one of all columns.
fn take_wire(film: &mut LentFilm, wire: Wire, column: usize) -> Result<(), Broken> {
    let Wire { gap, position, net } = wire;
    let turn = gap.turn(position).unwrap_or(0);
    let middle = column.saturating_add(turn);
    let from = gap.leaves(position);
    let to = gap.arrives(position);
    film.take(Run::across(net, from, column, turn))?;
    film.take(Run::upright(net, middle, from, to))?;
    film.take(Run::across(net, to, middle, WIDTH.saturating_sub(turn)))
}

// Takes away the wires of the gap that begins at a column, whose nets stand in this order. By position, since the gap's levels and turns are asked by it.
fn take_gap(film: &mut LentFilm, gap: Gap, column: usize, order: &Order) -> Result<(), Broken> {
    for position in 0..gap.wires() {
        let net = order.net(position).ok_or(Broken)?;
        take_wire(film, Wire { gap, position, net }, column)?;
    }
    Ok(())
}

// Takes away the stubs of all nodes; a blank has none.
fn take_stubs(film: &mut LentFilm, nodes: &[Node], streets: Streets) -> Result<(), Broken> {
    for (i, node) in nodes.iter().enumerate() {
        if let Some(net) = node.net {
            let at = level(node, node.position, streets);
            film.take(Run::upright(net, column_of(i), AXIS, at))?;
        }
    }
    Ok(())
}

// Takes away the wires of all gaps.
fn take_gaps(film: &mut LentFilm, nodes: &[Node], streets: Streets) -> Result<(), Broken> {
    let mut order = Order::new();
    for (i, [before, after]) in nodes.array_windows::<2>().enumerate() {
        order.pass(before, before.net);
        let gap = Gap {
            before,
            after,
            streets,
        };
        take_gap(film, gap, column_of(i), &order)?;
    }
    Ok(())
}

// Takes away all wires of nodes between two streets.
fn take_all(film: &mut LentFilm, nodes: &[Node], streets: Streets) -> Result<(), Broken> {
    take_stubs(film, nodes, streets)?;
    take_gaps(film, nodes, streets)
}

// Whether the records that were laid show the wires of the nodes, and no others. Their steps are gone after.
pub fn shows_wires(film: &mut LentFilm, nodes: &[Node], streets: Streets) -> bool {
    take_all(film, nodes, streets).is_ok() && film.is_bare()
}

// Whether they show the wires of a placing.
pub fn shows(film: &mut Film, placing: &Placing) -> bool {
    shows_wires(&mut film.lent(), &placing.nodes, placing.streets)
}
