// The first placing by plain depth first search, for short rows. Which positions it tries and what they make of an order it decides by itself, without `Passage`, by
// which the layers go: a slip in one of them makes the two searches differ.
use crate::nets::{Kind, Node};
use crate::orders::Order;
use crate::placing::{PlaceError, Placing};
use crate::streets::Streets;
use std::ops::Range;

// The position alone, or none.
fn only(position: Option<usize>) -> Range<usize> {
    match position {
        Some(position) => position..position.saturating_add(1),
        None => 0..0,
    }
}

// The positions of a node after an order: each of them where its net begins, else its net's; at a blank the fewest wires above, as another number would leave the order
// as it is.
fn choices(order: &Order, node: &Node, streets: Streets) -> Range<usize> {
    match node.kind {
        Kind::First => 0..node.open,
        Kind::Inner | Kind::Last => only(node.net.and_then(|net| order.position(net))),
        Kind::Blank => only(streets.fewest_above(node.open)),
    }
}

// Whether a node's position meets the limits; a blank's was chosen by its own.
fn is_met(node: &Node, streets: Streets) -> bool {
    node.kind == Kind::Blank || streets.fits(node.position, node.open)
}

// The order after a node at its position.
fn after(mut order: Order, node: &Node) -> Order {
    match (node.kind, node.net) {
        (Kind::First, Some(net)) => order.insert(node.position, net),
        (Kind::Last, _) => {
            order.remove(node.position);
        }
        _ => {}
    }
    order
}

// Places nodes that find an order of open nets; or says how many of them, from the first on, some choice of positions serves at the most.
fn place_after(nodes: &mut [Node], order: Order, streets: Streets) -> Result<(), usize> {
    let Some((node, rest)) = nodes.split_first_mut() else {
        return Ok(());
    };
    let mut most = 0;
    // No chain: it writes the position on the way, ends at the first success, and else has the most that any position served.
    for position in choices(&order, node, streets) {
        node.position = position;
        if is_met(node, streets) {
            let Err(served) = place_after(rest, after(order, node), streets) else {
                return Ok(());
            };
            most = most.max(served.saturating_add(1));
        }
    }
    Err(most)
}

// Gives the nodes of a row the positions of its first placing; or says which is the first node such that no choice serves it and those before it.
pub fn search(nodes: &mut [Node], streets: Streets) -> Result<(), usize> {
    place_after(nodes, Order::new(), streets)
}

// A row's first placing; or which is the first node such that no choice serves it and those before it.
pub fn place(mut placing: Placing) -> Result<Placing, PlaceError> {
    search(&mut placing.nodes, placing.streets).map_err(PlaceError::Stuck)?;
    Ok(placing)
}
