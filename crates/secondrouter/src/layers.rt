// The first placing by layers: after each node the list of all distinct orders that the rest of the row can be completed from.
ghost use Rattle.std.specs.Prelude.{◌≡◌, IfOk, length};

use crate::nets::{Kind, Node};
use crate::orders::Order;
use crate::passage::Passage;
use crate::placing::{PlaceError, Placing};
use crate::streets::Streets;
use std::alloc::{AllocError, Global};

// A layer that is being made at the start of what is lent for it.
#[derive(Drop)]
struct Layer<'a> {
    orders: &'a mut [Order],
    count: usize,
}

impl Layer<'_> {
    // Whether an order is in the layer.
    fn has(&self, order: &Order) -> bool {
        self.orders
            .iter()
            .take(self.count)
            .any(|other| other == order)
    }

    // Adds an order; behind what is lent it is lost.
    fn add(&mut self, order: Order) {
        if let Some(free) = self.orders.get_mut(self.count) {
            *free = order;
            self.count = self.count.saturating_add(1);
        }
    }

    // Adds the orders that an order leads to across a node. Two orders lead to the same one only where a net comes out of them, so a layer is a list and no ordered
    // set: only last nodes need the test.
    fn give(&mut self, passage: Passage) {
        for after in (0..=passage.node.open).filter_map(|position| passage.after(position)) {
            if passage.node.kind != Kind::Last || !self.has(&after) {
                self.add(after);
            }
        }
    }
}

// Makes the layer that another one leads to across a node, and gives how many orders it has.
fn across(from: &[Order], node: Node, streets: Streets, into: &mut [Order]) -> usize {
    let mut layer = Layer {
        orders: into,
        count: 0,
    };
    for order in from {
        layer.give(Passage {
            order: *order,
            node,
            streets,
        });
    }
    layer.count
}

// What a node does where the row is gone through from its end: a last node opens its net, a first one closes it.
fn turned(node: &Node) -> Node {
    let kind = match node.kind {
        Kind::First => Kind::Last,
        Kind::Last => Kind::First,
        Kind::Inner | Kind::Blank => node.kind,
    };
    Node { kind, ..*node }
}

// Layers one behind another in memory that is lent: the last one begins and ends at these places.
#[derive(Drop)]
struct Layers<'a> {
    orders: &'a mut [Order],
    from: usize,
    to: usize,
}

impl Layers<'_> {
    // The layer at an end of the row, where no net is open.
    fn new(orders: &mut [Order]) -> Layers<'_> {
        let mut layers = Layers {
            orders,
            from: 0,
            to: 0,
        };
        if let Some(first) = layers.orders.first_mut() {
            *first = Order::new();
            layers.to = 1;
        }
        layers
    }

    // Adds the layer that the last one leads to across a node; it is the last one then.
    fn add(&mut self, node: Node, streets: Streets) {
        if let Some((made, free)) = self.orders.split_at_mut_checked(self.to) {
            let last = made.get(self.from..).unwrap_or(&[]);
            let count = across(last, node, streets, free);
            self.from = self.to;
            self.to = self.to.saturating_add(count);
        }
    }
}

// Fails at the first node after which no order is left going forward.
fn test_forward(nodes: &[Node], streets: Streets, orders: &mut [Order]) -> Result<(), usize> {
    let mut layers = Layers::new(orders);
    for (i, node) in nodes.iter().enumerate() {
        layers.add(*node, streets);
        if layers.from == layers.to {
            return Err(i);
        }
    }
    Ok(())
}

// Makes, from the last node back, the layers of the orders after each node from which the rest of the row can be completed, and writes where each begins. Gives where the
// layer of the first node ends.
fn complete(nodes: &[Node], streets: Streets, orders: &mut [Order], starts: &mut [usize]) -> usize {
    let mut layers = Layers::new(orders);
    for (node, start) in nodes.iter().rev().zip(starts.iter_mut()) {
        *start = layers.from;
        layers.add(turned(node), streets);
    }
    layers.from
}

// Goes forward over such layers, of which the first node's ends at a place, always to the smallest position.
fn choose_first(
    nodes: &mut [Node],
    streets: Streets,
    orders: &[Order],
    starts: &[usize],
    end: usize,
) {
    let mut order = Order::new();
    let mut to = end;
    for (node, from) in nodes.iter_mut().zip(starts.iter().rev()) {
        let next = orders.get(*from..to).unwrap_or(&[]);
        to = *from;
        let passage = Passage {
            order,
            node: *node,
            streets,
        };
        if let Some(position) = passage.first_into(next) {
            node.position = position;
            order.pass(node, node.net);
        }
    }
}

// How many orders a layer has at the most where so many nets are open: none where these are more than the tracks.
fn most_orders(open: usize, streets: Streets) -> usize {
    if streets.tracks() < open {
        return 0;
    }
    (1..=open).fold(1, usize::saturating_mul)
}

// How many orders the layers of a row have at the most.
pub fn orders_need(nodes: &[Node], streets: Streets) -> usize {
    nodes
        .iter()
        .map(|node| most_orders(node.open_after(), streets))
        .fold(1, usize::saturating_add)
}

// Gives the nodes of a row the positions of its first placing; or says which is the first node that no choice serves. The layers are made in what is lent: `orders_need`
// says how many orders they have, and each node has a start. With fewer the search would not be this one.
pub fn search(
    nodes: &mut [Node],
    streets: Streets,
    orders: &mut [Order],
    starts: &mut [usize],
) -> Result<(), usize> {
    test_forward(nodes, streets, orders)?;
    let used = nodes.len().min(starts.len());
    let starts = &mut starts[..used];
    let end = complete(nodes, streets, orders, starts);
    choose_first(nodes, streets, orders, starts, end);
    Ok(())
}

// The layer that another one leads to across a node where a net begins, in memory of its own. Each order leads to one for each place that the limits allow. No `count` of the
// places, which asks beforehand that they are fewer than 2^64.
fn begun(
    alloc: Global,
    from: &[Order],
    node: Node,
    streets: Streets,
) -> Result<Vec<Order>, AllocError> {
    let places = (0..node.open)
        .filter(|position| streets.fits(*position, node.open))
        .fold(0, |places, _| usize::saturating_add(places, 1));
    let mut layer = vec![in alloc; Order::new(); from.len().saturating_mul(places)]?;
    let count = across(from, node, streets, &mut layer);
    layer.truncate(count);
    Ok(layer)
}

// The order that another one leads to across a node where no net begins, if it leads to one.
fn next(order: &Order, node: Node, streets: Streets) -> Option<Order> {
    let passage = Passage {
        order: *order,
        node,
        streets,
    };
    (0..=node.open).find_map(|position| passage.after(position))
}

// The layer across a node where a net ends, in memory of its own that grows, since two orders may lead to the same one.
fn ended(
    alloc: Global,
    from: &[Order],
    node: Node,
    streets: Streets,
) -> Result<Vec<Order>, AllocError> {
    let mut layer = Vec::new(alloc);
    for after in from.iter().filter_map(|order| next(order, node, streets)) {
        if !layer.contains(&after) {
            layer.push(after)?;
        }
    }
    Ok(layer)
}

// The layer that another one leads to across a node. Where no net begins or ends those orders stay that lead on.
fn crossed(
    alloc: Global,
    mut layer: Vec<Order>,
    node: Node,
    streets: Streets,
) -> Result<Vec<Order>, AllocError> {
    match node.kind {
        Kind::First => begun(alloc, &layer, node, streets),
        Kind::Last => ended(alloc, &layer, node, streets),
        Kind::Inner | Kind::Blank => {
            layer.retain(|order| next(order, node, streets).is_some());
            Ok(layer)
        }
    }
}

// The layer at an end of the row, in memory of its own.
fn at_end(alloc: Global) -> Result<Vec<Order>, AllocError> {
    Ok(vec![in alloc; Order::new()]?)
}

// Fails as `test_forward` does, in memory of its own, which has at most two layers at a time.
fn test_passable(alloc: Global, nodes: &[Node], streets: Streets) -> Result<(), PlaceError> {
    let mut layer = at_end(alloc)?;
    for (i, node) in nodes.iter().enumerate() {
        layer = crossed(alloc, layer, *node, streets)?;
        if layer.is_empty() {
            return Err(PlaceError::Stuck(i));
        }
    }
    Ok(())
}

// How many orders the layers have that `complete` makes and `choose_first` needs, of which at most two are kept here at a time.
fn count_completed(alloc: Global, nodes: &[Node], streets: Streets) -> Result<usize, AllocError> {
    let mut layer = at_end(alloc)?;
    let mut count: usize = 0;
    for node in nodes.iter().rev() {
        count = count.saturating_add(layer.len());
        layer = crossed(alloc, layer, turned(node), streets)?;
    }
    Ok(count)
}

// A row's first placing between its streets; or which is the first node that no choice serves. The layers' orders are counted first, and have memory for no more, so that any
// streets and any nodes serve: `orders_need` goes by tracks and open nets alone, and may be far more, or fewer where the open nets are not those of the row.
pub fn place(mut placing: Placing) -> Result<Placing, PlaceError>
    ensures { IfOk result (λ p. (p.streets ≡ placing.streets) × (length p.nodes.items ≡ length placing.nodes.items)) }
{
    let alloc = *placing.nodes.allocator();
    let streets = placing.streets;
    test_passable(alloc, &placing.nodes, streets)?;
    let count = count_completed(alloc, &placing.nodes, streets)?;
    let mut orders = vec![in alloc; Order::new(); count]?;
    let mut starts = vec![in alloc; 0; placing.nodes.len()]?;
    let end = complete(&placing.nodes, streets, &mut orders, &mut starts);
    choose_first(&mut placing.nodes, streets, &orders, &starts, end);
    Ok(placing)
}

#[cfg(test)]
mod tests {
    use super::*;

    // With no lower street a new net goes below all others.
    const STREETS: Streets = Streets {
        upper: 30,
        lower: 0,
    };

    // 22 nets, each within those before it.
    const NESTED: &[u8] = b"abcdefghijklmnopqrstuvvutsrqponmlkjihgfedcba";

    // The layers of the row have one order each, where its open nets have up to 22!. An order has places for eight of them, so that the last one is missed at its end.
    #[test]
    fn memory_grows_with_the_layers(rt: HostRuntime) {
        let placing = Placing::of_row(rt.alloc(), NESTED, STREETS).and_then(place);
        assert!(rt; matches!(placing, Err(PlaceError::Stuck(22))));
    }

    #[test]
    fn eight_tracks_are_placed(rt: HostRuntime) {
        let placing = Placing::of_row(rt.alloc(), b"abcdefghhgfedcba", STREETS).and_then(place);
        let wanted = [0, 1, 2, 3, 4, 5, 6, 7, 7, 6, 5, 4, 3, 2, 1, 0];
        assert!(rt;
            placing.is_ok_and(|placing| placing
                .nodes
                .iter()
                .map(|node| node.position)
                .eq(wanted.iter().copied()))
        );
    }
}
