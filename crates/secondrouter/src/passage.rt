// What becomes of an order of open nets where it comes to a node.
use crate::nets::{Kind, Node};
use crate::orders::Order;
use crate::streets::Streets;

// An order of open nets that comes to a node between two streets.
#[derive(Clone, Copy)]
pub struct Passage {
    pub order: Order,
    pub node: Node,
    pub streets: Streets,
}

impl Passage {
    // Whether the node can be passed at a position. A node that opens no net has one to choose: its net's; at a blank the fewest wires above, as another number
    // would leave the order as it is.
    fn allows(&self, position: usize) -> bool {
        let Passage {
            order,
            node,
            streets,
        } = self;
        match node.kind {
            Kind::First => streets.fits(position, node.open),
            Kind::Inner | Kind::Last => {
                node.net.and_then(|net| order.position(net)) == Some(position)
                    && streets.fits(position, node.open)
            }
            Kind::Blank => streets.fewest_above(node.open) == Some(position),
        }
    }

    // The order after the node, where it is passed at a position; none if that cannot be.
    pub fn after(&self, position: usize) -> Option<Order> {
        if !self.allows(position) {
            return None;
        }
        let mut after = self.order;
        after.pass(
            &Node {
                position,
                ..self.node
            },
            self.node.net,
        );
        Some(after)
    }

    // The smallest position from which an order of the next layer is come to.
    pub fn first_into(&self, next: &[Order]) -> Option<usize> {
        (0..=self.node.open).find(|position| {
            self.after(*position)
                .is_some_and(|after| next.contains(&after))
        })
    }
}
