// The order of open nets at a place of the row, from the topmost down.
use crate::nets::{Kind, Node};

// Six tracks, and two more for rows that need not have a placing.
const PLACES: usize = 8;

// The nets of an order, and no net at the places behind the last. An array of fixed size, since each choice of a search copies the order, and a copy of a `Vec`
// could run out of memory. So says the clone of an `ArrayVec`, which is not `Copy`, by its type.
#[derive(Clone, Copy, PartialEq, Eq, Debug)]
pub struct Order {
    nets: [Option<u8>; PLACES],
}

impl Order {
    // The order where no net is open. A `Default` beside it would say the same twice.
    pub fn new() -> Order {
        Order {
            nets: [None; PLACES],
        }
    }

    // How many nets are open.
    pub fn open(&self) -> usize {
        self.nets.iter().flatten().count()
    }

    // The net at a position.
    pub fn net(&self, position: usize) -> Option<u8> {
        *self.nets.get(position)?
    }

    // The position of a net.
    pub fn position(&self, net: u8) -> Option<usize> {
        self.nets.iter().position(|other| *other == Some(net))
    }

    // Puts a net at a position, and those from there on one lower; a ninth falls out.
    pub fn insert(&mut self, position: usize, net: u8) {
        let Some(from) = self.nets.get_mut(position..) else {
            return;
        };
        if let Some(last) = from.last_mut() {
            *last = Some(net);
            from.rotate_right(1);
        }
    }

    // Takes out the net at a position, and puts those below it one higher.
    pub fn remove(&mut self, position: usize) -> Option<u8> {
        let from = self.nets.get_mut(position..)?;
        let net = from.first_mut()?.take();
        from.rotate_left(1);
        net
    }

    // Passes a node at its position, where `begins` is the net that would begin there, and gives the node's net; none at a blank.
    pub fn pass(&mut self, node: &Node, begins: Option<u8>) -> Option<u8> {
        match node.kind {
            Kind::First => {
                self.insert(node.position, begins?);
                begins
            }
            Kind::Inner => self.net(node.position),
            Kind::Last => self.remove(node.position),
            Kind::Blank => None,
        }
    }
}
