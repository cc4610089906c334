// The levels of wires at a node, and how they move in the gap between two nodes.
use crate::records::AXIS;
use secondrouter::nets::{Kind, Node};
use secondrouter::streets::Streets;
use std::cmp::Ordering;

// How many wires a node has in the upper street: document 01's table is the smaller of p + 1 and Ku; at a blank all that are above it.
fn upper(node: &Node, streets: Streets) -> usize {
    if node.kind == Kind::Blank {
        return node.position;
    }
    node.position
        .saturating_add(1)
        .min(usize::from(streets.upper))
}

// The level, with 4 added, of the wire at a position of the order at a node.
pub fn level(node: &Node, position: usize, streets: Streets) -> usize {
    let above = upper(node, streets);
    if position < above {
        return AXIS.saturating_add(above - position);
    }
    (AXIS - 1).saturating_add(above).saturating_sub(position)
}

// The gap between a node and the next one, whose wires go by their positions there.
#[derive(Clone, Copy)]
pub struct Gap<'a> {
    pub before: &'a Node,
    pub after: &'a Node,
    pub streets: Streets,
}

impl Gap<'_> {
    // How many wires the gap has.
    pub fn wires(&self) -> usize {
        self.before.open_after()
    }

    // The level of a wire at a node beside the gap. A net of the node that is not in the gap, which shows by its kind, has a position of its own there.
    fn level_at(&self, node: &Node, outside: Kind, wire: usize) -> usize {
        let position = if node.kind == outside && node.position <= wire {
            wire.saturating_add(1)
        } else {
            wire
        };
        level(node, position, self.streets)
    }

    // The level at which a wire leaves the node before the gap.
    pub fn leaves(&self, wire: usize) -> usize {
        self.level_at(self.before, Kind::Last, wire)
    }

    // The level at which it comes to the node after it.
    pub fn arrives(&self, wire: usize) -> usize {
        self.level_at(self.after, Kind::First, wire)
    }

    // Whether a wire moves up in the gap (greater), down (less) or not (equal).
    fn way(&self, wire: usize) -> Ordering {
        self.arrives(wire).cmp(&self.leaves(wire))
    }

    // How many of the wires from one to before another go this way.
    fn goers(&self, from: usize, to: usize, wanted: Ordering) -> usize {
        (from..to).filter(|wire| self.way(*wire) == wanted).count()
    }

    // How many wires move in the gap.
    pub fn moves(&self) -> usize {
        (0..self.wires())
            .filter(|wire| self.way(*wire) != Ordering::Equal)
            .count()
    }

    // At which column after the node a wire moves: those going up first, topmost first, then those going down, bottommost first; none if it stays.
    pub fn turn(&self, wire: usize) -> Option<usize> {
        let earlier = match self.way(wire) {
            Ordering::Equal => return None,
            Ordering::Greater => self.goers(0, wire, Ordering::Greater),
            Ordering::Less => {
                let below = self.goers(wire.saturating_add(1), self.wires(), Ordering::Less);
                let rising = self.goers(0, self.wires(), Ordering::Greater);
                rising.saturating_add(below)
            }
        };
        Some(earlier.saturating_add(1))
    }
}
