// A row's nodes and their positions between two streets.
ghost use Rattle.std.specs.Prelude.{◌≡◌, IfOk};

use crate::nets::{Node, nodes_of};
use crate::streets::Streets;
use std::alloc::{AllocError, Global};

// The nodes of a row or of a sheet, and the streets that their positions are for.
#[derive(PartialEq, Eq, Drop)]
pub struct Placing {
    pub streets: Streets,
    pub nodes: Vec<Node>,
}

// Why there is no placing. A node counts from 0. Of its own, and not a cause inside one generic error with memory: each cause would be matched inside `Cause(..)`.
#[derive(Clone, Copy, PartialEq, Eq)]
pub enum PlaceError {
    // The label of this node stands there only.
    Lone(usize),
    // No choice of positions serves this node and those before it.
    Stuck(usize),
    Memory(AllocError),
}

impl From<AllocError> for PlaceError {
    fn from(error: AllocError) -> PlaceError {
        PlaceError::Memory(error)
    }
}

impl Placing {
    // The nodes of a row, all at position 0; or the first node with a label that stands there only.
    pub fn of_row(alloc: Global, row: &[u8], streets: Streets) -> Result<Placing, PlaceError>
        ensures { IfOk result (λ p. p.streets ≡ streets) }
    {
        let nodes = nodes_of(alloc, row)?;
        Ok(Placing { streets, nodes })
    }

    // The labels of the nodes.
    pub fn row(&self) -> Result<Vec<u8>, AllocError> {
        let alloc = *self.nodes.allocator();
        self.nodes.iter().map(|node| node.label()).collect(alloc)
    }
}
