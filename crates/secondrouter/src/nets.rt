// What a row says of its nodes: their kinds, lone labels, how many nets are open, and the nets' numbers. Nodes count from 0 here. A node with the label 255 is a
// blank of request 1: it stands in no net.
use crate::placing::PlaceError;
use std::alloc::{AllocError, Global};

// The label of a blank, and what the reader writes there.
pub const BLANK_LABEL: u8 = 255;

// What a node is to its net; a blank has none.
#[derive(Clone, Copy, PartialEq, Eq, Debug)]
pub enum Kind {
    First,
    Inner,
    Last,
    Blank,
}

// The kind that two bits of a sheet stand for.
impl From<[bool; 2]> for Kind {
    fn from(bits: [bool; 2]) -> Kind {
        match bits {
            [false, false] => Kind::First,
            [false, true] => Kind::Inner,
            [true, false] => Kind::Last,
            [true, true] => Kind::Blank,
        }
    }
}

// The two bits of a sheet that stand for a kind.
impl From<Kind> for [bool; 2] {
    fn from(kind: Kind) -> [bool; 2] {
        match kind {
            Kind::First => [false, false],
            Kind::Inner => [false, true],
            Kind::Last => [true, false],
            Kind::Blank => [true, true],
        }
    }
}

// A node of a row or of a sheet.
#[derive(Clone, Copy, PartialEq, Eq, Debug)]
pub struct Node {
    pub kind: Kind,
    // The net by its label in a row, or by its number; none at a blank. It is not within the kind: nodes of a sheet have kinds before they have numbers.
    pub net: Option<u8>,
    // How many nets are open at the node, with its own if it has one.
    pub open: usize,
    // The net's position in the order of open nets, the topmost 0; at a blank the number of wires above it.
    pub position: usize,
}

impl Node {
    // A node of a kind at a position, of no net.
    pub fn new(kind: Kind, position: usize) -> Node {
        Node {
            kind,
            net: None,
            open: 0,
            position,
        }
    }

    // The label that names its net, or that of a blank.
    pub fn label(&self) -> u8 {
        self.net.unwrap_or(BLANK_LABEL)
    }

    // How many nets are open after the node.
    pub fn open_after(&self) -> usize {
        if self.kind == Kind::Last {
            self.open.saturating_sub(1)
        } else {
            self.open
        }
    }
}

// The net that a label names; none for a blank's. `From` cannot stand here, since both types are std's.
pub fn label_of(label: u8) -> Option<u8> {
    (label != BLANK_LABEL).then_some(label)
}

// The kind of node `i` of the row; none where the node has a net's label that stands there only, which is no kind. An error would be made here to be dropped in
// `is_lone`.
pub fn kind_of(row: &[u8], i: usize) -> Option<Kind> {
    let (before, rest) = row.split_at_checked(i)?;
    let (label, after) = rest.split_first()?;
    if *label == BLANK_LABEL {
        return Some(Kind::Blank);
    }
    match (before.contains(label), after.contains(label)) {
        (false, true) => Some(Kind::First),
        (true, true) => Some(Kind::Inner),
        (true, false) => Some(Kind::Last),
        (false, false) => None,
    }
}

// Whether node `i` has a net's label that stands there only.
pub fn is_lone(row: &[u8], i: usize) -> bool {
    i < row.len() && kind_of(row, i).is_none()
}

// The first node with a label that stands there only: by its number, since what stands before and behind it decides.
pub fn first_lone(row: &[u8]) -> Option<usize> {
    (0..row.len()).find(|i| is_lone(row, *i))
}

// Node `i` of a row at position 0, with its kind and label; or that its label stands there only.
fn node_of(row: &[u8], i: usize, label: u8) -> Result<Node, PlaceError> {
    let kind = kind_of(row, i).ok_or(PlaceError::Lone(i))?;
    Ok(Node {
        net: label_of(label),
        ..Node::new(kind, 0)
    })
}

// The nodes of a row with their kinds, labels and open nets, at position 0; or the first node with a label that stands there only.
pub fn nodes_of(alloc: Global, row: &[u8]) -> Result<Vec<Node>, PlaceError> {
    let mut nodes: Vec<Node> = row
        .iter()
        .enumerate()
        .map(|(i, label)| node_of(row, i, *label))
        .try_collect(alloc)?;
    count_open(&mut nodes);
    Ok(nodes)
}

// Writes how many nets are open at each node, with its own if it has one.
pub fn count_open(nodes: &mut [Node]) {
    let mut open: usize = 0;
    for node in nodes.iter_mut() {
        if node.kind == Kind::First {
            open = open.saturating_add(1);
        }
        node.open = open;
        open = node.open_after();
    }
}

// The numbers of the nets that have begun: 0, 1, 2 in the order of their first nodes.
#[derive(Drop)]
struct Numbering {
    // By label; none where the net has not begun.
    of: [Option<u8>; 256],
    nets: u8,
}

impl Numbering {
    // The number of a label's net, a new one where the label is new; none for a blank's.
    fn number(&mut self, label: u8) -> Option<u8> {
        let number = self.of.get_mut(usize::from(label_of(label)?))?;
        if number.is_none() {
            *number = Some(self.nets);
            self.nets = self.nets.saturating_add(1);
        }
        *number
    }
}

// Writes the net's number of each node, 0, 1, 2 in the order of the nets' first nodes, none at a blank; and gives how many nets there are.
pub fn numbers(row: &[u8], numbers: &mut [Option<u8>]) -> usize {
    let mut begun = Numbering {
        of: [None; 256],
        nets: 0,
    };
    for (label, number) in row.iter().zip(numbers.iter_mut()) {
        *number = begun.number(*label);
    }
    usize::from(begun.nets)
}

// The same numbers in memory of their own.
pub fn numbers_of(alloc: Global, row: &[u8]) -> Result<Vec<Option<u8>>, AllocError> {
    let mut of_nodes = vec![in alloc; None; row.len()]?;
    numbers(row, &mut of_nodes);
    Ok(of_nodes)
}
