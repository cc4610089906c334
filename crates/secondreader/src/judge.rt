// What documents 01 and 02 say of a sheet: its first fault, the row that it gives back, and whether that joins as another row does.
use secondfilm::fields::Fields;
use secondfilm::sheets::sheet_need;
use secondrouter::nets::{Kind, Node, count_open, label_of};
use secondrouter::orders::Order;
use secondrouter::placing::Placing;
use secondrouter::streets::Streets;
use std::alloc::{AllocError, Global};

// The most nets that the reader takes.
const MOST_NETS: usize = 255;

// The most nodes that a sheet has.
pub const MOST_NODES: usize = 512;

// Why a sheet is refused. A node that is at fault counts from 1, as in the documents.
#[derive(Clone, Copy, PartialEq, Eq, Debug)]
pub enum Fault {
    // Under two bytes, or a node count that is not 2 to 512.
    Count,
    // A street of over three tracks.
    Streets,
    // A length that is not that of the node count.
    Length,
    // At this node: a position that so many open nets do not have.
    Position(usize),
    // At this node: more wires above it than upper tracks.
    Upper(usize),
    // At this node: more wires below it than lower tracks.
    Lower(usize),
    // At this node: more nets than tracks in both streets.
    Tracks(usize),
    // Nets are open after the last node, which is this one.
    Open(usize),
    // A bit behind the last node is set.
    Padding,
    // More nets than the reader takes.
    Nets,
}

impl Fault {
    // The number and the place of the answer that it is, as the documents have them: place 0 where no node is at fault.
    pub fn answer(self) -> (u32, usize) {
        match self {
            Fault::Count => (11, 0),
            Fault::Streets => (12, 0),
            Fault::Length => (13, 0),
            Fault::Position(place) => (16, place),
            Fault::Upper(place) => (17, place),
            Fault::Open(place) => (18, place),
            Fault::Padding => (19, 0),
            Fault::Nets => (23, 0),
            Fault::Lower(place) => (30, place),
            Fault::Tracks(place) => (31, place),
        }
    }
}

// The first two bytes of a sheet.
#[derive(Clone, Copy, PartialEq, Eq, Debug)]
pub struct Head {
    pub streets: Streets,
    pub nodes: usize,
}

// Why a sheet is not taken: its first fault, or memory runs out.
#[derive(Clone, Copy, PartialEq, Eq)]
pub enum JudgeError {
    Fault(Fault),
    Memory(AllocError),
}

impl From<Fault> for JudgeError {
    fn from(fault: Fault) -> JudgeError {
        JudgeError::Fault(fault)
    }
}

impl From<AllocError> for JudgeError {
    fn from(error: AllocError) -> JudgeError {
        JudgeError::Memory(error)
    }
}

// The sheet's node count as its bits stand.
pub fn node_count(sheet: &[u8]) -> usize {
    let mut fields = Fields::new(sheet);
    fields.take(6);
    fields.take(10)
}

// The head of a sheet; or the first of 11, 12 and 13 that is to be said of it.
pub fn read_head(sheet: &[u8]) -> Result<Head, Fault> {
    let nodes = node_count(sheet);
    if sheet.len() < 2 || !(2..=MOST_NODES).contains(&nodes) {
        return Err(Fault::Count);
    }
    // Ku and Kl stand side by side as the number of the pair: two fields apart did not prove, since no contract says that a field of so few bits fits a byte.
    let pair = Fields::new(sheet).take(6);
    if 15 < pair {
        return Err(Fault::Streets);
    }
    if sheet.len() != sheet_need(nodes) {
        return Err(Fault::Length);
    }
    let streets = Streets::nth(pair);
    Ok(Head { streets, nodes })
}

// The next node of a sheet.
fn take_node(fields: &mut Fields) -> Node {
    let kind = Kind::from([fields.bit(), fields.bit()]);
    Node::new(kind, fields.take(4))
}

// Writes the kinds, positions and open nets of a sheet's first nodes, as its bits have them.
pub fn unpack_nodes(sheet: &[u8], nodes: &mut [Node]) {
    let mut fields = Fields::new(sheet);
    fields.take(16);
    for node in nodes.iter_mut() {
        *node = take_node(&mut fields);
    }
    count_open(nodes);
}

// So many nodes of a sheet, in memory of their own.
pub fn unpack(alloc: Global, sheet: &[u8], count: usize) -> Result<Vec<Node>, AllocError> {
    let mut nodes = vec![in alloc; Node::new(Kind::Blank, 0); count]?;
    unpack_nodes(sheet, &mut nodes);
    Ok(nodes)
}

// Tests a node, which is this one: the first of 16, 17, 30 and 31 that is to be said of it.
fn test_node(node: &Node, place: usize, streets: Streets) -> Result<(), Fault> {
    let own = usize::from(node.kind != Kind::Blank);
    let Some(below) = node.open.checked_sub(node.position.saturating_add(own)) else {
        return Err(Fault::Position(place));
    };
    if usize::from(streets.upper) < node.position {
        return Err(Fault::Upper(place));
    }
    if usize::from(streets.lower) < below {
        return Err(Fault::Lower(place));
    }
    if node.kind != Kind::Blank && streets.tracks() < node.open {
        return Err(Fault::Tracks(place));
    }
    Ok(())
}

// Tests all nodes: the fault of the leftmost one that has one.
fn test_nodes(nodes: &[Node], streets: Streets) -> Result<(), Fault> {
    for (i, node) in nodes.iter().enumerate() {
        test_node(node, i.saturating_add(1), streets)?;
    }
    Ok(())
}

// What the bits behind so many nodes spell.
fn padding(sheet: &[u8], nodes: usize) -> usize {
    let mut fields = Fields::new(sheet);
    fields.take(nodes.saturating_mul(6).saturating_add(16));
    fields.take(nodes % 4 * 2)
}

// Tests the end of a sheet: the first of 18 and 19 that is to be said of it.
fn test_end(sheet: &[u8], nodes: &[Node]) -> Result<(), Fault> {
    if nodes.last().is_some_and(|last| last.open_after() != 0) {
        return Err(Fault::Open(nodes.len()));
    }
    if padding(sheet, nodes.len()) != 0 {
        return Err(Fault::Padding);
    }
    Ok(())
}

// Writes the nodes of a sheet with this head; or says the first fault behind that.
fn judge_nodes(sheet: &[u8], streets: Streets, nodes: &mut [Node]) -> Result<(), Fault> {
    unpack_nodes(sheet, nodes);
    test_nodes(nodes, streets)?;
    test_end(sheet, nodes)
}

// The head of a sheet, whose nodes, which have no nets yet, are then the first of those that are lent; or its first fault, 14, 21 and 23 aside.
pub fn first_fault(sheet: &[u8], nodes: &mut [Node; MOST_NODES]) -> Result<Head, Fault> {
    let head = read_head(sheet)?;
    let count = head.nodes.min(MOST_NODES);
    judge_nodes(sheet, head.streets, &mut nodes[..count])?;
    Ok(head)
}

// The streets and nodes of a sheet, which have no nets yet, in memory of their own; or its first fault, 14, 21 and 23 aside.
pub fn judge(alloc: Global, sheet: &[u8]) -> Result<Placing, JudgeError> {
    let Head { streets, nodes } = read_head(sheet)?;
    let mut nodes = vec![in alloc; Node::new(Kind::Blank, 0); nodes]?;
    judge_nodes(sheet, streets, &mut nodes)?;
    Ok(Placing { streets, nodes })
}

// Gives each node its net's number, none at a blank, and gives how many nets there are. That goes beside the placing: a type for both would have no
// method of its own. The nodes' limits hold.
pub fn number_nets(nodes: &mut [Node]) -> usize {
    let mut order = Order::new();
    let mut nets: usize = 0;
    for node in nodes.iter_mut() {
        node.net = order.pass(node, u8::try_from(nets).ok());
        if node.kind == Kind::First {
            nets = nets.saturating_add(1);
        }
    }
    nets
}

// What the reader says of a sheet of so many nodes and nets that has no other fault: how many nodes it gives back.
pub fn reader_answer(nodes: usize, nets: usize) -> Result<usize, Fault> {
    if MOST_NETS < nets {
        Err(Fault::Nets)
    } else {
        Ok(nodes)
    }
}

// Whether the first node of a label is that of a net, as a net is known by its first node; or both are a blank's.
fn is_alike(row: &[u8], nodes: &[Node], label: u8, net: Option<u8>) -> bool {
    let first_of_label = label_of(label).and_then(|_| row.iter().position(|other| *other == label));
    let first_of_net = net.and_then(|_| nodes.iter().position(|node| node.net == net));
    first_of_label == first_of_net
}

// Whether a row joins its nodes as these are joined, and leaves the same ones blank.
pub fn joins_alike(row: &[u8], nodes: &[Node]) -> bool {
    row.len() == nodes.len()
        && row
            .iter()
            .zip(nodes)
            .all(|(label, node)| is_alike(row, nodes, *label, node.net))
}
