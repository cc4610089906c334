// Random rows: legal for a while, or from the start left to chance; with blanks or without. Each has the placing by lot that it was made with.
use crate::generator::Generator;
use secondrouter::nets::{Kind, Node};
use secondrouter::orders::Order;
use secondrouter::placing::Placing;
use secondrouter::streets::Streets;
use std::alloc::{AllocError, Global};

// Labels 0 to 254 are those of nets.
const LABELS: usize = 255;

// What a row is to be.
#[derive(Clone, Copy)]
pub struct Plan {
    pub streets: Streets,
    pub count: usize,
    // Of sixteen nodes so many are to be blanks; none where blanks are not to come at all, not even as the last node.
    pub share: Option<usize>,
}

// How a row is made, by lot.
#[derive(Clone, Copy)]
struct Style {
    plan: Plan,
    // Of ten nodes of nets so many are to open one, and so many to end one.
    opening: usize,
    ending: usize,
    // How many nets a node may find open while they follow an order that meets the limits.
    most: usize,
    // From this node on any net may be touched.
    free_from: usize,
}

impl Style {
    // The style that one number by lot says: its parts stay as they were, and so do the rows.
    fn new(bits: usize, plan: Plan) -> Style {
        Style {
            plan,
            opening: bits % 5 + 1,
            ending: bits % 4 + 1,
            most: most_open(bits, plan.streets.tracks()),
            free_from: free_from(bits, plan),
        }
    }

    // The streets whose limits node `i` meets; none where the row is left to chance.
    fn limits(&self, i: usize) -> Option<Streets> {
        (i < self.free_from).then_some(self.plan.streets)
    }

    // How many nets node `i` may find open: one more than the tracks where the row is left to chance.
    fn cap(&self, i: usize) -> usize {
        match self.limits(i) {
            Some(_) => self.most,
            None => self.plan.streets.tracks().saturating_add(1),
        }
    }
}

// All tracks in half of the rows, else by lot.
fn most_open(bits: usize, tracks: usize) -> usize {
    if bits / 32 % 2 == 0 {
        return tracks;
    }
    (bits / 64).checked_rem(tracks).unwrap_or(0) + 1
}

// From which node on a row is left to chance: a quarter of the rows never, a quarter from the start, half from a node of the second half.
fn free_from(bits: usize, plan: Plan) -> usize {
    if plan.streets.tracks() == 0 {
        return 0;
    }
    let half = plan.count / 2;
    match bits / 1024 % 4 {
        0 => 0,
        1 => plan.count,
        _ => half + (bits / 4096).checked_rem(half).unwrap_or(0),
    }
}

// A position among `count`: one that the limits of two streets allow, or any at all.
pub fn position(lot: &mut Generator, limits: Option<Streets>, count: usize) -> usize {
    let Some(streets) = limits else {
        return lot.draw(count);
    };
    let from = count.saturating_sub(1 + usize::from(streets.lower));
    let to = count.min(1 + usize::from(streets.upper));
    from.saturating_add(lot.draw(to.saturating_sub(from)))
}

// The labels that nets of a row have, and how many nets have begun.
#[derive(Drop)]
struct Labels {
    used: [bool; 256],
    begun: usize,
}

impl Labels {
    // No net has begun.
    fn new() -> Labels {
        Labels {
            used: [false; 256],
            begun: 0,
        }
    }

    // The labels of these nodes.
    fn of(nodes: &[Node]) -> Labels {
        let mut labels = Labels::new();
        for node in nodes {
            labels.used[usize::from(node.label())] = true;
        }
        labels
    }

    // Whether as many nets have begun as there are labels.
    fn is_used_up(&self) -> bool {
        LABELS <= self.begun
    }

    // A label that no net has yet, for one that begins; none where all are used.
    fn take(&mut self, lot: &mut Generator) -> Option<u8> {
        let start = lot.draw(LABELS);
        self.begun = self.begun.saturating_add(1);
        let label = (0..LABELS)
            .map(|k| (start.wrapping_add(k) % LABELS) as u8)
            .find(|label| !self.used[usize::from(*label)])?;
        self.used[usize::from(label)] = true;
        Some(label)
    }
}

// A row that is being made: how many nodes it has so far, the labels of its nets, and the order of the nets that are open after them.
#[derive(Drop)]
struct Draft<'a> {
    lot: &'a mut Generator,
    style: Style,
    made: usize,
    labels: Labels,
    order: Order,
}

impl Draft<'_> {
    // How many nodes are to come.
    fn left(&self) -> usize {
        self.style.plan.count.saturating_sub(self.made)
    }

    // Whether the next node is a blank, by lot: a share of sixteen are to be, where every open net can still end. So is a last node that finds no net open.
    fn is_blank(&mut self) -> bool {
        let Some(share) = self.style.plan.share else {
            return false;
        };
        let open = self.order.open();
        if self.left() <= open {
            return false;
        }
        if open == 0 && self.left() == 1 {
            return true;
        }
        self.lot.draw(16) < share
    }

    // What the next node of a net is to it, by lot.
    fn kind(&mut self) -> Kind {
        let lot = self.lot.draw(10);
        let open = self.order.open();
        if open == 0 {
            return Kind::First;
        }
        if self.left() <= open {
            return Kind::Last;
        }
        if lot < self.style.opening {
            return self.opening();
        }
        if lot < self.style.opening.saturating_add(self.style.ending) {
            return self.ending();
        }
        Kind::Inner
    }

    // Opens a net if that can be: every open net has to end.
    fn opening(&self) -> Kind {
        let open = self.order.open();
        let cap = self.style.cap(self.made);
        if cap <= open || self.left() < open.saturating_add(2) || self.labels.is_used_up() {
            Kind::Inner
        } else {
            Kind::First
        }
    }

    // Ends a net if that can be: a single last node could not be of any net, and with no label left no net could follow.
    fn ending(&self) -> Kind {
        if 1 < self.order.open() || (self.left() != 2 && !self.labels.is_used_up()) {
            Kind::Last
        } else {
            Kind::Inner
        }
    }

    // A node of a kind, at a position by lot.
    fn node(&mut self, kind: Kind) -> Node {
        let open = self.order.open();
        let choices = match kind {
            Kind::First | Kind::Blank => open.saturating_add(1),
            Kind::Inner | Kind::Last => open,
        };
        let limits = self.style.limits(self.made);
        let mut node = Node::new(kind, position(self.lot, limits, choices));
        let begins = match kind {
            Kind::First => self.labels.take(self.lot),
            _ => None,
        };
        node.net = self.order.pass(&node, begins);
        node
    }

    // The next node.
    fn next(&mut self) -> Node {
        let kind = if self.is_blank() {
            Kind::Blank
        } else {
            self.kind()
        };
        let node = self.node(kind);
        self.made = self.made.saturating_add(1);
        node
    }
}

// Makes a row with no lone label of so many nodes as are lent: until a node it follows an order that meets the limits, then any net may be touched. The plan's count is theirs.
pub fn make(lot: &mut Generator, plan: Plan, nodes: &mut [Node]) {
    let bits = (lot.number() >> 16) as usize;
    let count = nodes.len();
    let mut draft = Draft {
        lot,
        style: Style::new(bits, Plan { count, ..plan }),
        made: 0,
        labels: Labels::new(),
        order: Order::new(),
    };
    for node in nodes.iter_mut() {
        *node = draft.next();
    }
}

// The nodes of a plan before they are made, in memory of their own.
pub fn blank_row(alloc: Global, plan: Plan) -> Result<Placing, AllocError> {
    Ok(Placing {
        streets: plan.streets,
        nodes: vec![in alloc; Node::new(Kind::Blank, 0); plan.count]?,
    })
}

// Makes such a row of the plan's count, in memory of its own. The allocator stands beside the lot, as std has it beside what it makes: a lot that kept it would be a
// generator of rows and not of numbers.
pub fn draw_row(alloc: Global, lot: &mut Generator, plan: Plan) -> Result<Placing, AllocError> {
    let mut placing = blank_row(alloc, plan)?;
    make(lot, plan, &mut placing.nodes);
    Ok(placing)
}

// Gives one node a label that no other has.
pub fn make_lone(lot: &mut Generator, placing: &mut Placing) {
    let label = Labels::of(&placing.nodes).take(lot);
    let i = lot.draw(placing.nodes.len());
    if let Some(node) = placing.nodes.get_mut(i) {
        node.net = label;
    }
}
