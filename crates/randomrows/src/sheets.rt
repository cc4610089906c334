// Random sheets: of a placing by lot, which need not be the first, with any numbers of wires above its blanks; and most of them damaged. The lot stands beside what it changes:
// it goes on to the next sheet, and the placing does not.
use crate::generator::Generator;
use crate::rows::{Plan, blank_row, make, position};
use secondfilm::sheets::{pack_nodes, sheet_need};
use secondrouter::nets::{Kind, Node};
use secondrouter::streets::Streets;
use std::alloc::{AllocError, Global};

// How many nodes a crowded sheet has.
const CROWDED: usize = 512;

// What is wrong with a node of a sheet, before that is packed.
#[derive(Clone, Copy)]
enum NodeDamage {
    // Any node has any kind, or a position, or the last node any kind.
    Kind,
    Position,
    LastKind,
}

// What is wrong with the bits of a sheet.
#[derive(Clone, Copy)]
enum BitDamage {
    // Any bit is turned, or one of the first two bytes.
    Any,
    Head,
    // The last bit is set: one of the padding, where there is any.
    Last,
}

// What is wrong with a sheet.
#[derive(Clone, Copy)]
enum Damage {
    Node(NodeDamage),
    Bits(BitDamage),
    // It is given any length.
    Length,
}

impl Damage {
    // In seven of sixteen cases none.
    fn by_lot(lot: &mut Generator) -> Option<Damage> {
        match lot.draw(16) {
            7 => Some(Damage::Length),
            8 | 9 => Some(Damage::Node(NodeDamage::Kind)),
            10 | 11 => Some(Damage::Node(NodeDamage::Position)),
            12 => Some(Damage::Node(NodeDamage::LastKind)),
            13 => Some(Damage::Bits(BitDamage::Any)),
            14 => Some(Damage::Bits(BitDamage::Head)),
            15 => Some(Damage::Bits(BitDamage::Last)),
            _ => None,
        }
    }
}

impl BitDamage {
    // Changes the packed sheet's bits.
    fn spoil(self, lot: &mut Generator, sheet: &mut [u8]) {
        match self {
            BitDamage::Any => turn_bit(sheet, lot.draw(sheet.len().saturating_mul(8))),
            BitDamage::Head => turn_bit(sheet, lot.draw(16)),
            BitDamage::Last => set_last(sheet),
        }
    }
}

// Changes a node's kind or position where that is the damage. The lot is drawn in any case, so that the sheets that come after stay the same.
fn spoil_node(lot: &mut Generator, nodes: &mut [Node], damage: Option<Damage>) {
    let any = lot.draw(nodes.len());
    let kind = any_kind(lot);
    let position = lot.draw(8);
    let Some(Damage::Node(damage)) = damage else {
        return;
    };
    let node = match damage {
        NodeDamage::LastKind => nodes.last_mut(),
        NodeDamage::Kind | NodeDamage::Position => nodes.get_mut(any),
    };
    let Some(node) = node else {
        return;
    };
    match damage {
        NodeDamage::Kind | NodeDamage::LastKind => node.kind = kind,
        NodeDamage::Position => node.position = position,
    }
}

// One of the four kinds.
fn any_kind(lot: &mut Generator) -> Kind {
    let number = lot.draw(4);
    Kind::from([number & 2 != 0, number & 1 != 0])
}

// Turns bit `k`, counted from each byte's lowest.
fn turn_bit(sheet: &mut [u8], k: usize) {
    if let Some(byte) = sheet.get_mut(k / 8) {
        *byte ^= 1 << (k % 8);
    }
}

fn set_last(sheet: &mut [u8]) {
    if let Some(byte) = sheet.last_mut() {
        *byte |= 1;
    }
}

// A row, and a sheet that is tried with it.
#[derive(Drop)]
pub struct Drawn {
    pub row: Vec<u8>,
    pub sheet: Vec<u8>,
}

// How many bytes the sheet of so many nodes is given at the most: three more than it has.
pub fn most_bytes(nodes: usize) -> usize {
    sheet_need(nodes).saturating_add(3)
}

// The first bytes, or all where there are fewer.
fn first(sheet: &mut [u8], count: usize) -> &mut [u8] {
    let end = count.min(sheet.len());
    &mut sheet[..end]
}

// Makes a row of so many nodes as are lent, and its sheet, damages that in nine cases of sixteen, and gives the sheet's length. So many bytes are lent as `most_bytes` says;
// what stands behind the sheet is 0.
pub fn make_sheet(lot: &mut Generator, plan: Plan, nodes: &mut [Node], sheet: &mut [u8]) -> usize {
    let damage = Damage::by_lot(lot);
    make(lot, plan, nodes);
    spoil_node(lot, nodes, damage);
    let need = sheet_need(nodes.len());
    sheet.fill(0);
    let packed = first(sheet, need);
    pack_nodes(nodes, plan.streets, packed);
    match damage {
        Some(Damage::Bits(damage)) => damage.spoil(lot, packed),
        Some(Damage::Length) => return lot.draw(need.saturating_add(4)),
        Some(Damage::Node(_)) | None => {}
    }
    need
}

// Makes a row and its sheet in memory of their own, and damages that in nine cases of sixteen.
pub fn draw_sheet(alloc: Global, lot: &mut Generator, plan: Plan) -> Result<Drawn, AllocError> {
    let mut placing = blank_row(alloc, plan)?;
    let mut sheet = vec![in alloc; 0; most_bytes(plan.count)]?;
    let len = make_sheet(lot, plan, &mut placing.nodes, &mut sheet);
    sheet.truncate(len);
    let row = placing.row()?;
    Ok(Drawn { row, sheet })
}

// Whether a net begins at the next node of nets of two nodes, `left` nodes before the end.
fn begins(lot: &mut Generator, open: usize, left: usize, tracks: usize) -> bool {
    if open == 0 {
        return true;
    }
    if left <= open || tracks <= open {
        return false;
    }
    lot.draw(2) == 0
}

// Makes nets of two nodes: an even number of nodes.
fn make_pairs(lot: &mut Generator, streets: Streets, nodes: &mut [Node]) {
    let mut open: usize = 0;
    let mut left = nodes.len();
    for node in nodes.iter_mut() {
        if begins(lot, open, left, streets.tracks()) {
            open = open.saturating_add(1);
            *node = Node::new(Kind::First, position(lot, Some(streets), open));
        } else {
            *node = Node::new(Kind::Last, position(lot, Some(streets), open));
            open = open.saturating_sub(1);
        }
        left = left.saturating_sub(1);
    }
}

// Makes a sheet of so many nodes as are lent, an even number, in nets of two, or with two fewer between two blanks; damages a node in five cases of sixteen; and gives the
// sheet's length. So many bytes are lent as `sheet_need` says.
pub fn make_crowded(
    lot: &mut Generator,
    streets: Streets,
    has_blanks: bool,
    nodes: &mut [Node],
    sheet: &mut [u8],
) -> usize {
    let blanks = usize::from(has_blanks);
    let end = nodes.len().saturating_sub(blanks);
    nodes.fill(Node::new(Kind::Blank, 0));
    if let Some(nodes) = nodes.get_mut(blanks..end) {
        make_pairs(lot, streets, nodes);
    }
    let damage = Damage::by_lot(lot);
    spoil_node(lot, nodes, damage);
    let need = sheet_need(nodes.len());
    pack_nodes(nodes, streets, first(sheet, need));
    need
}

// Makes a sheet of 512 nodes in nets of two, in memory of its own: 256 nets, or 255 between two blanks. Five of sixteen are damaged at a node.
pub fn draw_crowded(
    alloc: Global,
    lot: &mut Generator,
    streets: Streets,
    has_blanks: bool,
) -> Result<Vec<u8>, AllocError> {
    let mut nodes = vec![in alloc; Node::new(Kind::Blank, 0); CROWDED]?;
    let mut sheet = vec![in alloc; 0; sheet_need(CROWDED)]?;
    make_crowded(lot, streets, has_blanks, &mut nodes, &mut sheet);
    Ok(sheet)
}

#[cfg(test)]
mod tests {
    use super::*;
    use crate::rows::draw_row;

    #[test]
    fn rows_and_sheets_are_drawn(rt: HostRuntime) {
        let mut lot = Generator::new(20611);
        let plan = Plan {
            streets: Streets { upper: 2, lower: 1 },
            count: 9,
            share: Some(4),
        };
        let placing = draw_row(rt.alloc(), &mut lot, plan);
        assert!(rt; placing.is_ok_and(|placing| placing.nodes.len() == 9));
        let drawn = draw_sheet(rt.alloc(), &mut lot, plan);
        assert!(rt; drawn.is_ok_and(|drawn| drawn.row.len() == 9));
        let crowded = draw_crowded(rt.alloc(), &mut lot, plan.streets, true);
        assert!(rt; crowded.is_ok_and(|sheet| sheet.len() == 386));
    }

    #[test]
    fn lent_memory_serves_as_well(rt: HostRuntime) {
        let plan = Plan {
            streets: Streets { upper: 2, lower: 1 },
            count: 9,
            share: Some(4),
        };
        let drawn = draw_sheet(rt.alloc(), &mut Generator::new(20611), plan);
        let mut nodes = [Node::new(Kind::Blank, 0); 9];
        let mut sheet = [0xff; 12];
        let len = make_sheet(&mut Generator::new(20611), plan, &mut nodes, &mut sheet);
        assert!(rt; drawn.is_ok_and(|drawn| Some(drawn.sheet.as_slice()) == sheet.get(..len)));
    }
}
