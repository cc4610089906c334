// The sheet of a placing, and the number of records of its film.
use crate::fields::FieldWriter;
use crate::gaps::Gap;
use secondrouter::nets::{Kind, Node};
use secondrouter::placing::Placing;
use secondrouter::streets::Streets;
use std::alloc::AllocError;

// 90 bytes for each node.
pub fn work_need(nodes: usize) -> usize {
    nodes.saturating_mul(90)
}

// 2 + ⌈3n/4⌉ bytes.
pub fn sheet_need(nodes: usize) -> usize {
    nodes.saturating_mul(3).div_ceil(4).saturating_add(2)
}

// Packs the sheet of nodes between two streets into bytes that it fills: the streets, the node count, and the kinds and positions of the nodes.
pub fn pack_nodes(nodes: &[Node], streets: Streets, sheet: &mut [u8]) {
    sheet.fill(0);
    let mut fields = FieldWriter::new(sheet);
    fields.put_field(4, usize::from(streets.upper));
    fields.put_field(2, usize::from(streets.lower));
    fields.put_field(10, nodes.len());
    for node in nodes {
        for bit in <[bool; 2]>::from(node.kind) {
            fields.put_bit(bit);
        }
        fields.put_field(4, node.position);
    }
}

// Packs the sheet of a placing into bytes that it fills.
pub fn pack(placing: &Placing, sheet: &mut [u8]) {
    pack_nodes(&placing.nodes, placing.streets, sheet);
}

// The sheet of a placing, in memory of its own.
pub fn packed(placing: &Placing) -> Result<Vec<u8>, AllocError> {
    let alloc = *placing.nodes.allocator();
    let mut sheet = vec![in alloc; 0; sheet_need(placing.nodes.len())]?;
    pack(placing, &mut sheet);
    Ok(sheet)
}

// How many records the film of nodes has: a stub for each node of a net, a horizontal for each net, and for each move a vertical and a horizontal more.
pub fn records(nodes: &[Node], streets: Streets, nets: usize) -> usize {
    let stubs = nodes.iter().filter(|node| node.kind != Kind::Blank).count();
    let mut count = nets.saturating_add(stubs);
    for [before, after] in nodes.array_windows::<2>() {
        let gap = Gap {
            before,
            after,
            streets,
        };
        count = count.saturating_add(gap.moves().saturating_mul(2));
    }
    count
}

// How many records the film of a placing has.
pub fn record_count(placing: &Placing, nets: usize) -> usize {
    records(&placing.nodes, placing.streets, nets)
}
