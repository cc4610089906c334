// The row aabbcc.. with labels from 0 to 254 and then two blanks, the sheet of 256 nets, and what documents 01 and 02 make of them under 1/0: every net stands alone on
// track 1, from its first node to the next.
use std::array;

// The first N bytes of the row.
pub fn row<const N: usize>() -> [u8; N] {
    array::from_fn(label)
}

// The first N bytes of the input of `listrow`: 1, 0 and the row.
pub fn input<const N: usize>() -> [u8; N] {
    array::from_fn(|i| match i {
        0 => 1,
        1 => 0,
        _ => label(i - 2),
    })
}

// The first N bytes of the row's sheet. The last two nodes are blanks, with s 0: the 12 bits c30.
pub fn sheet<const N: usize>() -> [u8; N] {
    array::from_fn(|i| match i {
        384 => 0x0c,
        385 => 0x30,
        _ => nets_byte(i),
    })
}

// The first N bytes of the sheet of 256 nets, which no row has.
pub fn nets<const N: usize>() -> [u8; N] {
    array::from_fn(nets_byte)
}

// The first N bytes of the film of 256 nets: for each the stubs at its two nodes, and the horizontal between them. Five bytes a record, the most
// significant first.
pub fn film<const N: usize>() -> [u8; N] {
    array::from_fn(|i| record(i / 5).map_or(0, |record| record.to_be_bytes()[3 + i % 5]))
}

// The label of the node behind i others; that of the last two of 512 is 255, a blank.
fn label(i: usize) -> u8 {
    (i / 2 % 256) as u8
}

// Ku 1, Kl 0 and 512 are 12 00; B at p 1 and E at p 1 are the 12 bits 020.
fn nets_byte(i: usize) -> u8 {
    match i {
        0 => 0x12,
        1 => 0,
        _ => [0, 0x20, 0x02][i % 3],
    }
}

// Record k of the film as a number of 40 bits; none behind those of 256 nets.
fn record(k: usize) -> Option<u64> {
    if k > 767 {
        return None;
    }
    let net = k as u64 / 3;
    let left = 32 * net;
    let right = left + 16;
    Some(match k % 3 {
        0 => stub(net, left),
        1 => stub(net, right),
        _ => net << 31 | 5 << 27 | left << 14 | right << 1,
    })
}

// A vertical from level 0 to level 1.
fn stub(net: u64, column: u64) -> u64 {
    1 << 39 | net << 31 | 4 << 27 | column << 14 | 5 << 10
}
