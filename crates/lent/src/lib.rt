// Lent buffers: filled with a pattern before a call, and looked at afterwards.
#![tactic(auto)]

pub mod films;

use rules::{RouteError, Routing};
use std::array;

// The pattern comes again after so many bytes.
const PERIOD: usize = 251;

// What stands in a buffer before a call, over and over from its start; no byte is 0. It is laid and looked for a period at a time: with a division for each byte the
// programs of tests take up to three times as long. `tallies` has such a pattern with a seed, and fills and looks for it by loops of its own.
fn pattern() -> [u8; PERIOD] {
    array::from_fn(|i| (i % PERIOD) as u8 + 3)
}

pub fn fill(buffer: &mut [u8]) {
    let pattern = pattern();
    for chunk in buffer.chunks_mut(PERIOD) {
        for (byte, wanted) in chunk.iter_mut().zip(&pattern) {
            *byte = *wanted;
        }
    }
}

// Makes the start of a buffer differ from some bytes, each from each.
pub fn spoil(buffer: &mut [u8], wanted: &[u8]) {
    for (byte, wanted_byte) in buffer.iter_mut().zip(wanted) {
        *byte = wanted_byte ^ 255;
    }
}

// Whether a buffer still has the pattern from an index on.
pub fn is_kept(buffer: &[u8], from: usize) -> bool {
    let Some(rest) = buffer.get(from..) else {
        return true;
    };
    let pattern = pattern();
    let behind = &pattern[from % PERIOD..];
    let (start, others) = rest.split_at(behind.len().min(rest.len()));
    behind.starts_with(start)
        && others
            .chunks(PERIOD)
            .all(|chunk| pattern.starts_with(chunk))
}

// Fills a buffer with the pattern, and its start with bytes that differ from those wanted there, so that each of those must be written.
pub fn prepare(buffer: &mut [u8], wanted: &[u8]) {
    fill(buffer);
    spoil(buffer, wanted);
}

// Whether a buffer starts with the wanted bytes, and still has the pattern behind them.
pub fn is_written(buffer: &[u8], wanted: &[u8]) -> bool {
    buffer.starts_with(wanted) && is_kept(buffer, wanted.len())
}

// Whether work is what the router's answer to a row of n nodes leaves: 90 bytes a node are zero after a sheet, and where no placing was found, and every other byte
// is as it was.
pub fn is_cleared(work: &[u8], answer: Routing, n: usize) -> bool {
    let zeros = match answer {
        Ok(_) | Err(RouteError::Stuck(_)) => n.saturating_mul(90),
        Err(_) => 0,
    };
    work.get(..zeros)
        .is_some_and(|start| start.iter().all(|byte| *byte == 0))
        && is_kept(work, zeros)
}
