// Lent buffers: the pattern that one holds before a call, and what it holds after.

fn pattern(i: usize, seed: usize) -> u8 {
    (((i ^ (i / 256)) ^ seed) % 256) as u8
}

// Puts the pattern of `seed` into a buffer. `lent` has `fill` and `is_kept` for a pattern without a seed that is never 0: the two of here and the two of there over
// any pattern would be the same loops, with the pattern as a closure that each caller passes.
pub fn fill(lent: &mut [u8], seed: usize) {
    for (i, byte) in lent.iter_mut().enumerate() {
        *byte = pattern(i, seed);
    }
}

// Whether a buffer holds the pattern of `seed` from byte `from` on.
pub fn keeps(lent: &[u8], from: usize, seed: usize) -> bool {
    lent.iter()
        .enumerate()
        .skip(from)
        .all(|(i, byte)| *byte == pattern(i, seed))
}

// Whether all bytes are 0.
pub fn is_clear(bytes: &[u8]) -> bool {
    bytes.iter().all(|byte| *byte == 0)
}

// The first `n` bytes, or all where there are fewer.
pub fn part(bytes: &[u8], n: usize) -> &[u8] {
    &bytes[..n.min(bytes.len())]
}

// The same of a buffer that is to be changed: `&` and `&mut` are two types.
pub fn part_mut(bytes: &mut [u8], n: usize) -> &mut [u8] {
    let end = n.min(bytes.len());
    &mut bytes[..end]
}
