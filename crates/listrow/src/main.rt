// Reads byte Ku, byte Kl and a row from standard input, and writes the router's answer as text. 515 bytes suffice: a row of 513 nodes is refused like a longer one.
#![tactic(auto)]

use arrayvec::ArrayVec;
use std::io;
use std::io::Read;

// Bytes of the input that are read.
const MOST: usize = 515;

// Input and text stand on the stack, so that no row fails for want of memory.
fn main(rt: HostRuntime) -> io::Result<()> {
    let mut input = ArrayVec::<u8, MOST>::new();
    io::copy(&mut rt.reader().take(MOST as u64), &mut input)?;
    let mut text = [0u8; 8256];
    let k = listing::list_row(&input, &mut text);
    rt.write_all(&text[..k])
}
