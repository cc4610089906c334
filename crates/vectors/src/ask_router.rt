// Lines of the router: `row Ku Kl number place sheet`.
use crate::asked::Answer;
use answers::Said;
use fields::{bytes, number};
use lent::{fill, is_cleared, is_written, prepare};
use router::route;

// Bytes of work: those of 512 nodes, and 64 that no row needs.
const WORK: usize = 46144;

// What the router answers to a line. It is right in number, place and every byte of both buffers.
pub fn router_line(line: &[u8]) -> Option<Answer> {
    // Arrays are lent, so that no line fails for want of memory.
    let mut row = [0u8; 1024];
    let mut wanted = [0u8; 1024];
    let mut work = [0u8; WORK];
    let mut sheet = [0u8; 1024];
    let row = bytes(line, 0, &mut row)?;
    let ku = u8::try_from(number(line, 1)?).ok()?;
    let kl = u8::try_from(number(line, 2)?).ok()?;
    let wanted = bytes(line, 5, &mut wanted);
    fill(&mut work);
    prepare(&mut sheet, wanted.unwrap_or(b""));
    let answer = route(row, ku, kl, &mut work, &mut sheet);
    let is_written = is_cleared(&work, answer, row.len())
        && wanted.is_some_and(|wanted| is_written(&sheet, wanted));
    Some(Answer::new(line, 3, Said::from(answer), is_written))
}
