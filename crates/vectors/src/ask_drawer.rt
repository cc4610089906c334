// Lines of sheets: behind the reader's fields `number place film` of the drawer, whose records may stand in another order.
use crate::asked::Answer;
use answers::Said;
use fields::bytes;
use film::drawer::draw;
use lent::fill;
use lent::films::is_drawn;

// Bytes of a film: 14 records for each of 512 nodes, which no film exceeds.
const FILM: usize = 35840;

// What the drawer answers to a line. It is right in number, place, the film's records in any order, and every other byte as it was.
// The reader's lines go the same course, and ask the agreement test too. One function for both, over a trait as `casebook` has it, would take a size, who is asked
// and what else is tested, and be no shorter than the two.
pub fn drawer_line(line: &[u8]) -> Option<Answer> {
    // Arrays are lent, so that no line fails for want of memory.
    let mut sheet = [0u8; 1024];
    let mut wanted = [0u8; FILM];
    let mut film = [0u8; FILM];
    let sheet = bytes(line, 0, &mut sheet)?;
    let wanted = bytes(line, 6, &mut wanted);
    fill(&mut film);
    let said = Said::from(draw(sheet, &mut film));
    let is_written = wanted.is_some_and(|wanted| is_drawn(&film, wanted));
    Some(Answer::new(line, 4, said, is_written))
}
