// Lines of sheets: `sheet number place row` of the reader, and behind them `number place film` of the drawer.
use crate::asked::Answer;
use answers::Said;
use fields::bytes;
use lent::{is_written, prepare};
use sheet::agreement::agrees;
use sheet::reader::read;

// What the reader answers to a line. It is right in number, place and every byte of the row's buffer, where the agreement test also says yes of an
// accepted sheet and its row, and no of a refused one.
pub fn reader_line(line: &[u8]) -> Option<Answer> {
    // Arrays are lent, so that no line fails for want of memory.
    let mut sheet = [0u8; 1024];
    let mut wanted = [0u8; 1024];
    let mut row = [0u8; 1024];
    let sheet = bytes(line, 0, &mut sheet)?;
    let wanted = bytes(line, 3, &mut wanted);
    prepare(&mut row, wanted.unwrap_or(b""));
    let answer = read(sheet, &mut row);
    let is_written = wanted.is_some_and(|wanted| {
        is_written(&row, wanted) && agrees(wanted, sheet) == answer.is_ok()
    });
    Some(Answer::new(line, 1, Said::from(answer), is_written))
}
