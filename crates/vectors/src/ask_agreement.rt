// Lines of the agreement test: `row sheet answer`, 1 for yes and 0 for no.
use crate::asked::Answer;
use fields::{bytes, number};
use sheet::agreement::agrees;

// What the agreement test answers to a line, as 1 or 0.
pub fn agreement_line(line: &[u8]) -> Option<Answer> {
    // Arrays are lent, so that no line fails for want of memory.
    let mut row = [0u8; 1024];
    let mut sheet = [0u8; 1024];
    let row = bytes(line, 0, &mut row)?;
    let sheet = bytes(line, 1, &mut sheet)?;
    let answer = u32::from(agrees(row, sheet));
    Some(Answer {
        number: answer,
        is_right: number(line, 2) == Some(answer as usize),
    })
}
