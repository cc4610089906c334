// Whom the lines of a file ask, and what they are answered.
ghost use Rattle.std.specs.Prelude.{◌<◌};

use crate::ask_agreement::agreement_line;
use crate::ask_drawer::drawer_line;
use crate::ask_reader::reader_line;
use crate::ask_router::router_line;
use answers::Said;
use fields::{bytes, is_said};
use rules::BLANK;

// Whom a line asks. An enum and no function that is handed on, since it also says where a line's row is. The cases of `casebook` are asked in a fifth way too, and
// those of the agreement test say what is wanted: its enum has other variants.
#[derive(Clone, Copy)]
pub enum Asked {
    Router,
    Reader,
    Drawer,
    Agreement,
}

// The number that a line was answered, and whether all that was answered and written is as the line says. Answers are counted by their numbers, which stand for
// those of all four, and also where the line disagrees.
#[derive(Clone, Copy)]
pub struct Answer {
    pub number: u32,
    pub is_right: bool,
}

impl Answer {
    // The answer of what was said. It is right where fields k and k + 1 of the line say the same, and what was written is right.
    pub fn new(line: &[u8], k: usize, said: Said, is_written: bool) -> Answer
        requires { k < 32 }
    {
        Answer {
            number: said.number,
            is_right: is_said(line, k, said) && is_written,
        }
    }
}

impl Asked {
    // The answer to a line; none where a field that the question needs is not in order.
    pub fn answer(self, line: &[u8]) -> Option<Answer> {
        match self {
            Asked::Router => router_line(line),
            Asked::Reader => reader_line(line),
            Asked::Drawer => drawer_line(line),
            Asked::Agreement => agreement_line(line),
        }
    }

    // Whether the row of a line has a blank; of a row that is not in order, whether the bytes before what is no byte have one.
    pub fn has_blank(self, line: &[u8]) -> bool {
        // An array is lent, so that no line fails for want of memory. Where nothing is put it has zeros.
        let mut row = [0u8; 1024];
        bytes(line, self.row_field(), &mut row);
        row.contains(&BLANK)
    }

    // The field that a line's row is in.
    fn row_field(self) -> usize {
        match self {
            Asked::Router | Asked::Agreement => 0,
            Asked::Reader | Asked::Drawer => 3,
        }
    }
}
