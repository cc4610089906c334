// Cases of sheets: `name sheet size number place wanted`. `size` is the bytes that are lent, to the reader for the row or to the drawer for the film.
ghost use Rattle.std.specs.Prelude.{◌<◌};

use crate::Casebook;
use crate::print::Written;
use answers::Said;
use fields::{bytes, is_said, number};
use film::drawer::draw;
use lent::films::is_drawn;
use lent::{fill, is_written, prepare};
use sheet::reader::read;
use std::io;

// Bytes of a row or a film: more than any case needs.
const SIZE: usize = 4096;

// Where a line has what is lent for a sheet's case, and the answer that is wanted.
#[derive(Clone, Copy)]
pub enum Fields {
    // In a case of its own.
    Alone,
    // Behind the case of the row that is routed to the sheet: the reader's, and then the drawer's.
    Read,
    Drawn,
}

impl Fields {
    // The first of the fields `size number place`.
    fn first(self) -> usize
        ensures { result < 16 }
    {
        match self {
            Fields::Alone => 2,
            Fields::Read => 9,
            Fields::Drawn => 13,
        }
    }
}

// A case of a sheet.
#[derive(Clone, Copy)]
pub struct SheetCase<'a> {
    // Its first field is the case's name.
    pub line: &'a [u8],
    pub fields: Fields,
    pub sheet: &'a [u8],
    // The row or the film that the sheet is to give.
    pub wanted: &'a [u8],
}

// Who is asked about a sheet, and what is lent for the answer.
pub trait SheetAsked {
    fn name(&self) -> &'static str;

    fn lent(&self) -> &'static str;
    // Prepares what is lent, so that every byte that is wanted must be written.
    fn prepare(&self, buffer: &mut [u8], wanted: &[u8]);

    fn ask(&self, sheet: &[u8], buffer: &mut [u8]) -> Said;
    // Whether what is wanted was written, and nothing else.
    fn is_right(&self, buffer: &[u8], wanted: &[u8]) -> bool;
}

// The reader, who is lent a row.
pub struct Reader;

impl SheetAsked for Reader {
    fn name(&self) -> &'static str {
        "reader"
    }

    fn lent(&self) -> &'static str {
        "row"
    }

    fn prepare(&self, buffer: &mut [u8], wanted: &[u8]) {
        prepare(buffer, wanted);
    }

    fn ask(&self, sheet: &[u8], buffer: &mut [u8]) -> Said {
        Said::from(read(sheet, buffer))
    }

    fn is_right(&self, buffer: &[u8], wanted: &[u8]) -> bool {
        is_written(buffer, wanted)
    }
}

// The drawer, who is lent a film. Records may stand in another order.
pub struct Drawer;

impl SheetAsked for Drawer {
    fn name(&self) -> &'static str {
        "drawer"
    }

    fn lent(&self) -> &'static str {
        "film"
    }

    fn prepare(&self, buffer: &mut [u8], _wanted: &[u8]) {
        fill(buffer);
    }

    fn ask(&self, sheet: &[u8], buffer: &mut [u8]) -> Said {
        Said::from(draw(sheet, buffer))
    }

    fn is_right(&self, buffer: &[u8], wanted: &[u8]) -> bool {
        is_drawn(buffer, wanted)
    }
}

impl<P: Print> Casebook<'_, P> {
    // A case whose sheet, and the row or the film that it is to give, stand in its line.
    pub fn sheet_case(&mut self, asked: &impl SheetAsked, line: &[u8]) -> io::Result<()> {
        // Arrays are lent, so that no case fails for want of memory.
        let mut sheet = [0u8; 1024];
        let mut wanted = [0u8; SIZE];
        match (bytes(line, 1, &mut sheet), bytes(line, 5, &mut wanted)) {
            (Some(sheet), Some(wanted)) => self.handed_sheet(asked, line, sheet, wanted),
            _ => self.report_unread(line),
        }
    }

    // A case whose sheet, and the row or the film that it is to give, are handed over beside its line. They come apart, since a `SheetCase` that is written at each call
    // would be no plainer.
    pub fn handed_sheet(
        &mut self,
        asked: &impl SheetAsked,
        line: &[u8],
        sheet: &[u8],
        wanted: &[u8],
    ) -> io::Result<()> {
        let fields = Fields::Alone;
        self.ask_sheet(
            asked,
            SheetCase {
                line,
                fields,
                sheet,
                wanted,
            },
        )
    }

    // A case of a sheet, wherever its line has the fields.
    pub fn ask_sheet(&mut self, asked: &impl SheetAsked, case: SheetCase) -> io::Result<()> {
        let SheetCase {
            line,
            fields,
            sheet,
            wanted,
        } = case;
        // An array is lent, so that no case fails for want of memory.
        let mut buffer = [0u8; SIZE];
        asked.prepare(&mut buffer, wanted);
        let first = fields.first();
        let said = number(line, first)
            .and_then(|size| buffer.get_mut(..size))
            .map(|start| asked.ask(sheet, start));
        let answer = Written {
            said,
            bytes: buffer.get(..wanted.len()).unwrap_or(&buffer),
        };
        let is_answer = said.is_some_and(|said| is_said(line, first + 1, said));
        self.report(
            asked.name(),
            line,
            &answer,
            &[
                (asked.lent(), asked.is_right(&buffer, wanted)),
                ("answer", is_answer),
            ],
        )
    }
}
