// Rows that are routed, read back, agreed on and drawn. Behind the router's fields stand `size number place wanted` of the reader, and then of the drawer.
use crate::Casebook;
use crate::sheets::{Drawer, Fields, Reader, SheetCase};
use fields::{bytes, letters};
use std::io;

impl<P: Print> Casebook<'_, P> {
    pub fn whole_case(&mut self, line: &[u8]) -> io::Result<()> {
        // Arrays are lent, so that no case fails for want of memory.
        let mut sheet = [0u8; 1024];
        let mut back = [0u8; 1024];
        let mut film = [0u8; 4096];
        match (
            letters(line, 1),
            bytes(line, 8, &mut sheet),
            bytes(line, 12, &mut back),
            bytes(line, 16, &mut film),
        ) {
            (Some(row), Some(sheet), Some(back), Some(film)) => {
                self.router_sheet(line, row, sheet)?;
                let read = SheetCase {
                    line,
                    fields: Fields::Read,
                    sheet,
                    wanted: back,
                };
                let drawn = SheetCase {
                    fields: Fields::Drawn,
                    wanted: film,
                    ..read
                };
                self.ask_sheet(&Reader, read)?;
                self.agreement_sheet(line, row, sheet, true)?;
                self.ask_sheet(&Drawer, drawn)
            }
            _ => self.report_unread(line),
        }
    }
}
