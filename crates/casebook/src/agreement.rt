// Cases of the agreement test: `name row sheet`. The row is in letters.
use crate::Casebook;
use fields::{bytes, letters};
use sheet::agreement::agrees;
use std::io;

impl<P: Print> Casebook<'_, P> {
    // A case whose row and sheet stand in its line.
    pub fn agreement_case(&mut self, line: &[u8], wanted: bool) -> io::Result<()> {
        // An array is lent, so that no case fails for want of memory.
        let mut sheet = [0u8; 1024];
        match (letters(line, 1), bytes(line, 2, &mut sheet)) {
            (Some(row), Some(sheet)) => self.agreement_sheet(line, row, sheet, wanted),
            _ => self.report_unread(line),
        }
    }

    // A case whose row and sheet are handed over beside its line, apart as in `handed_sheet`.
    pub fn agreement_sheet(
        &mut self,
        line: &[u8],
        row: &[u8],
        sheet: &[u8],
        wanted: bool,
    ) -> io::Result<()> {
        let is_agreed = agrees(row, sheet);
        let answer = if is_agreed { "yes" } else { "no" };
        let tests = [("answer", is_agreed == wanted)];
        self.report("agreement", line, &answer, &tests)
    }
}
