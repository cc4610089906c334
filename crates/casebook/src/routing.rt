// Cases of the router: `name row Ku Kl work sheet number place wanted`. The row is in letters; `work` and `sheet` are the bytes that are lent.
use crate::Casebook;
use crate::print::Written;
use answers::Said;
use fields::{bytes, is_said, letters, number};
use lent::{fill, is_cleared, is_written, prepare};
use router::route;
use rules::Routing;
use std::io;

// Bytes of work: those of 513 nodes, and 30 that no row needs.
const WORK: usize = 46200;

impl<P: Print> Casebook<'_, P> {
    // A case whose row and sheet stand in its line.
    pub fn router_case(&mut self, line: &[u8]) -> io::Result<()> {
        match letters(line, 1) {
            Some(row) => self.router_row(line, row),
            None => self.report_unread(line),
        }
    }

    // A case whose row is handed over beside its line.
    pub fn router_row(&mut self, line: &[u8], row: &[u8]) -> io::Result<()> {
        // An array is lent, so that no case fails for want of memory.
        let mut wanted = [0u8; 1024];
        match bytes(line, 8, &mut wanted) {
            Some(wanted) => self.router_sheet(line, row, wanted),
            None => self.report_unread(line),
        }
    }

    // A case whose row and sheet are handed over beside its line, apart as in `handed_sheet`.
    pub fn router_sheet(&mut self, line: &[u8], row: &[u8], wanted: &[u8]) -> io::Result<()> {
        // Arrays are lent, so that no case fails for want of memory.
        let mut work = [0u8; WORK];
        let mut sheet = [0u8; 1024];
        fill(&mut work);
        prepare(&mut sheet, wanted);
        let answer = routed(line, row, &mut work, &mut sheet);
        let said = answer.map(|answer| Said::from(answer));
        let written = Written {
            said,
            bytes: sheet.get(..wanted.len()).unwrap_or(&sheet),
        };
        let is_work = answer.is_some_and(|answer| is_cleared(&work, answer, row.len()));
        let is_answer = said.is_some_and(|said| is_said(line, 6, said));
        self.report(
            "router",
            line,
            &written,
            &[
                ("sheet", is_written(&sheet, wanted)),
                ("work", is_work),
                ("answer", is_answer),
            ],
        )
    }
}

// Routes under the track counts and with buffers of the lengths that the line names; none where it names more than there is. The fields are counted as in the head of
// this file; each is read once, so that names for them would be no plainer.
fn routed(line: &[u8], row: &[u8], work: &mut [u8], sheet: &mut [u8]) -> Option<Routing> {
    let ku = u8::try_from(number(line, 2)?).ok()?;
    let kl = u8::try_from(number(line, 3)?).ok()?;
    let work = work.get_mut(..number(line, 4)?)?;
    let sheet = sheet.get_mut(..number(line, 5)?)?;
    Some(route(row, ku, kl, work, sheet))
}
