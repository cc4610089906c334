// Cases of the text that `listrow` prints. The library has no heap: `list_row` fills the start of a lent buffer and gives its length.
use crate::Casebook;
use fields::number;
use lent::{fill, is_kept, is_written};
use listing::list_row;
use std::io;

impl<P: Print> Casebook<'_, P> {
    // A text that is printed whole. The name is the first word of `name`.
    pub fn listing_case(&mut self, name: &[u8], input: &[u8], wanted: &[u8]) -> io::Result<()> {
        let mut text = [0u8; 8256];
        fill(&mut text);
        let k = list_row(input, &mut text);
        let is_right = k == wanted.len() && is_written(&text, wanted);
        self.report(
            "listrow",
            name,
            &format_args!("{k} bytes"),
            &[("text", is_right)],
        )?;
        self.write(&text[..k])
    }

    // A long text, of which the start and the end are printed and tested. The line is `name bytes lines`, how many of each it has.
    pub fn long_listing_case(
        &mut self,
        line: &[u8],
        input: &[u8],
        first: &[u8],
        last: &[u8],
    ) -> io::Result<()> {
        let mut buffer = [0u8; 8256];
        fill(&mut buffer);
        let k = list_row(input, &mut buffer);
        let text = &buffer[..k];
        let lines = text.iter().filter(|byte| **byte == b'\n').count();
        let is_right = is_kept(&buffer, k)
            && number(line, 1) == Some(k)
            && number(line, 2) == Some(lines)
            && text.starts_with(first)
            && text.ends_with(last);
        self.report(
            "listrow",
            line,
            &format_args!("{k} bytes, {lines} lines"),
            &[("text", is_right)],
        )?;
        self.write(&text[..first.len().min(k)])?;
        self.write(b"..\n")?;
        self.write(&text[k.saturating_sub(last.len())..])
    }
}
