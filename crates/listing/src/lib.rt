// The text of the router's answer: the whole job of `listrow` between its input and its output.
#![tactic(auto)]

mod nodes;
mod put;

ghost use Rattle.std.specs.Prelude.{◌≡◌, ◌≤◌, length, Ok};
ghost use Rattle.rules.specs.Answers.{says};
ghost use Rattle.listing.specs.Text.{head_line, refused_line, listed, row_text, input_text};
ghost use Rattle.listing.specs.Wrote.{Readable, Listable, Listing, IsPrefixLen};
ghost use Rattle.listing.specs.Puts.{Room, Puts};

use answers::Said;
use put::Text;
use rules::Routing;
use sheet::layout::{lower_of, unpack, upper_of};

// The text for an input: byte Ku, byte Kl, then the row. It stands at the start of its buffer; its length is returned.
// A length, here and at list_answer, and no slice of the buffer: both are public, and keep the answer that they give their callers.
pub fn list_row(input: &[u8], text: &mut [u8; 8256]) -> usize
    ensures listing { Listing (input_text input.now) text.old text.new result }
    ensures prefix_len { IsPrefixLen result text.new }
{
    match input {
        [ku, kl, row @ ..] => route_and_list(row, *ku, *kl, text),
        _ => route_and_list(&[], 0, 0, text),
    }
}

// Routes a row with buffers that are long enough for every row that the router takes, and lists the answer.
// ku and kl are two numbers: they are any two bytes of the input, of which the router says whether they are track counts, and Streets has those that are.
fn route_and_list(row: &[u8], ku: u8, kl: u8, text: &mut [u8; 8256]) -> usize
    ensures { Listing (row_text row.now ku kl) text.old text.new result }
{
    // As many bytes as the router can ask for: there is no heap.
    let mut work = [0u8; 46080];
    let mut sheet = [0u8; 386];
    let answer = router::route(row, ku, kl, &mut work, &mut sheet);
    list_answer(answer, &sheet, text)
}

// The text of an answer, with the sheet where it is one. It stands at the start of its buffer; its length is returned.
pub fn list_answer(answer: Routing, sheet: &[u8], text: &mut [u8]) -> usize
    requires listable { Listable answer sheet.now }
    requires in_bounds { 8256 ≤ length text.old }
    ensures { Listing (listed answer sheet.now) text.old text.new result }
{
    let mut listing = Text::new(text);
    listing.list(answer, sheet);
    listing.len
}

impl Text<'_> {
    // The text of an answer, from the start of a buffer on.
    fn list(&mut self, answer: Routing, sheet: &[u8])
        requires listable { Listable answer sheet.now }
        requires start { self.old.len ≡ 0 }
        requires in_bounds { 8256 ≤ length self.old.bytes.now }
        ensures same { self.new.bytes.ghost_name ≡ self.old.bytes.ghost_name }
        ensures listing { Listing (listed answer sheet.now) self.old.bytes.now self.new.bytes.now self.new.len }
    {
        match answer {
            Ok(n) => self.list_sheet(n, sheet),
            Err(_) => self.list_refusal(Said::from(answer)),
        }
    }

    // A sheet of n nodes: the heading, and a line for each node.
    fn list_sheet(&mut self, n: usize, sheet: &[u8])
        requires readable { Readable sheet.now n }
        requires room { Room (listed (Ok n) sheet.now) self.old }
        ensures { Puts (listed (Ok n) sheet.now) self.old self.new }
    {
        // A byte for each node that a sheet can have: there is no heap.
        let mut fields = [0u8; 512];
        unpack(sheet, n, &mut fields);
        self.list_head(n, upper_of(sheet), lower_of(sheet));
        self.list_nodes(&fields[..n]);
    }

    // `sheet`, n, Ku, Kl. ku and kl are two numbers: the sheet's fields as they stand, where Streets would have to be asked for.
    fn list_head(&mut self, n: usize, ku: u8, kl: u8)
        requires { Room (head_line n ku kl) self.old }
        ensures { Puts (head_line n ku kl) self.old self.new }
    {
        self.put_word(b"sheet", b' ');
        self.put_number(n, b' ');
        self.put_number(ku as usize, b' ');
        self.put_number(kl as usize, b'\n');
    }

    // `refused`, number, `at`, place.
    fn list_refusal(&mut self, said: Said)
        requires { Room (refused_line (says said.number said.place)) self.old }
        ensures { Puts (refused_line (says said.number said.place)) self.old self.new }
    {
        self.put_word(b"refused", b' ');
        self.put_number(said.number as usize, b' ');
        self.put_word(b"at", b' ');
        self.put_number(said.place, b'\n');
    }
}
