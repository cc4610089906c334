// Asks the library the edges and specimens of documents 01 and 02 and the worked net lists of the source documents, and prints each answer with what was tested.
#![tactic(auto)]

mod agreement_edges;
mod blanks;
mod drawer_edges;
mod listings;
mod long;
mod reader_edges;
mod router_edges;
mod specimens;
mod worked;

use casebook::Casebook;
use std::io;

fn main(rt: HostRuntime) -> io::Result<()> {
    rt.write_all(
        b"whom, case: number at place, bytes written; then whether answer and every byte lent are what documents 01 and 02 say\n",
    )?;
    let mut book = Casebook::new(&rt);
    ask_lines(&mut book)?;
    ask_long(&mut book)?;
    ask_listings(&mut book)?;
    book.print_counts()
}

fn ask_lines(book: &mut Casebook<'_, impl Print>) -> io::Result<()> {
    book.ask(&specimens::CASES)?;
    book.ask(&blanks::CASES)?;
    book.ask(&worked::CASES)?;
    book.ask(&router_edges::CASES)?;
    book.ask(&reader_edges::CASES)?;
    book.ask(&drawer_edges::CASES)?;
    book.ask(&agreement_edges::CASES)
}

fn ask_long(book: &mut Casebook<'_, impl Print>) -> io::Result<()> {
    long::most_nodes(book)?;
    long::most_nets(book)?;
    long::too_many_nodes(book)
}

fn ask_listings(book: &mut Casebook<'_, impl Print>) -> io::Result<()> {
    listings::short_inputs(book)?;
    listings::blank_inputs(book)?;
    listings::refused_inputs(book)?;
    listings::long_inputs(book)
}
