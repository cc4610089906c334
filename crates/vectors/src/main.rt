// Has the library answer S1 to S12 and every line of the outside vectors in data/, and prints how many disagree.
#![tactic(auto)]

mod ask_agreement;
mod ask_drawer;
mod ask_reader;
mod ask_router;
mod asked;
mod report;

use asked::Asked;
use report::Report;
use std::io::Read;
use std::rt::Files;
use std::{fs, io};

const TEXT: usize = 1048576;

fn main(rt: HostRuntime) -> io::Result<()> {
    ask_right(&rt)?;
    ask_wrong(&rt)
}

// Specimens and vectors, with which the library is to agree.
fn ask_right(rt: &(impl Files + AllocGlobal + Print)) -> io::Result<()> {
    ask(rt, Asked::Router, "specimens.txt")?;
    ask(rt, Asked::Reader, "specimen-sheets.txt")?;
    ask(rt, Asked::Drawer, "specimen-sheets.txt")?;
    ask(rt, Asked::Router, "router.txt")?;
    ask(rt, Asked::Reader, "sheets.txt")?;
    ask(rt, Asked::Drawer, "sheets.txt")?;
    ask(rt, Asked::Agreement, "agree.txt")
}

// Lines each of which has something wrong, so that every one is to disagree.
fn ask_wrong(rt: &(impl Files + AllocGlobal + Print)) -> io::Result<()> {
    ask(rt, Asked::Router, "wrong-router.txt")?;
    ask(rt, Asked::Reader, "wrong-sheets.txt")?;
    ask(rt, Asked::Drawer, "wrong-films.txt")?;
    ask(rt, Asked::Agreement, "wrong-agree.txt")
}

// Asks each line of a file of under 1,048,576 bytes, and reports. The first eight lines that disagree are named. Of a longer file the lines of that many bytes are
// asked, and it says so.
fn ask(rt: &(impl Files + AllocGlobal + Print), asked: Asked, path: &str) -> io::Result<()> {
    let mut text = Vec::new(rt.alloc());
    fs::open(rt, path)?
        .take(TEXT as u64)
        .read_to_end(&mut text)?;
    if text.len() == TEXT {
        rt.write_all(b"too long: ")?;
    }
    let mut report = Report::new();
    for (i, line) in text.split_inclusive(|byte| *byte == b'\n').enumerate() {
        let is_right = report.add(asked, line.strip_suffix(b"\n").unwrap_or(line));
        if !is_right && report.wrong() <= 8 {
            println!(rt; "{path}: line {} disagrees", i + 1)?;
        }
    }
    report.print(rt, path)
}
