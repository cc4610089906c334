// The cases that are asked: each is printed and counted.
use crate::sheets::{Drawer, Reader};
use fields::field;
use std::fmt::Display;
use std::io;

// Whom the lines of a text ask.
#[derive(Clone, Copy)]
pub enum Asked {
    Router,
    Reader,
    Drawer,
    // The agreement test, which is to answer this.
    Agreement(bool),
    // All of them: a row is routed, read back, agreed on and drawn.
    Whole,
}

// Cases of one sort, each a line of a text. They are bytes and no `str`, since a row may hold byte FF.
#[derive(Clone, Copy)]
pub struct Cases {
    pub asked: Asked,
    pub lines: &'static [u8],
}

// Prints cases, and counts how many were asked, and how many of them had an answer or a byte that differs from what is wanted.
#[derive(Drop)]
pub struct Casebook<'a, P: Print> {
    rt: &'a P,
    cases: u64,
    wrong: u64,
}

impl<'a, P: Print> Casebook<'a, P> {
    pub fn new(rt: &'a P) -> Self {
        Casebook {
            rt,
            cases: 0,
            wrong: 0,
        }
    }

    // Asks cases of several sorts.
    pub fn ask(&mut self, cases: &[Cases]) -> io::Result<()> {
        for Cases { asked, lines } in cases {
            self.ask_lines(*asked, lines)?;
        }
        Ok(())
    }

    // Asks the case of each line of a text; an empty line has none.
    fn ask_lines(&mut self, asked: Asked, text: &[u8]) -> io::Result<()> {
        for line in text.split(|byte| *byte == b'\n') {
            if !line.is_empty() {
                self.ask_line(asked, line)?;
            }
        }
        Ok(())
    }

    // A switch: cases of all sorts stand in one constant array, which an enum allows and a type for each sort does not.
    fn ask_line(&mut self, asked: Asked, line: &[u8]) -> io::Result<()> {
        match asked {
            Asked::Router => self.router_case(line),
            Asked::Reader => self.sheet_case(&Reader, line),
            Asked::Drawer => self.sheet_case(&Drawer, line),
            Asked::Agreement(wanted) => self.agreement_case(line, wanted),
            Asked::Whole => self.whole_case(line),
        }
    }

    // Prints whom a case asks, its name, which is the first field of its line, the answer, and what was tested. A case is right where all of that is.
    pub fn report(
        &mut self,
        asked: &str,
        line: &[u8],
        answer: &impl Display,
        tests: &[(&str, bool)],
    ) -> io::Result<()> {
        print!(self.rt; "{asked} ")?;
        self.write(field(line, 0))?;
        print!(self.rt; ": {answer}")?;
        for (tested, is_right) in tests {
            let outcome = if *is_right { "right" } else { "WRONG" };
            print!(self.rt; ", {tested} {outcome}")?;
        }
        self.count(tests.iter().all(|(_, is_right)| *is_right));
        self.write(b"\n")
    }

    // A line with a field that cannot be read is a wrong case.
    pub fn report_unread(&mut self, line: &[u8]) -> io::Result<()> {
        self.count(false);
        self.write(b"no case: ")?;
        self.write(line)?;
        self.write(b"\n")
    }

    // Prints some bytes as they are.
    pub fn write(&self, text: &[u8]) -> io::Result<()> {
        self.rt.write_all(text)
    }

    // How many cases were asked.
    pub fn cases(&self) -> u64 {
        self.cases
    }

    // How many of them had an answer or a byte that differs from what is wanted.
    pub fn wrong(&self) -> u64 {
        self.wrong
    }

    // Prints how many cases were asked, and how many are wrong.
    pub fn print_counts(&self) -> io::Result<()> {
        let cases = self.cases;
        let wrong = self.wrong;
        println!(self.rt; "{cases} cases, {wrong} wrong")
    }

    fn count(&mut self, is_right: bool) {
        self.cases = self.cases.saturating_add(1);
        if !is_right {
            self.wrong = self.wrong.saturating_add(1);
        }
    }
}
