// What fails in a trial: the part, and the row or the sheet that is tried.
use answers::Said;
use fields::Hex;
use secondrouter::streets::Streets;
use std::alloc::AllocError;
use std::fmt;

// A part of a trial, with the number that is printed of it.
#[derive(Clone, Copy)]
pub enum Part {
    Router = 1,
    Reader,
    Agreement,
    // The drawer's refusal of a sheet, or of a film that is too short.
    Refusal,
    Drawer,
    Wires,
    // The router's first tests.
    FirstTests,
    SecondRouter,
}

// What a part says, and what it has to say.
#[derive(Clone, Copy)]
pub struct Answers {
    pub said: Said,
    pub wanted: Said,
}

// What a trial finds: a part that fails, by another answer than is wanted or otherwise.
#[derive(Clone, Copy)]
pub struct Finding {
    pub part: Part,
    pub answers: Option<Answers>,
}

// Why a trial stops: a part fails, or memory runs out. Where another error becomes this one, `?` could not say which part fails, so its arm of `Memory` is written
// out.
#[derive(Drop)]
pub enum Failure {
    Found(Finding),
    Memory(AllocError),
}

impl From<Finding> for Failure {
    fn from(finding: Finding) -> Failure {
        Failure::Found(finding)
    }
}

impl From<AllocError> for Failure {
    fn from(error: AllocError) -> Failure {
        Failure::Memory(error)
    }
}

impl Part {
    // Fails where the part does not give the answer that is wanted. That comes in the numbers of the documents, from the second router alone, so that the library's own
    // numbers and places are tested too.
    pub fn says<T: Into<Said>>(self, said: T, wanted: Said) -> Result<(), Finding> {
        let said = said.into();
        if said == wanted {
            return Ok(());
        }
        Err(Finding {
            part: self,
            answers: Some(Answers { said, wanted }),
        })
    }

    // Fails where the part's test does not hold.
    pub fn holds(self, test: bool) -> Result<(), Finding> {
        if test { Ok(()) } else { Err(self.fails()) }
    }

    // What is found where the part fails by something else than an answer.
    pub fn fails(self) -> Finding {
        Finding {
            part: self,
            answers: None,
        }
    }
}

impl fmt::Display for Part {
    fn fmt<W: fmt::Write>(&self, f: &mut fmt::Formatter<W>) -> fmt::Result {
        let number = *self as u8;
        write!(f, "{number}")
    }
}

impl fmt::Display for Answers {
    fn fmt<W: fmt::Write>(&self, f: &mut fmt::Formatter<W>) -> fmt::Result {
        let Answers { said, wanted } = self;
        write!(f, "said and wanted {said}, {wanted}, ")
    }
}

// What is tried: a row under a pair of streets, or a sheet with a row.
#[derive(Clone, Copy)]
pub enum Subject<'a> {
    Row { row: &'a [u8], streets: Streets },
    Sheet { sheet: &'a [u8], row: &'a [u8] },
}

// A trial that fails: the part, Ku and Kl or a sheet, the answer given and the answer wanted, and the bytes in hexadecimal.
#[derive(Drop)]
pub struct Disagreement<'a> {
    pub subject: Subject<'a>,
    pub finding: Finding,
}

impl Disagreement<'_> {
    fn write_head<W: fmt::Write>(&self, f: &mut fmt::Formatter<W>) -> fmt::Result {
        let part = self.finding.part;
        match self.subject {
            Subject::Row { streets, .. } => {
                write!(
                    f,
                    "{part} part, Ku Kl {} {}, ",
                    streets.upper, streets.lower
                )
            }
            Subject::Sheet { .. } => write!(f, "{part} part of a sheet, "),
        }
    }

    fn write_bytes<W: fmt::Write>(&self, f: &mut fmt::Formatter<W>) -> fmt::Result {
        match self.subject {
            Subject::Row { row, .. } => write!(f, "{} nodes {}", row.len(), Hex(row)),
            Subject::Sheet { sheet, row } => {
                writeln!(f, "{} bytes {}", sheet.len(), Hex(sheet))?;
                write!(f, "{} nodes {}", row.len(), Hex(row))
            }
        }
    }
}

impl fmt::Display for Disagreement<'_> {
    fn fmt<W: fmt::Write>(&self, f: &mut fmt::Formatter<W>) -> fmt::Result {
        self.write_head(f)?;
        if let Some(answers) = self.finding.answers {
            write!(f, "{answers}")?;
        }
        self.write_bytes(f)
    }
}
